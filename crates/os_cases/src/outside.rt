//! The adapters that a case calls, and what its items ask of them.

use crate::call_end::{Broken, CallEnd};
use crate::names::{allow, hard_link, link, make_folder, mode, rename};
use crate::paths::{make, remove, there};
use crate::pieces::{WhyUnread, piece, read, why_unread};
use crate::text::{line, told_line, two_lines};
use crate::volumes::{RealVolumes, on_volume, reopen};
use ale_io::{Clock as _, Sink};
use ale_os::{StdSink, WallClock};
use case_form::{Item, first_word, meaning_of, put_text};
use std::alloc::Global;
use std::fs;
use std::rt::{Clock, Files};

/// Adapters: files, volumes, and the volumes as a later run finds them, until these are asked for.
#[derive(Drop)]
pub(crate) struct Adapters<F, V> {
    pub(crate) files: F,
    pub(crate) volumes: V,
    pub(crate) later: Option<V>,
}

/// What an item asks for.
#[derive(Clone, Copy)]
enum Asked {
    Make,
    MakeFolder,
    Link,
    HardLink,
    Move,
    Allow,
    Mode,
    Remove,
    There,
    Read,
    Piece,
    WhyUnread,
    Put,
    Shown,
    Full,
    Volume(VolumeCall),
    Why,
    Beside,
    Reopen,
    Clock,
}

/// A call on a volume.
#[derive(Clone, Copy)]
pub(crate) enum VolumeCall {
    Length,
    Write,
    Read,
    Sync,
    Faults,
}

const WORDS: [(&'static [u8], Asked); 24] = [
    (b"make", Asked::Make),
    (b"folder", Asked::MakeFolder),
    (b"link", Asked::Link),
    (b"name", Asked::HardLink),
    (b"move", Asked::Move),
    (b"allow", Asked::Allow),
    (b"mode", Asked::Mode),
    (b"remove", Asked::Remove),
    (b"there", Asked::There),
    (b"read", Asked::Read),
    (b"piece", Asked::Piece),
    (b"unread", Asked::WhyUnread),
    (b"put", Asked::Put),
    (b"shown", Asked::Shown),
    (b"full", Asked::Full),
    (b"length", Asked::Volume(VolumeCall::Length)),
    (b"write", Asked::Volume(VolumeCall::Write)),
    (b"at", Asked::Volume(VolumeCall::Read)),
    (b"sync", Asked::Volume(VolumeCall::Sync)),
    (b"faults", Asked::Volume(VolumeCall::Faults)),
    (b"why", Asked::Why),
    (b"beside", Asked::Beside),
    (b"reopen", Asked::Reopen),
    (b"clock", Asked::Clock),
];

/// Does what an item asks for, and tells what came of it.
pub(crate) fn found<
    R: Files + Clock + AllocGlobal,
    F: ale_io::Files + WhyUnread,
    V: RealVolumes + Drop,
>(
    rt: &R,
    alloc: Global,
    adapters: &mut Adapters<F, V>,
    sink: &mut StdSink<Vec<u8>>,
    item: &Item,
) -> Result<Vec<u8>, CallEnd> {
    let rest = item.rest.as_slice();
    match asked_by(item.word.as_slice())? {
        Asked::Make => make(rt, alloc, rest),
        Asked::MakeFolder => make_folder(rt, alloc, rest),
        Asked::Link => link(rt, alloc, rest),
        Asked::HardLink => hard_link(rt, alloc, rest),
        Asked::Move => rename(rt, alloc, rest),
        Asked::Allow => allow(rt, alloc, rest),
        Asked::Mode => mode(rt, alloc, rest),
        Asked::Remove => remove(rt, alloc, rest),
        Asked::There => there(rt, alloc, rest),
        Asked::Read => read(alloc, &mut adapters.files, rest),
        Asked::Piece => piece(alloc, &mut adapters.files, rest),
        Asked::WhyUnread => why_unread(alloc, &adapters.files),
        Asked::Put => put(alloc, sink, rest),
        Asked::Shown => put_on_terminal(alloc, rest),
        Asked::Full => put_on_full(rt, alloc, rest),
        Asked::Volume(call) => on_volume(alloc, &mut adapters.volumes, call, rest),
        Asked::Why => Ok(adapters.volumes.told(alloc)?),
        Asked::Beside => beside(alloc, adapters, rest),
        Asked::Reopen => reopen(alloc, adapters),
        Asked::Clock => clock(rt, alloc),
    }
}

/// What a word asks for.
fn asked_by(word: &[u8]) -> Result<Asked, CallEnd> {
    match meaning_of(&WORDS, word) {
        Some(asked) => Ok(asked),
        None => Err(Broken::NoSuchItem.into()),
    }
}

/// `beside CALL VOLUME ..`: the call on the volumes of a later run, while those of this one are there.
fn beside<F, V: RealVolumes>(
    alloc: Global,
    adapters: &mut Adapters<F, V>,
    rest: &[u8],
) -> Result<Vec<u8>, CallEnd> {
    let (word, rest) = first_word(rest);
    let Some(later) = &mut adapters.later else {
        return Err(Broken::Reopened.into());
    };
    match asked_by(word)? {
        Asked::Volume(call) => on_volume(alloc, later, call, rest),
        Asked::Why => Ok(later.told(alloc)?),
        _ => Err(Broken::NoSuchItem.into()),
    }
}

/// `put TEXT`: the text is put into a sink that keeps what it is given. It tells all that the sink keeps.
fn put(alloc: Global, sink: &mut StdSink<Vec<u8>>, rest: &[u8]) -> Result<Vec<u8>, CallEnd> {
    let mut text = Vec::new(alloc);
    put_text(&mut text, rest)?;
    match sink.put(text.as_slice()) {
        Ok(()) => Ok(two_lines(alloc, "put, and it keeps", sink.writer().as_slice())?),
        Err(_) => Ok(line(alloc, "failed")?),
    }
}

/// `shown TEXT`: the text is put into a sink that takes its writer for a terminal. It tells what that gets.
fn put_on_terminal(alloc: Global, rest: &[u8]) -> Result<Vec<u8>, CallEnd> {
    let mut text = Vec::new(alloc);
    put_text(&mut text, rest)?;
    let mut sink = StdSink::on_terminal(Vec::new(alloc));
    match sink.put(text.as_slice()) {
        Ok(()) => Ok(two_lines(alloc, "put, and it shows", sink.writer().as_slice())?),
        Err(_) => Ok(line(alloc, "failed")?),
    }
}

/// `full TEXT`: the text is put on a device that is full.
fn put_on_full<R: Files>(rt: &R, alloc: Global, rest: &[u8]) -> Result<Vec<u8>, CallEnd> {
    let mut text = Vec::new(alloc);
    put_text(&mut text, rest)?;
    let Ok(full) = fs::File::create(rt, "/dev/full") else {
        return Ok(line(alloc, "there is no such device")?);
    };
    let mut sink = StdSink::new(full);
    match (sink.put(text.as_slice()), sink.failure()) {
        (Ok(()), _) => Ok(line(alloc, "put")?),
        (Err(_), Some(error)) => Ok(told_line(alloc, &error)?),
        (Err(_), None) => Ok(line(alloc, "failed")?),
    }
}

/// `clock`: whether the clock's moment is a second of 2026 or later, and no thousandth of one.
fn clock<R: Clock>(rt: &R, alloc: Global) -> Result<Vec<u8>, CallEnd> {
    let moment = WallClock::new(rt).now();
    if OF_2026 < moment && moment < 10 * OF_2026 {
        Ok(line(alloc, "a second since 2026")?)
    } else {
        Ok(line(alloc, "none")?)
    }
}

/// The first second of 2026, counted from 1970.
const OF_2026: u64 = 1_767_225_600;
