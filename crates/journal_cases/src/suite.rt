//! The suite: a case file's items, answered one after another on one disk.

ghost use Rattle.std.specs.Prelude.{◌<◌};

use crate::appends::{appends, open_one};
use crate::crashes::{crash, logs};
use crate::disk::disk_of;
use crate::entries::{enters, entry, log};
use crate::volumes::{length, put_count, read, sync, write};
use crate::words::volume_word;
use ale_base::OutOfMemory;
use ale_volumes::MemoryVolumes;
use case_form::{Bench, Item, LineEnd, Outcome, Rule, Suite, Text, Texts, meaning_of, outcome_on};
use std::alloc::Global;

const NO_SUCH_ITEM: Rule = Rule("an item is one that the program has");

/// The cases of volumes and journals.
pub(crate) struct Journals;

/// The disk of a case.
#[derive(Drop)]
struct DiskBench {
    vols: MemoryVolumes,
}

impl Suite for Journals {
    ghost use Rattle.case_form.specs.Answered.{IsAnswered};
    ghost use Rattle.journal_cases.specs.Bench.{sets_up};

    ghost comes_out = { λ _ _ file bytes outcome. IsAnswered sets_up (λ _ _. Unit {0}) file bytes outcome };

    fn outcome(
        &self,
        alloc: Global,
        _texts: &Texts,
        file: &str,
        bytes: &[u8],
    ) -> Result<Outcome, OutOfMemory> {
        let vols = MemoryVolumes::new(alloc);
        outcome_on(alloc, &mut DiskBench { vols }, file, bytes)
    }
}

impl Bench for DiskBench {
    ghost use Rattle.journal_cases.specs.Bench.{sets_up};

    ghost sets_up = { sets_up };

    /// What an item finds. One that makes a disk finds nothing.
    fn found(&mut self, alloc: Global, item: &Item) -> Result<Option<Vec<u8>>, LineEnd> {
        if item.word.as_slice() == b"disk".as_slice() {
            self.vols = disk_of(alloc, item)?;
            return Ok(None);
        }
        let about = meaning_of(&WORDS, item.word.as_slice()).ok_or(NO_SUCH_ITEM)?;
        let mut text = Text::new(alloc);
        put_found(
            alloc,
            &mut self.vols,
            about,
            item.rest.as_slice(),
            &mut text,
        )?;
        Ok(Some(text.into_bytes()))
    }
}

/// What an item is about.
#[derive(Clone, Copy)]
enum About {
    Clock,
    Calls,
    Entry,
    Volume(OnVolume),
}

/// What an item does or asks of one volume.
#[derive(Clone, Copy)]
enum OnVolume {
    Write,
    Sync,
    Length,
    Read,
    Holds,
    Faults,
    Crash,
    Logs,
    Open,
    Appends,
    Log,
    Enters,
}

/// The words of the items.
const WORDS: [(&'static [u8], About); 15] = [
    (b"clock", About::Clock),
    (b"calls", About::Calls),
    (b"entry", About::Entry),
    (b"write", About::Volume(OnVolume::Write)),
    (b"sync", About::Volume(OnVolume::Sync)),
    (b"length", About::Volume(OnVolume::Length)),
    (b"read", About::Volume(OnVolume::Read)),
    (b"holds", About::Volume(OnVolume::Holds)),
    (b"faults", About::Volume(OnVolume::Faults)),
    (b"crash", About::Volume(OnVolume::Crash)),
    (b"logs", About::Volume(OnVolume::Logs)),
    (b"open", About::Volume(OnVolume::Open)),
    (b"appends", About::Volume(OnVolume::Appends)),
    (b"log", About::Volume(OnVolume::Log)),
    (b"enters", About::Volume(OnVolume::Enters)),
];

/// Puts what an item finds.
fn put_found(
    alloc: Global,
    vols: &mut MemoryVolumes,
    about: About,
    rest: &[u8],
    text: &mut Text,
) -> Result<(), LineEnd> {
    match about {
        About::Clock => Ok(put_count(text, vols.clock())?),
        About::Calls => Ok(put_count(text, vols.calls().made)?),
        About::Entry => entry(alloc, rest, text),
        About::Volume(about) => {
            let (n, rest) = volume_word(rest)?;
            on_volume(alloc, vols, about, n, rest, text)
        }
    }
}

/// Puts what an item finds that names a volume.
fn on_volume(
    alloc: Global,
    vols: &mut MemoryVolumes,
    about: OnVolume,
    n: u8,
    rest: &[u8],
    text: &mut Text,
) -> Result<(), LineEnd>
    requires { n < 16 }
{
    match about {
        OnVolume::Write => write(alloc, vols, n, rest, text),
        OnVolume::Sync => sync(alloc, vols, n, text),
        OnVolume::Length => length(alloc, vols, n, text),
        OnVolume::Read => read(alloc, vols, n, rest, text),
        OnVolume::Holds => Ok(text.put_line(vols.contents(n))?),
        OnVolume::Faults => Ok(put_count(text, vols.calls().faults[usize::from(n)])?),
        OnVolume::Crash => crash(alloc, vols, n, rest, text),
        OnVolume::Logs => logs(alloc, vols, n, rest, text),
        OnVolume::Open => open_one(alloc, vols, n, text),
        OnVolume::Appends => appends(alloc, vols, n, rest, text),
        OnVolume::Log => log(alloc, vols, n, text),
        OnVolume::Enters => enters(alloc, vols, n, rest, text),
    }
}
