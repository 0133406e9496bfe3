//! Items that ask what a crash leaves.

ghost use Rattle.std.specs.Prelude.{◌<◌, ◌≤◌, length, IfOk};

use crate::words::{number_word, numbers};
use ale_base::{Items, OutOfMemory};
use ale_volumes::{MemoryVolumes, Survivors};
use byte_journal::open;
use case_form::{LineEnd, Rule, Text};
use std::alloc::Global;
use std::array;

const NO_SUCH_MOMENT: Rule = Rule("a moment is no later than now");

/// The moment that the first word names, and the words behind it.
fn moment_word<'a>(vols: &MemoryVolumes, words: &'a [u8]) -> Result<(u64, &'a [u8]), LineEnd>
    ensures { IfOk result (λ found. found.0 ≤ length vols.now.steps) }
{
    let (number, rest) = number_word(words)?;
    let moment = u64::from(number);
    if moment > vols.clock() {
        return Err(NO_SUCH_MOMENT.into());
    }
    Ok((moment, rest))
}

/// `crash N MOMENT BACK COUNT ..`: what a crash at a moment leaves of a volume: of the lengths that it may have had since
/// its last sync the one so far back from the newest, of each write since so many bytes, and a full stop elsewhere.
pub(crate) fn crash(
    alloc: Global,
    vols: &MemoryVolumes,
    n: u8,
    rest: &[u8],
    text: &mut Text,
) -> Result<(), LineEnd>
    requires { n < 16 }
{
    let (moment, rest) = moment_word(vols, rest)?;
    let (back, rest) = number_word(rest)?;
    let survivors = Survivors {
        bytes: Items::from_vec(numbers(alloc, rest)?),
        length: back as usize,
        filler: b'.',
    };
    let image = vols.image(moment, n, &survivors)?;
    Ok(text.put_line(image.as_slice())?)
}

/// `logs N MOMENT`: the log of what a crash at a moment leaves of a volume with one write that is not synced, where
/// nothing of the write is left, and where any of its first seven bytes are, at either length.
pub(crate) fn logs(
    alloc: Global,
    vols: &MemoryVolumes,
    n: u8,
    rest: &[u8],
    text: &mut Text,
) -> Result<(), LineEnd>
    requires { n < 16 }
{
    let (moment, _) = moment_word(vols, rest)?;
    text.put(b"nothing of it is left:")?;
    for back in 0..2 {
        put_log(alloc, text, vols, n, moment, 0, back)?;
    }
    text.put(b"\nsome of it is left:")?;
    for choice in 2..16u64 {
        let back = (choice % 2) as usize;
        put_log(alloc, text, vols, n, moment, choice / 2, back)?;
    }
    Ok(text.end_line()?)
}

/// Puts the log that a crash leaves, where the text does not end with it.
fn put_log(
    alloc: Global,
    text: &mut Text,
    vols: &MemoryVolumes,
    n: u8,
    moment: u64,
    count: u64,
    back: usize,
) -> Result<(), OutOfMemory>
    requires number { n < 16 }
    requires moment { moment ≤ length vols.now.steps }
{
    let survivors = Survivors {
        bytes: Items::from_vec(vec![in alloc; count]?),
        length: back,
        filler: b'O',
    };
    let image = vols.image(moment, n, &survivors)?;
    let log = log_of(alloc, n, image)?;
    if text.as_bytes().ends_with(log.as_bytes()) {
        return Ok(());
    }
    text.put(log.as_bytes())
}

/// The bodies of the log that a volume of these bytes stands for, each behind a blank, or that there is none.
fn log_of(alloc: Global, n: u8, image: Items<u8>) -> Result<Text, OutOfMemory>
    requires { n < 16 }
{
    let mut held = array::from_fn(|_| Items::new(alloc));
    held[usize::from(n)] = image;
    let mut vols = MemoryVolumes::with_contents(alloc, held)?;
    match open(alloc, &mut vols, n) {
        Ok((_, log)) => log_text(alloc, &log),
        Err(_) => no_log(alloc),
    }
}

/// The bodies of a log, each behind a blank.
fn log_text(alloc: Global, log: &Items<Items<u8>>) -> Result<Text, OutOfMemory> {
    let mut text = Text::new(alloc);
    text.put_word(b"log")?;
    for body in log {
        text.put_word(body.as_slice())?;
    }
    Ok(text)
}

/// That there is no log.
fn no_log(alloc: Global) -> Result<Text, OutOfMemory> {
    let mut text = Text::new(alloc);
    text.put(b" no log")?;
    Ok(text)
}
