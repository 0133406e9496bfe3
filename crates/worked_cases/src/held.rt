//! What volumes are made to hold before a run.

ghost use Rattle.std.specs.Prelude.{◌≡◌, ◌∷◌, ◌++◌, ◌-◌, ℕ, List, [], drop, map, take, IfOk, OnOk};
ghost use Rattle.byte_journal.specs.Log.{Stands, records, closed_gate};
ghost use Rattle.worked_cases.specs.Held.{AreHeld, IsHeld, IsGiven, AreGiven, volume_in};

use crate::starts::{Contents, copied};
use ale_base::{Items, OutOfMemory, SystemNo};
use ale_volumes::MemoryVolumes;
use byte_journal::{Journal, OpenFault, open};
use std::alloc::Global;
use std::array;

/// The bytes of a record that tell its moment: the byte 13 and the moment.
const MOMENT: usize = 9;

/// What the volume of a system is made to hold.
#[derive(Drop)]
pub(crate) struct Holding {
    pub(crate) system: SystemNo,
    pub(crate) what: Held,
}

/// What a volume is made to hold.
#[derive(Drop)]
pub(crate) enum Held {
    /// So many of the first bytes of what it holds.
    Front(u64),
    /// A journal of these records.
    Journal(Items<Given>),
}

/// A record of a journal, as a case gives it.
#[derive(Drop)]
pub(crate) enum Given {
    /// That of this number, from 1, of the log that the volume of a system holds.
    Copy { system: SystemNo, number: u64 },
    /// The same without its first bytes, which tell its moment.
    Bare { system: SystemNo, number: u64 },
    /// These bytes.
    Bytes(Items<u8>),
}

/// What volumes hold that held this, once those that a run names are made to hold what it says, one after another.
pub(crate) fn made_to_hold(
    alloc: Global,
    holds: &[Holding],
    start: &Contents,
) -> Result<Contents, OutOfMemory>
    ensures { IfOk result (AreHeld start.now holds.now) }
{
    let mut contents = copied(alloc, start)?;
    for holding in holds {
        let bytes = bytes_held(alloc, holding, &contents)?;
        contents[usize::from(holding.system.get() - 1)] = bytes;
    }
    Ok(contents)
}

/// What one volume is made to hold, where all hold this.
fn bytes_held(
    alloc: Global,
    holding: &Holding,
    contents: &Contents,
) -> Result<Items<u8>, OutOfMemory>
    ensures { IfOk result (IsHeld contents.now holding.now) }
{
    match &holding.what {
        Held::Front(count) => front(
            alloc,
            contents[usize::from(holding.system.get() - 1)].as_slice(),
            *count,
        ),
        Held::Journal(records) => journal_of(alloc, records.as_slice(), contents),
    }
}

/// So many of the first bytes.
fn front(alloc: Global, bytes: &[u8], count: u64) -> Result<Items<u8>, OutOfMemory>
    ensures { IfOk result (λ front. front ≡ take count bytes.now) }
{
    let (front, _) = bytes.split_at(bytes.len().min(count as usize));
    Ok(Items::from_slice(alloc, front)?)
}

/// The journal of these records, beside volumes that hold this.
fn journal_of(alloc: Global, given: &[Given], contents: &Contents) -> Result<Items<u8>, OutOfMemory>
    ensures { IfOk result (λ bytes. (bodies : List (List ℕ)) × AreGiven contents.now given.now bodies
        × (bytes ≡ records bodies ++ closed_gate ∷ [])) }
{
    let mut bytes = Vec::new(alloc);
    for record in given {
        put_given(alloc, &mut bytes, record, contents)?;
    }
    bytes.push(Journal::CLOSED_GATE)?;
    Ok(Items::from_vec(bytes))
}

/// Appends a record behind an open gate, if it is there.
fn put_given(
    alloc: Global,
    bytes: &mut Vec<u8>,
    given: &Given,
    contents: &Contents,
) -> Result<(), OutOfMemory>
    ensures { OnOk result ((bodies : List (List ℕ)) × IsGiven contents.now given.now bodies
        × (bytes.new.items ≡ bytes.old.items ++ records bodies)) }
{
    match given {
        Given::Bytes(body) => put_record(bytes, body.as_slice()),
        Given::Copy { system, number } => {
            let copied = log_held(alloc, *system, contents)?;
            put_numbered(bytes, copied.as_slice(), *number)
        }
        Given::Bare { system, number } => {
            let log = log_held(alloc, *system, contents)?;
            put_bare(bytes, log.as_slice(), *number)
        }
    }
}

/// The log that the volume of a system holds, where all hold this; none where that is damaged.
fn log_held(
    alloc: Global,
    system: SystemNo,
    contents: &Contents,
) -> Result<Items<Items<u8>>, OutOfMemory>
    ensures { IfOk result (λ log. (held : List (List ℕ)) → Stands (volume_in contents.now system) held → log ≡ held) }
{
    let held = contents[usize::from(system.get() - 1)].as_slice();
    log_of(alloc, held)
}

/// Appends the record of this number, from 1, behind an open gate, if there is one.
fn put_numbered(bytes: &mut Vec<u8>, log: &[Items<u8>], number: u64) -> Result<(), OutOfMemory>
    ensures { OnOk result (bytes.new.items ≡ bytes.old.items ++ records (take 1 (drop (number - 1) log.now))) }
{
    match log.get(number.saturating_sub(1) as usize) {
        Some(body) => put_record(bytes, body.as_slice()),
        None => Ok(()),
    }
}

/// Appends the record of this number, from 1, behind an open gate, without the bytes that tell its moment, if there is one.
fn put_bare(bytes: &mut Vec<u8>, log: &[Items<u8>], number: u64) -> Result<(), OutOfMemory>
    ensures { OnOk result (bytes.new.items ≡ bytes.old.items ++ records (map (drop 9) (take 1 (drop (number - 1) log.now)))) }
{
    match log.get(number.saturating_sub(1) as usize) {
        Some(body) => {
            let (_, behind) = body.as_slice().split_at(MOMENT.min(body.len()));
            put_record(bytes, behind)
        }
        None => Ok(()),
    }
}

/// Appends a record behind an open gate.
fn put_record(bytes: &mut Vec<u8>, body: &[u8]) -> Result<(), OutOfMemory>
    ensures { OnOk result (bytes.new.items ≡ bytes.old.items ++ records (body.now ∷ [])) }
{
    let length = u32::try_from(body.len()).map_err(|_| OutOfMemory)?;
    bytes.push(Journal::OPEN_GATE)?;
    bytes.extend_from_slice(&length.to_be_bytes())?;
    bytes.extend_from_slice(body)?;
    Ok(())
}

/// The log that bytes stand for; none where they are damaged.
fn log_of(alloc: Global, bytes: &[u8]) -> Result<Items<Items<u8>>, OutOfMemory>
    ensures { IfOk result (λ log. (held : List (List ℕ)) → Stands bytes.now held → log ≡ held) }
{
    let mut one = array::from_fn(|_| Items::new(alloc));
    one[0] = Items::from_slice(alloc, bytes)?;
    let mut vols = MemoryVolumes::with_contents(alloc, one)?;
    match open(alloc, &mut vols, 0) {
        Ok((_journal, log)) => Ok(log),
        Err(OpenFault::Damaged(_)) => Ok(Items::new(alloc)),
        Err(_) => Err(OutOfMemory),
    }
}
