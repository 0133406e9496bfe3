//! What is compared of a run.

ghost use Rattle.std.specs.Prelude.{◌≡◌, ◌++◌, ℕ, List, map, OnOk, IfOk};
ghost use Rattle.worked_cases.specs.Judged.{compared, status_compared, output_compared, gate_compared, law_compared, ended_compared, shown_status};

use crate::case::{Output, Run};
use crate::law::{Question, told_of_logs};
use crate::starts::contents_of;
use ale_base::{Items, OutOfMemory};
use ale_volumes::MemoryVolumes;
use case_form::{Comparison, Relation};
use case_gates::Meeting;
use std::alloc::Global;

/// Adds what is compared of a run that gave this status, printed this text, met so at its gate and left these volumes.
pub(crate) fn put_compared(
    alloc: Global,
    comparisons: &mut Items<Comparison>,
    run: &Run,
    status: u8,
    printed: &[u8],
    meeting: &Meeting,
    vols: &MemoryVolumes,
) -> Result<(), OutOfMemory>
    ensures { OnOk result ((met judged ended : List ℕ)
        × (comparisons.new ≡ comparisons.old ++ compared run.now status printed.now met judged ended)) }
{
    comparisons.push(status_compared(alloc, run.status, status)?)?;
    put_outputs(alloc, comparisons, run.outputs.as_slice(), printed)?;
    put_gate(alloc, comparisons, run.gate, meeting)?;
    put_law(alloc, comparisons, &run.law, vols)?;
    put_ended(alloc, comparisons, run.ended, vols)
}

/// The comparison of a status.
fn status_compared(alloc: Global, wanted: u8, status: u8) -> Result<Comparison, OutOfMemory>
    ensures { IfOk result (λ compared. compared ≡ status_compared wanted status) }
{
    Ok(Comparison {
        what: Items::from_slice(alloc, b"status")?,
        relation: Relation::Whole,
        expected: shown_status(alloc, wanted)?,
        found: shown_status(alloc, status)?,
    })
}

/// A status as it is compared.
fn shown_status(alloc: Global, status: u8) -> Result<Items<u8>, OutOfMemory>
    ensures { IfOk result (λ shown. shown ≡ shown_status status) }
{
    let shown = format!(in alloc; "{status}\n")?;
    Ok(Items::from_slice(alloc, shown.as_bytes())?)
}

/// Adds the comparisons of a text that was printed.
fn put_outputs(
    alloc: Global,
    comparisons: &mut Items<Comparison>,
    outputs: &[Output],
    printed: &[u8],
) -> Result<(), OutOfMemory>
    ensures { OnOk result (comparisons.new ≡ comparisons.old ++ map (output_compared printed.now) outputs.now) }
{
    for output in outputs {
        comparisons.push(Comparison {
            what: Items::from_slice(alloc, b"text")?,
            relation: output.relation,
            expected: Items::from_slice(alloc, output.text.as_slice())?,
            found: Items::from_slice(alloc, printed)?,
        })?;
    }
    Ok(())
}

/// Adds the comparison of how a meeting came out, where the run's gate has one.
fn put_gate(
    alloc: Global,
    comparisons: &mut Items<Comparison>,
    gate: Option<u8>,
    meeting: &Meeting,
) -> Result<(), OutOfMemory>
    ensures { OnOk result ((met : List ℕ) × (comparisons.new ≡ comparisons.old ++ gate_compared gate met)) }
{
    if gate.is_none() {
        return Ok(());
    }
    let told = meeting.told();
    let told = format!(in alloc; "{told}\n")?;
    comparisons.push(Comparison {
        what: Items::from_slice(alloc, b"gate")?,
        relation: Relation::Whole,
        expected: Items::from_slice(alloc, b"all met\n")?,
        found: Items::from_slice(alloc, told.as_bytes())?,
    })?;
    Ok(())
}

/// Adds the comparison of how the logs that volumes hold are judged, where a run says that.
fn put_law(
    alloc: Global,
    comparisons: &mut Items<Comparison>,
    law: &Option<Items<u8>>,
    vols: &MemoryVolumes,
) -> Result<(), OutOfMemory>
    ensures { OnOk result ((told : List ℕ) × (comparisons.new ≡ comparisons.old ++ law_compared law.now told)) }
{
    let Some(expected) = law else {
        return Ok(());
    };
    let told = told_of_logs(alloc, copied(alloc, vols)?, Question::Law)?;
    comparisons.push(Comparison {
        what: Items::from_slice(alloc, b"law")?,
        relation: Relation::Whole,
        expected: Items::from_slice(alloc, expected.as_slice())?,
        found: Items::from_vec(told),
    })?;
    Ok(())
}

/// Adds the comparison of which units that the logs of volumes committed are ended, where a run says that all are.
fn put_ended(
    alloc: Global,
    comparisons: &mut Items<Comparison>,
    ended: bool,
    vols: &MemoryVolumes,
) -> Result<(), OutOfMemory>
    ensures { OnOk result ((told : List ℕ) × (comparisons.new ≡ comparisons.old ++ ended_compared ended told)) }
{
    if !ended {
        return Ok(());
    }
    let told = told_of_logs(alloc, copied(alloc, vols)?, Question::Ended)?;
    comparisons.push(Comparison {
        what: Items::from_slice(alloc, b"ended")?,
        relation: Relation::Whole,
        expected: Items::from_slice(alloc, b"all ended\n")?,
        found: Items::from_vec(told),
    })?;
    Ok(())
}

/// Volumes that hold for good what these do.
fn copied(alloc: Global, vols: &MemoryVolumes) -> Result<MemoryVolumes, OutOfMemory> {
    MemoryVolumes::with_contents(alloc, contents_of(alloc, vols)?)
}
