//! The last line of a run whose systems were not opened.

ghost use Rattle.std.specs.Prelude.{◌≡◌, ◌≢◌, ◌≤◌, ℕ, List, IfOk};
ghost use Rattle.dist_model.specs.Named.{system_name};
ghost use Rattle.report_text.specs.declared.faults.FaultLine.TheVariants as last;
ghost use Rattle.report_text.specs.FaultLine.{fault_line};
ghost use Rattle.runs.specs.Put.{IsPart, IsPut};
ghost use Rattle.landscape.specs.declared.open_end.OpenWhy.TheVariants as open_why;
ghost use Rattle.ale_host.specs.Refusals.{cause_of_bad, cause_of_breach, refusal_of};
ghost use Rattle.ale_host.specs.Running.{EndsUnopened};

use crate::ending::OUT_OF_MEMORY;
use crate::host::put;
use crate::running::{line_of, system_name};
use ale_base::{Items, OutOfMemory, SystemNo};
use ale_io::Sink;
use dist_model::Model;
use landscape::{OpenWhy, Refused};
use log_reading::Cause as BadBy;
use once_check::Clause;
use report_text::FaultLine;
use status_log::Cause;
use std::alloc::Global;

/// Puts why the systems were not opened, and gives the status.
pub(crate) fn put_unopened<K: Sink>(alloc: Global, model: &Model, why: OpenWhy, out: &mut K) -> u8
    ensures ended { result ≢ 6 → (line : List ℕ) × EndsUnopened model.now why result line
        × IsPut (K.contents out.old) (K.contents out.new) (K.faults out.old) (K.faults out.new) line }
    ensures write_fault { result ≡ 6 → (status : ℕ) × ((line : List ℕ) × EndsUnopened model.now why status line
        × IsPart (K.contents out.old) (K.contents out.new) (K.faults out.old) (K.faults out.new) line) }
    ensures counted { K.faults out.old ≤ K.faults out.new }
{
    match why {
        OpenWhy::Volume => put(out, 8, b"volumes fault\n"),
        OpenWhy::Refused(refused) => put_refused(alloc, model, refused, out),
        OpenWhy::OutOfMemory => put(out, 9, OUT_OF_MEMORY),
    }
}

/// Puts why journals are refused, and gives the status.
fn put_refused<K: Sink>(alloc: Global, model: &Model, refused: Refused, out: &mut K) -> u8
    ensures ended { result ≢ 6 → (line : List ℕ) × EndsUnopened model.now (open_why.Refused refused) result line
        × IsPut (K.contents out.old) (K.contents out.new) (K.faults out.old) (K.faults out.new) line }
    ensures write_fault { result ≡ 6 → (status : ℕ) × ((line : List ℕ) × EndsUnopened model.now (open_why.Refused refused) status line
        × IsPart (K.contents out.old) (K.contents out.new) (K.faults out.old) (K.faults out.new) line) }
    ensures counted { K.faults out.old ≤ K.faults out.new }
{
    match refused_text(alloc, model, refused) {
        Ok(text) => put(out, 7, text.as_slice()),
        Err(_) => put(out, 9, OUT_OF_MEMORY),
    }
}

/// The last line where journals are refused.
fn refused_text(alloc: Global, model: &Model, refused: Refused) -> Result<Vec<u8>, OutOfMemory>
    ensures { IfOk result (λ text. text.items ≡ fault_line (refusal_of model.now refused)) }
{
    match refused {
        Refused::Damaged { system, place } => {
            journals_text(alloc, model, system, place, Cause::Damaged)
        }
        Refused::Unread { system, number } => {
            journals_text(alloc, model, system, number, Cause::Unread)
        }
        Refused::Bad { system, bad } => {
            journals_text(alloc, model, system, bad.number, cause_of_bad(bad.cause))
        }
        Refused::Breach(breach) => {
            let cause = cause_of_breach(breach.clause);
            journals_text(alloc, model, breach.system, breach.number, cause)
        }
    }
}

/// The last line where the journal of this system is refused.
pub(crate) fn journals_text(
    alloc: Global,
    model: &Model,
    system: SystemNo,
    number: u64,
    cause: Cause,
) -> Result<Vec<u8>, OutOfMemory>
    ensures { IfOk result (λ text. text.items ≡ fault_line (last.Journals (system_name model.now system) number cause)) }
{
    let system = Items::from_slice(alloc, system_name(model, system))?;
    line_of(
        alloc,
        FaultLine::Journals {
            system,
            number,
            cause,
        },
    )
}

/// Why a record is bad, as it is told.
fn cause_of_bad(bad: BadBy) -> Cause
    ensures { result ≡ cause_of_bad bad }
{
    match bad {
        BadBy::System { kept, expected } => Cause::System(kept, expected),
        BadBy::Model { place } => Cause::Model(place),
        BadBy::Illegal => Cause::Illegal,
    }
}

/// The clause of the exactly-once law that a record breaks, by its letter.
fn cause_of_breach(clause: Clause) -> Cause
    ensures { result ≡ cause_of_breach clause }
{
    match clause {
        Clause::WasCommitted => Cause::OnceB,
        Clause::InOrder => Cause::OnceC,
        Clause::WasTaken => Cause::OnceE,
        Clause::WasDone => Cause::OnceF,
        Clause::WasForgotten => Cause::OnceG,
    }
}
