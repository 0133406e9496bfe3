//! The suite of whole runs.

ghost use Rattle.std.specs.Prelude.{IfOk};
ghost use Rattle.case_form.specs.declared.verdict.Outcome.TheVariants as outcome_is;
ghost use Rattle.worked_cases.specs.Judged.{AreRuns};

use crate::case::Case;
use crate::performing::steps_of_case;
use crate::reader::read_case;
use ale_base::{Items, OutOfMemory};
use case_form::{CaseFault, Outcome, Step, Suite, Texts};
use std::alloc::Global;
use std::sync::Wait;
use std::thread::Threads;

/// The steps of a case, which are runs of the program.
#[derive(Drop)]
pub(crate) struct Carried {
    pub(crate) steps: Items<Step>,
    ghost runs: { ∥ AreRuns (outcome_is.Steps steps) ∥₁ },
}

/// Carries out a case, by runs of the program with workers that the handle starts.
pub(crate) fn carry_out<R: Threads + Wait + Sync>(
    rt: &R,
    alloc: Global,
    case: Case,
) -> Result<Carried, OutOfMemory> {
    match steps_of_case(rt, alloc, case) {
        Ok(steps) => Ok(Carried { steps }),
        Err(_) => Err(OutOfMemory),
    }
}

/// Carries out a case.
pub(crate) type CarryOut = Box<dyn Fn(Case) -> Result<Carried, OutOfMemory>>;

/// Whole runs of the program. Cases are carried out by a closure that is given, since threads are had from the program's handle alone.
#[derive(Drop)]
pub(crate) struct WorkedCases {
    pub(crate) carry_out: CarryOut,
    ghost callable: { CarryOut.IsAlwaysCallable carry_out },
}

impl Suite for WorkedCases {
    ghost use Rattle.worked_cases.specs.Judged.{AreRuns};

    ghost comes_out = { λ _ _ _ _ outcome. ∥ AreRuns outcome ∥₁ };

    fn outcome(
        &self,
        alloc: Global,
        texts: &Texts,
        file: &str,
        bytes: &[u8],
    ) -> Result<Outcome, OutOfMemory> {
        match read_case(alloc, texts, file, bytes) {
            Ok(case) => self.runs(case),
            Err(fault) => refused(fault),
        }
    }
}

impl WorkedCases {
    /// What comes of a case that was read.
    fn runs(&self, case: Case) -> Result<Outcome, OutOfMemory>
        ensures { IfOk result (λ outcome. ∥ AreRuns outcome ∥₁) }
    {
        let Carried { steps } = (self.carry_out)(case)?;
        Ok(Outcome::Steps(steps))
    }
}

/// What comes of a case that is not read.
fn refused(fault: CaseFault) -> Result<Outcome, OutOfMemory>
    ensures { IfOk result (λ outcome. ∥ AreRuns outcome ∥₁) }
{
    match fault {
        CaseFault::Malformed { line, rule } => Ok(Outcome::Malformed { line, rule }),
        CaseFault::OutOfMemory => Err(OutOfMemory),
    }
}
