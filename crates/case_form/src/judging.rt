//! Suites, and the judgement of a case file.

ghost use Rattle.std.specs.Prelude.{IfOk};
ghost use Rattle.std.specs.List.{AllZip};
ghost use Rattle.case_form.specs.Report.{IsJudgementOf};

use crate::details::details_of;
use crate::texts::Texts;
use crate::verdict::Outcome;
use ale_base::OutOfMemory;
use std::alloc::Global;

/// A case file.
#[derive(Drop)]
pub struct CaseFile {
    /// The name of the case, as it is printed.
    pub name: String,
    /// The name of the file.
    pub file: String,
    /// What the file holds.
    pub bytes: Vec<u8>,
}

/// A case, and what came of it.
#[derive(Drop)]
pub struct JudgedCase {
    /// The name of the case, as it is printed.
    pub name: String,
    /// What is printed of the steps that differ, marked or not.
    pub details: String,
    pub outcome: Outcome,
}

/// What an acceptance program tries: how a case file comes out.
pub trait Suite {
    ghost use Rattle.std.specs.Prelude.{ℕ, List, IfOk};
    ghost use Rattle.case_form.specs.declared.texts.Texts.{Texts};
    ghost use Rattle.case_form.specs.declared.verdict.Outcome.{Outcome};

    // Beside these texts a case file of this name, with these bytes, may come out so.
    ghost comes_out: { Self → Texts → List ℕ → List ℕ → Outcome → Type 0 } = { λ _ _ _ _ _. Unit {0} };

    /// Reads a case file, makes its steps, and says what came of it. Its case may use the texts of its folder.
    fn outcome(
        &self,
        alloc: Global,
        texts: &Texts,
        file: &str,
        bytes: &[u8],
    ) -> Result<Outcome, OutOfMemory>
        ensures { IfOk result (comes_out self.now texts.now file.now bytes.now) };
}

/// What came of each of some case files, in order.
pub(crate) fn judge_all<S: Suite>(
    alloc: Global,
    suite: &S,
    texts: &Texts,
    files: &[CaseFile],
) -> Result<Vec<JudgedCase>, OutOfMemory>
    ensures { IfOk result (λ judged. AllZip (IsJudgementOf (S.comes_out suite.now texts.now)) files.now judged.items) }
{
    let mut judged = Vec::new(alloc);
    for file in files {
        judged.push(judge(alloc, suite, texts, file)?)?;
    }
    Ok(judged)
}

/// What came of a case file.
fn judge<S: Suite>(
    alloc: Global,
    suite: &S,
    texts: &Texts,
    file: &CaseFile,
) -> Result<JudgedCase, OutOfMemory>
    ensures { IfOk result (IsJudgementOf (S.comes_out suite.now texts.now) file.now) }
{
    let outcome = suite.outcome(alloc, texts, file.file.as_str(), file.bytes.as_slice())?;
    let details = details_of(alloc, file.name.as_str(), &outcome)?;
    Ok(JudgedCase {
        name: String::from_str(alloc, file.name.as_str())?,
        details,
        outcome,
    })
}
