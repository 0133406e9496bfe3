//! The report on all cases: a verdict each, and a last line that counts them.

ghost use Rattle.std.specs.Prelude.{◌≡◌, ◌++◌, OnOk, IfOk, string_bytes, count_by};
ghost use Rattle.case_form.specs.Report.{IsReportOn, case_text, cases_text, is_passed, last_line, shown_steps};

use crate::judging::{CaseFile, JudgedCase, Suite, judge_all};
use crate::texts::Texts;
use ale_base::OutOfMemory;
use std::alloc::Global;

/// What is printed of some cases, and whether all passed.
#[derive(Drop)]
pub struct Report {
    pub text: String,
    pub all_passed: bool,
}

/// Runs the cases of a suite, in order, beside the texts that they may use.
pub fn run_cases<S: Suite>(
    alloc: Global,
    suite: &S,
    texts: &Texts,
    files: &[CaseFile],
) -> Result<Report, OutOfMemory>
    ensures { IfOk result (IsReportOn (S.comes_out suite.now texts.now) files.now) }
{
    let judged = judge_all(alloc, suite, texts, files)?;
    let mut text = String::new(alloc);
    put_cases(alloc, &mut text, judged.as_slice())?;
    let passed = count_of_passed(judged.as_slice());
    put_last_line(alloc, &mut text, passed, judged.len() - passed)?;
    Ok(Report {
        text,
        all_passed: passed == judged.len(),
    })
}

/// How many cases passed.
fn count_of_passed(judged: &[JudgedCase]) -> usize
    ensures { result ≡ count_by is_passed judged.now }
{
    judged
        .iter()
        .filter(|judged| judged.outcome.passes())
        .count()
}

/// Appends the details and the verdict of each case.
fn put_cases(alloc: Global, text: &mut String, judged: &[JudgedCase]) -> Result<(), OutOfMemory>
    ensures { OnOk result (string_bytes text.new ≡ string_bytes text.old ++ cases_text judged.now) }
{
    for case in judged {
        put_case(alloc, text, case)?;
    }
    Ok(())
}

/// Appends the details and the verdict of a case.
fn put_case(alloc: Global, text: &mut String, judged: &JudgedCase) -> Result<(), OutOfMemory>
    ensures { OnOk result (string_bytes text.new ≡ string_bytes text.old ++ case_text judged.now) }
{
    text.push_str(judged.details.as_str())?;
    text.push_str(if judged.outcome.passes() {
        "ok "
    } else {
        "failed "
    })?;
    text.push_str(judged.name.as_str())?;
    put_steps(alloc, text, judged.outcome.steps())
}

/// Appends how many steps a case has, at the end of its line.
fn put_steps(alloc: Global, text: &mut String, steps: usize) -> Result<(), OutOfMemory>
    ensures { OnOk result (string_bytes text.new ≡ string_bytes text.old ++ shown_steps steps) }
{
    let shown = format!(in alloc; " ({steps})\n")?;
    text.push_str(shown.as_str())?;
    Ok(())
}

/// Appends the line that counts the cases.
fn put_last_line(
    alloc: Global,
    text: &mut String,
    passed: usize,
    failed: usize,
) -> Result<(), OutOfMemory>
    ensures { OnOk result (string_bytes text.new ≡ string_bytes text.old ++ last_line passed failed) }
{
    let line = format!(in alloc; "{passed} cases passed, {failed} failed\n")?;
    text.push_str(line.as_str())?;
    Ok(())
}
