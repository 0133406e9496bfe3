//! What is printed of steps that differ. No contract says it; the programs' stored output shows it.

use crate::verdict::{Comparison, Outcome, Relation, Step};
use ale_base::OutOfMemory;
use std::alloc::Global;
use std::str;

/// Where a case is malformed, the line and the rule; else what was expected and found at each step that does not fit.
pub(crate) fn details_of(
    alloc: Global,
    name: &str,
    outcome: &Outcome,
) -> Result<String, OutOfMemory> {
    let mut text = String::new(alloc);
    match outcome {
        Outcome::Malformed { line, rule } => {
            let rule = rule.0;
            let told = format!(in alloc; "malformed {name}, line {line}: {rule}\n")?;
            text.push_str(told.as_str())?;
        }
        Outcome::Steps(steps) => {
            for step in steps {
                put_step(alloc, &mut text, name, step)?;
            }
        }
    }
    Ok(text)
}

/// Appends what a step expected and found, where it does not fit.
fn put_step(alloc: Global, text: &mut String, name: &str, step: &Step) -> Result<(), OutOfMemory> {
    if step.fits() {
        if step.differs {
            let line = step.line;
            let told = format!(in alloc; "fits {name}, line {line}, though it is marked\n")?;
            text.push_str(told.as_str())?;
        }
        return Ok(());
    }
    let line = step.line;
    let mark = if step.differs {
        ", as it is marked"
    } else {
        ""
    };
    let told = format!(in alloc; "differs {name}, line {line}{mark}\n")?;
    text.push_str(told.as_str())?;
    for comparison in &step.comparisons {
        put_comparison(alloc, text, comparison)?;
    }
    Ok(())
}

/// Appends what was expected and found at a comparison, where it does not fit.
fn put_comparison(
    alloc: Global,
    text: &mut String,
    comparison: &Comparison,
) -> Result<(), OutOfMemory> {
    if comparison.fits() {
        return Ok(());
    }
    text.push_str("  ")?;
    put_plain(alloc, text, comparison.what.as_slice())?;
    text.push_str(match comparison.relation {
        Relation::Whole => ": expected this text\n",
        Relation::FrontOf => ": expected a front of this text\n",
        Relation::First => ": expected this at the front\n",
        Relation::Last => ": expected this at the end\n",
    })?;
    put_lines(alloc, text, comparison.expected.as_slice())?;
    text.push_str("  found this text\n")?;
    put_lines(alloc, text, comparison.found.as_slice())
}

/// Appends bytes as the text that they are, or as a list of bytes where they are none.
fn put_plain(alloc: Global, text: &mut String, bytes: &[u8]) -> Result<(), OutOfMemory> {
    match str::from_utf8(bytes) {
        Ok(plain) => text.push_str(plain)?,
        Err(_) => {
            let told = format!(in alloc; "{bytes:?}")?;
            text.push_str(told.as_str())?;
        }
    }
    Ok(())
}

/// Appends a text, each line indented and in quotes.
fn put_lines(alloc: Global, text: &mut String, bytes: &[u8]) -> Result<(), OutOfMemory> {
    for line in bytes.split_inclusive(|byte| *byte == b'\n') {
        let told = match str::from_utf8(line) {
            Ok(line) => format!(in alloc; "    {line:?}\n")?,
            Err(_) => format!(in alloc; "    {line:?}\n")?,
        };
        text.push_str(told.as_str())?;
    }
    Ok(())
}
