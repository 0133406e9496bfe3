//! The program around a suite: the case files of a folder, read, run and reported.

ghost use Rattle.std.specs.Prelude.{◌≡◌, IsTrue, IsFalse};

use crate::judging::{CaseFile, Suite};
use crate::report::run_cases;
use crate::texts::Texts;
use ale_base::OutOfMemory;
use std::process::ExitCode;
use std::rt::{Env, Files};
use std::{env, fs, io};

/// Runs all files of the folder that the first word names through a suite, sorted by name, and prints the report. Files
/// `NAME.text` are no cases: they are texts that cases may use.
///
/// The status is 0 where all cases passed, and else 1, also where no folder is named.
pub fn run_folder<R: Files + Env + Print + Eprint + AllocGlobal + Clone + Drop, S: Suite>(
    rt: &R,
    suite: &S,
) -> io::Result<ExitCode> {
    let Some(folder) = env::args(rt)?.nth(1) else {
        eprintln!(rt; "the first word names the folder of the cases")?;
        return Ok(ExitCode::FAILURE);
    };
    let (texts, files) = read_files(rt, folder.as_str())?;
    match run_cases(rt.alloc(), suite, &texts, files.as_slice()) {
        Ok(report) => {
            print!(rt; "{}", report.text)?;
            Ok(exit_code(report.all_passed))
        }
        Err(OutOfMemory) => Err(io::ErrorKind::OutOfMemory.into()),
    }
}

/// The exit status of a run of all cases.
fn exit_code(all_passed: bool) -> ExitCode
    ensures success { IsTrue all_passed → result ≡ ExitCode.SUCCESS }
    ensures failure { IsFalse all_passed → result ≡ ExitCode.FAILURE }
{
    if all_passed {
        ExitCode::SUCCESS
    } else {
        ExitCode::FAILURE
    }
}

/// The texts of a folder, and its other files, sorted by name.
fn read_files<R: Files + AllocGlobal + Clone + Drop>(
    rt: &R,
    folder: &str,
) -> io::Result<(Texts, Vec<CaseFile>)> {
    let mut texts = Vec::new(rt.alloc());
    let mut files = Vec::new(rt.alloc());
    for name in names(rt, folder)? {
        let is_text = name.as_str().ends_with(".text");
        let file = read_file(rt, folder, name, if is_text { ".text" } else { ".case" })?;
        if is_text {
            texts.push(file)?;
        } else {
            files.push(file)?;
        }
    }
    Ok((Texts { files: texts }, files))
}

/// A file of a folder, whose name as a case or a text has no ending.
fn read_file<R: Files + AllocGlobal>(
    rt: &R,
    folder: &str,
    file: String,
    ending: &str,
) -> io::Result<CaseFile> {
    let path = format!(in rt.alloc(); "{folder}/{file}")?;
    let bytes = fs::read(rt, path.as_str())?;
    let name = file.as_str().strip_suffix(ending).unwrap_or(file.as_str());
    Ok(CaseFile {
        name: String::from_str(rt.alloc(), name)?,
        file,
        bytes,
    })
}

/// The names of the files of a folder, sorted.
fn names<R: Files + AllocGlobal + Clone + Drop>(rt: &R, folder: &str) -> io::Result<Vec<String>> {
    let mut names = Vec::new(rt.alloc());
    for entry in fs::read_dir(rt, folder)? {
        let entry = entry?;
        names.push(String::from_str(rt.alloc(), entry.file_name())?)?;
    }
    names.sort()?;
    Ok(names)
}
