//! Runs the cases of each file of a folder, and prints a line for each file and the cases that went wrong.
#![tactic(auto)]

mod calls;
mod report;
mod running;
mod script;
mod setting;
mod verdict;

use report::Report;
use script::run_file;
use std::process::ExitCode;
use std::rt::{Env, Files};
use std::{env, fs, io};

/// The file whose cases must all go wrong: it shows that the program compares.
const BROKEN: &str = "broken.cases";

fn main(rt: HostRuntime) -> ExitCode {
    match run_folder(&rt) {
        Ok(true) => ExitCode::SUCCESS,
        Ok(false) => ExitCode::FAILURE,
        Err(e) => {
            let _ = eprintln!(rt; "{e}");
            ExitCode::from(2)
        }
    }
}

/// Runs the files of the folder that the last word names, or of `.` without a word; whether all went as wanted.
fn run_folder<R: Files + Env + Print + AllocGlobal + Clone + Drop>(rt: &R) -> io::Result<bool> {
    let mut folder = String::from_str(rt.alloc(), ".")?;
    for word in env::args(rt)?.skip(1) {
        folder = word;
    }
    let mut is_well = true;
    for name in file_names(rt, folder.as_str())? {
        let path = format!(in rt.alloc(); "{folder}/{name}")?;
        let text = fs::read_to_string(rt, path.as_str())?;
        let report = run_file(rt.alloc(), name.as_str(), text.as_str())?;
        print_report(rt, &report)?;
        is_well = is_well && went_well(&report);
    }
    Ok(is_well)
}

/// The names of the files of cases in the folder, in order.
fn file_names<R: Files + AllocGlobal + Clone + Drop>(
    rt: &R,
    folder: &str,
) -> io::Result<Vec<String>> {
    let mut names = Vec::new(rt.alloc());
    for entry in fs::read_dir(rt, folder)? {
        let name = String::from_str(rt.alloc(), entry?.file_name())?;
        if name.as_str().ends_with(".cases") {
            names.push(name)?;
        }
    }
    names.sort()?;
    Ok(names)
}

/// Prints the counts of a file, and below them its wrong cases.
fn print_report<R: Print + AllocGlobal>(rt: &R, report: &Report) -> io::Result<()> {
    let name = report.file.as_str();
    let cases = report.cases;
    let wrong = report.wrong;
    println!(rt; "{name}: {cases} cases, {wrong} wrong")?;
    rt.print(report.text.as_str())?;
    Ok(())
}

/// Whether no case of the file went wrong, or all where all must.
fn went_well(report: &Report) -> bool {
    if report.file.as_str() == BROKEN {
        report.wrong == report.cases
    } else {
        report.wrong == 0
    }
}
