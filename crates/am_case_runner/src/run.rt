//! The files of cases that are run, and their outcome.

use crate::problem::{Problem, Tally};
use crate::program::Program;
use crate::script::run_file;
use std::process::ExitCode;
use std::rt::{Files, Runtime};
use std::{env, fs};

/// Runs the files that the arguments name, or the case of one line, such as `ask.cases:12`, or else
/// all files of the folder. The exit status is 0 if every case is right; 1 if one is wrong, or if a
/// file cannot be read; and else 3, if memory ran out.
pub fn run_cases<R: Runtime + AllocGlobal, P: Program>(rt: &R, program: &P) -> ExitCode {
    match run_all(rt, program) {
        Ok(all) if all.wrong > 0 => ExitCode::from(1),
        Ok(all) if all.starved > 0 => ExitCode::from(3),
        Ok(_) => ExitCode::from(0),
        Err(Problem::Memory) => ExitCode::from(3),
        Err(Problem::Said(words)) => {
            let _ = eprintln!(rt; "am_cases: {words}");
            ExitCode::from(1)
        }
    }
}

fn run_all<R: Runtime + AllocGlobal, P: Program>(rt: &R, program: &P) -> Result<Tally, Problem> {
    let mut all = Tally::new(rt.alloc(), "all", None)?;
    for name in &names(rt)? {
        all.add(&run_named(rt, program, name.as_str())?);
    }
    all.end(false)?;
    say(rt, all.report.as_str())?;
    Ok(all)
}

/// The names that the arguments give or, if there are no arguments, those of the folder.
fn names<R: Runtime + AllocGlobal>(rt: &R) -> Result<Vec<String>, Problem> {
    let (alloc, unread) = (rt.alloc(), "the arguments or the folder cannot be read");
    let arguments = env::args(rt).map_err(|error| Problem::of(alloc, &error, unread))?;
    let mut names = Vec::new(alloc);
    for argument in arguments.skip(1) {
        names.push(argument)?;
    }
    if !names.is_empty() {
        return Ok(names);
    }
    for entry in fs::read_dir(rt, ".").map_err(|error| Problem::of(alloc, &error, unread))? {
        let entry = entry.map_err(|error| Problem::of(alloc, &error, unread))?;
        let name = entry.file_name();
        if name.ends_with(".cases") || name.ends_with(".mistakes") {
            names.push(String::from_str(alloc, name)?)?;
        }
    }
    names.sort()?;
    Ok(names)
}

/// Runs a file, or the case of one of its lines, and prints the outcome.
fn run_named<R: Files + Print + AllocGlobal, P: Program>(
    rt: &R,
    program: &P,
    asked: &str,
) -> Result<Tally, Problem> {
    let (name, only) = match asked.rsplit_once(':') {
        Some((name, line)) => (name, line.parse::<usize>().ok()),
        None => (asked, None),
    };
    let mut tally = Tally::new(rt.alloc(), name, only)?;
    let file = fs::read(rt, name);
    let file = file.map_err(|error| Problem::of(rt.alloc(), &error, "a file cannot be read"))?;
    if let Err(problem) = run_file(rt, program, file.as_slice(), &mut tally) {
        tally.count(only.unwrap_or(0), Err(problem))?;
    }
    tally.end(name.ends_with(".mistakes"))?;
    say(rt, tally.report.as_str())?;
    Ok(tally)
}

fn say<R: Print + AllocGlobal>(rt: &R, text: &str) -> Result<(), Problem> {
    let alloc = rt.alloc();
    println!(rt; "{text}").map_err(|_| Problem::said(alloc, "standard output failed"))
}
