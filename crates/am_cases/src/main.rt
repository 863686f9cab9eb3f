//! `am_cases` runs files of cases: those that its arguments name, or else those of the folder in
//! which it is started. It says which cases are wrong. `CASES.md` describes the format of such a
//! file.
#![tactic(auto)]

// What cases run.
mod amcover;

use crate::amcover::Amcover;
use am_case_runner::run_cases;
use std::process::ExitCode;

fn main(rt: HostRuntime) -> ExitCode {
    run_cases(&rt, &Amcover)
}
