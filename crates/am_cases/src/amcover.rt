//! The program whose command lines are cases.

use am_case_parts::{call, digits_of_command};
use am_case_runner::{Problem, Program};
use am_program::run_with_notes;
use std::io::Write;
use std::rt::{Clock, Files};

/// The program `amcover`.
pub struct Amcover;

impl Program for Amcover {
    fn run<R: Files + Input + Clock + AllocGlobal, W: Write + Drop, E: Write + Drop>(
        &self,
        files: &R,
        words: &[String],
        out: &mut W,
        err: &mut E,
        notes: bool,
    ) -> u8 {
        run_with_notes(files, words, out, err, notes)
    }

    fn digits<R: Files + AllocGlobal>(
        &self,
        files: &R,
        words: &[String],
    ) -> Result<String, Problem> {
        digits_of_command(files, words)
    }

    fn call<R: Files + AllocGlobal>(
        &self,
        files: &R,
        words: &[String],
    ) -> Result<Option<Vec<u8>>, Problem> {
        call(files, words)
    }
}
