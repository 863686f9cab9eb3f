//! The program whose command lines are cases.

use crate::problem::Problem;
use std::io::Write;
use std::rt::{Clock, Files};

/// A program whose command lines are cases.
pub trait Program {
    /// Runs the program, with its name as the first word, and returns its exit status. If `notes`
    /// is set, it runs as on a terminal.
    fn run<R: Files + Input + Clock + AllocGlobal, W: Write + Drop, E: Write + Drop>(
        &self,
        files: &R,
        words: &[String],
        out: &mut W,
        err: &mut E,
        notes: bool,
    ) -> u8;

    /// Returns the digits for which `H` stands in a token of a command line.
    fn digits<R: Files + AllocGlobal>(
        &self,
        files: &R,
        words: &[String],
    ) -> Result<String, Problem>;

    /// Calls the part of the program that the first word names, with the other words, and returns
    /// what it gives. Returns `None` if no part has this name.
    fn call<R: Files + AllocGlobal>(
        &self,
        files: &R,
        words: &[String],
    ) -> Result<Option<Vec<u8>>, Problem>;
}
