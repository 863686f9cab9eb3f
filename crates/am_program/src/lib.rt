//! The program `amcover`, as a function over a command line and two writers.
//!
//! [`run`] reads a command line and the files that it names, makes the call of the command and
//! returns the exit status. [`run_with_notes`] does the same and, if asked to, as on a terminal,
//! also writes notes. [`run_process`] runs the program with the command line, the files and the
//! streams of its process. `main` only makes this call.
#![tactic(auto)]

// A request: what is refused before its call, and the call.
mod calling;
mod groups;

// A run of the program.
mod clock;
mod program;
mod read_files;

pub use program::{run, run_process, run_with_notes};
