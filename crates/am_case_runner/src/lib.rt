//! Runs files of cases, whatever program they call.
//!
//! [`run_cases`] runs the files of the folder in which the program is started, or those that its
//! arguments name, and says which cases are wrong. A case is a command line of a [`Program`], or a
//! line of a table, which completes a command line. Nothing here knows what the program does, so
//! this crate is proved beside those that cases call.
#![tactic(auto)]

// The text of a file of cases, and its cases.
mod command;
mod command_run;
mod inserts;
mod lines;
mod script;
mod shell_words;
mod table;

// What cases run, with the files and writers that it gets, and what is wrong with them.
mod problem;
mod program;
mod stage;
mod writer;

pub use problem::Problem;
pub use program::Program;

// The files.
mod run;

pub use run::run_cases;
