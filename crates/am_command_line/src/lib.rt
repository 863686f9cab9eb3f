//! The command line of `amcover`: its commands and options, their help texts, and what a line asks
//! for.
//!
//! [`parse_command_line`] reads the words of a command line as a [`CommandLine`]. The crate needs
//! only `clap`, so it is proved at the same time as the crates that answer a request, not after
//! them.
#![tactic(auto)]

mod command_line;
mod commands;
mod options;
mod reports;
mod requests;
mod standard_input;
mod steps;
mod table;

pub use command_line::{Call, CommandLine, NOW, NotesOption, parse_command_line};
pub use standard_input::STANDARD_INPUT;
pub use steps::{MIN_STEPS, Steps};
pub use table::Request;
