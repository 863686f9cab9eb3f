//! Where two configurations differ beside the ways that alerts take: in the options of routes, and
//! in the parts of the files that are no routes.
//!
//! JSON values are compared by what they mean: numbers by their values, and objects whatever the
//! order of their keys in the file.
#![tactic(auto)]

// JSON values that are the same.
mod values;

pub use values::same_value;

// The options of routes.
mod options;

pub use options::{OPTIONS, differing_options, option_name};

// The parts of a file that are no routes, which of them differ, and the lines of these.
mod differences;
mod lines;
mod parts;
mod rules;

pub use lines::part_lines;
