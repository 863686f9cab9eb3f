//! The parts of `amcover` that tables of cases call, and what each gives as a text.
//!
//! [`call`] has the list of the parts. They show what no command shows, as how a text is read, or
//! how a search goes.
#![tactic(auto)]

// What a case names, and what it gives, as a text.
mod asked;
mod texts;

pub use asked::digits_of_command;

// The parts.
mod classes;
mod labels;
mod matchers;
mod readers;
mod search;
mod whole;

// Their list.
mod part;

pub use part::call;
