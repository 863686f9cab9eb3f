//! Texts that stand for all: one for each class of texts that a label's matchers cannot tell apart.
//!
//! [`classes`] gives them. A pattern such as `db|web` names texts, as `=` does. If a matcher takes
//! a pattern of another form, all texts are explored from their ends.
//! All that matters about an end is one of finitely many states, and each byte before it leads from
//! one state to another.
#![tactic(auto)]

// The limits of the exploration.
pub mod limits;

// Which texts there are.
mod alphabet;

pub use alphabet::Alphabet;

// What the matchers of a label ask about a text.
mod automata;
mod enough_bytes;
mod named_texts;
mod questions;

// What matters about a text of which only the end has been read.
mod fronts;
mod label_state;
mod live;
mod tail;

// The states that texts lead to.
mod exploration;
mod reached_state;

// Which texts have the same hits.
mod finder;
mod label_tests;
mod naming;
mod spare_automata;
mod tested;
mod text_ends;

pub use label_tests::LabelTests;
pub use spare_automata::SpareAutomata;
pub use tested::{Tested, new_texts};

// The texts that stand for the classes, one for each.
mod candidate;
mod candidates;
mod class_texts;
mod found;
mod parts;
mod samples;

pub use class_texts::{ClassTexts, classes};
