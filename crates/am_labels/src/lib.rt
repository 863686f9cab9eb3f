//! Matchers: their patterns, their texts, and which label sets they match.
//!
//! A [`Matcher`] tests the value of a label, and [`Matchers`] are a list of them, as Alertmanager
//! has them. [`PreparedMatchers`] test one label set after another. [`parse_matchers`] reads a list
//! from its text, and [`parse_set`] a label set. [`brace_len`] says where the text of a list ends
//! in a question. A [`Row`] is a matcher's truth on each value of its label in a [`Universe`]. A
//! [`Space`] is a universe without its impossible label sets.
//!
//! Universes, label sets, refusals and sinks come from the crate `am_universe`. This crate exports
//! those of its names that callers need.
#![tactic(auto)]

// The limits of lists of matchers and of spaces.
pub mod limits;

// The layer below: universes, label sets, sinks and refusals.
pub use am_universe::{
    Choice, Fault, Kind, LabelFault, LabelPart, LabelSet, Out, Place, Sink, Universe, put_all,
    set_of, write_map, write_set, write_text,
};

// Operators, and the patterns that two of them take: which are accepted, and what they match.
mod known_answers;
mod op;
mod pattern;
mod pattern_profile;

pub use op::{Comparison, Op};
pub use pattern::compile_pattern;

// Patterns whose meaning needs no grammar.
mod wildcard_match;
mod wildcards;

pub use wildcards::{WildcardPiece, is_alternation, is_wildcards, wildcard_alternatives};

// A matcher, a list of them, and the test of one label set after another.
mod matcher;
mod matchers;
mod prepared_matchers;

pub use matcher::{Matcher, PreparedMatcher};
pub use matchers::Matchers;
pub use prepared_matchers::PreparedMatchers;

// A universe without its impossible label sets.
mod space;

pub use space::Space;

// The texts of label sets and of matchers.
mod label_set_text;
mod matcher_text;
mod quotes;

pub use label_set_text::{parse_set, parse_set_words};
pub use matcher_text::{parse_matchers, parse_more_matchers};

// Where a text of matchers ends in a question.
mod brace_list;

pub use brace_list::brace_len;

// A matcher's truth on each value of its label.
mod row;

pub use row::Row;

// Facts about the definitions alone.
pub mod laws;
