//! Which label names and which values no firing alert has, and no alerting rule fixes.
//!
//! [`push_unseen`] adds a line for each label name that a configuration or a silence mentions and
//! that no known label set has, and then one for each matcher that asks for a value that none has,
//! though some of them has the label. Known are the label sets of the alerts of a world, and those
//! that alerting rules fix. Most often such a name or value is misspelled. Each line has the most
//! similar name or value that is known.
#![tactic(auto)]

// How similar a name or a value has to be to be shown.
pub mod limits;

// Whose label sets are known, and the names and values in them.
mod known;
mod seen;

// The most similar one: how near many texts are to one text, character by character.
mod block;
mod nearness;
mod occurrences;
mod similar;

// The matchers of the silences that are not over.
mod silences_left;

// Unseen names: what is mentioned, and what of that is not known.
mod mentions;
mod unseen_name;

// Unseen matchers: what one asks for, and the search, in the order of the files.
mod beside;
mod known_values;
mod misspelled;
mod search;
mod unseen_matcher;

// The lines.
mod unseen_lines;

pub use unseen_lines::push_unseen;

// What follows from the definitions alone.
pub mod laws;
