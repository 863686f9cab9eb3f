//! How a pattern treats a text that is read byte by byte from its end.
//!
//! A [`PatternAutomaton`] is a pattern as a table. It gives each text a number. When only the end
//! of a text has been read, that number is all that matters about it: whether the pattern finds the
//! whole text, with any bytes before the end, depends on nothing else. So texts with one number
//! need not be told apart, and whoever follows all numbers has followed all texts.
#![tactic(auto)]

// The limits of patterns.
pub mod limits;

// Which bytes texts may have.
mod byte_set;

pub use byte_set::ByteSet;

// Which characters patterns can tell apart.
mod character_sets;

pub use character_sets::CharacterSets;

// What the assertions of a pattern see of bytes, and how the whole pattern treats them.
mod arrivals;
mod column;
mod columns;
mod sight;

// What is known when the end of a text has been read.
mod pattern_state;
mod steps;

// A compiled pattern without the states that do not matter.
mod renaming;
mod trim_check;
mod trimming;

// How a pattern is followed from the end of a text.
mod pattern_scan;

// How a pattern with wildcards alone is followed, without an engine.
mod wildcard_alphabet;
mod wildcard_exploration;
mod wildcard_marks;
mod wildcard_place;

// The automaton, and the rows of its table.
mod exploration;
mod lost;
mod pattern_automaton;
mod row;

pub use pattern_automaton::PatternAutomaton;
