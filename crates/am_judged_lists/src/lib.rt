//! What a list of matchers says of the completions of a prefix of a choice.
//!
//! A [`Cube`] is made from a list of matchers, for the labels of a universe. At a prefix of a
//! choice it returns a `Verdict`: whether the label sets of all, none or some of the prefix's
//! completions match the list. It looks at no completion, and takes no memory.
//!
//! A cube is made from rows, which [`rows_of`] returns. A [`Table`] finds the first of many cubes
//! that passes, and asks them together.
#![tactic(auto)]

// The rows of matchers.
mod rows;

// Which positions of one label are permitted.
mod mask;

// Which positions of each label are permitted.
mod cube;

// Which choices are left in a search, and how cubes match them.
mod position_box;

// Pairs of choices, as one choice over twice as many labels.
mod pairs;

// The impossible lists of a space.
mod impossible;

// Questions about a verdict.
mod certainty;

// Many lists at once.
mod block;
mod cube_set;
mod list_set;
mod table;

pub use certainty::Certainty;
pub use cube::Cube;
pub use cube_set::{CubeSet, MAX_CUBES};
pub use impossible::impossible_cubes;
pub use mask::Part;
pub use pairs::Side;
pub use position_box::{Matching, PositionBox};
pub use rows::rows_of;
pub use table::Table;

// Facts about the definitions alone.
pub mod laws;
