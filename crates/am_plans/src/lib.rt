//! Plans: the judge that a search asks about a question.
//!
//! A [`Plan`] is a judge of prefixes. It has a cube for each list of matchers that its question
//! asks about: those of the question itself and, if it asks about them, those of the routes, of the
//! active silences, and of the pairs of an inhibition rule and a firing alert. It also has a cube
//! for each impossible list of its space. Its verdict joins theirs in the logic of three values.
//! Judging takes no memory.
#![tactic(auto)]

// The lists of a world.
mod pair_lists;
mod route_groups;
mod route_lists;
mod world_lists;

// The lists of a question.
mod question_lists;

// The judge.
mod plan;

pub use plan::Plan;

// Facts about the definitions alone.
pub mod laws;
