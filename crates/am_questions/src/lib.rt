//! Reading questions, and all inputs of a call that asks one.
//!
//! [`parse_question`] reads a [`Question`](am_eval::Question) about a configuration.
//! [`read_inputs`] reads all inputs of such a call: the universe, the world, the question, and
//! where the answers begin.
#![tactic(auto)]

// Limits.
pub mod limits;

// The text of a question: its lexemes, the tree that they make, and what its parts mean.
mod grammar;
mod lexemes;
mod names;

pub use names::parse_question;

// The inputs of a call that asks a question.
mod fingerprints;
mod inputs;

pub use fingerprints::fingerprint;
pub use inputs::{AcceptedInputs, read_inputs};

// Facts about the definitions alone.
pub mod laws;
