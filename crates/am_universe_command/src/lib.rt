//! The command `amcover universe`, as functions over bytes and a [`Sink`](am_universe::Sink).
//!
//! [`universe`](universe()) makes a universe that stands for every alert, in a [`UniverseForm`],
//! and [`check_universe`] says what another universe lacks.
#![tactic(auto)]

// The inputs of the calls, and what they say.
mod asked_labels;
mod read_inputs;
mod universe_form;
mod universe_inputs;

pub use universe_form::UniverseForm;
pub use universe_inputs::UniverseInputs;

// The lines of a check, and the text of a universe file.
mod check_lines;
mod universe_file;

// The calls.
mod checking;
mod making;

pub use checking::check_universe;
pub use making::universe;

// Facts about the definitions alone.
pub mod laws;
