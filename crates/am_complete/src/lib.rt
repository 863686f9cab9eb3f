//! Which universes stand for every alert, and how one is made from the matchers that decide.
//!
//! A [`Gathering`] collects the labels that some matchers ask about. [`universe_beside`] makes a
//! universe that is complete for these and keeps the labels of a space. [`label_states`] says what
//! a space lacks.
#![tactic(auto)]

// Labels with the matchers that ask about them, and where in the files they are first asked about.
mod asked_label;
mod gathering;
mod origin;

pub use asked_label::AskedLabel;
pub use gathering::Gathering;
pub use origin::Origin;

// The texts that a label has, may have and lacks, and which of them stand for others.
mod found_texts;
mod label_texts;
mod missing_texts;
mod possible_texts;
mod representatives;
mod usual_texts;

// A universe made from what the matchers ask, and the names that its labels may have.
mod allowed_names;
mod made_universe;

pub use allowed_names::{AllowedNames, is_label_name};
pub use made_universe::{MadeUniverse, universe_beside};

// What a space has, and lacks, at each label.
mod label_state;
mod states_of_labels;

pub use label_state::{Completeness, LabelState};
pub use states_of_labels::label_states;
