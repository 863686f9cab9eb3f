//! The command `alerts`, as a function over bytes and a [`Sink`](am_universe::Sink).
//!
//! [`alerts`] writes a line for each alert of an export of which a question is true. The line has
//! the receivers to which the alert goes, the silences that hide it, by their identifiers, the
//! inhibition rules and firing alerts that inhibit it, and the time intervals that may mute it.
#![tactic(auto)]

// The labels of all alerts, tests of their values, a list for each alert, and which alerts end at
// each route.
mod alert_labels;
mod alert_lists;
mod judge;
mod route_ends;

// The outcomes of all alerts, and of which of them a question is true.
mod alert_ends;
mod alert_hiding;
mod outcomes;
mod truth;

pub use truth::is_true_of;

// The time intervals that may mute alerts, and the identifiers of the silences of a file.
mod intervals;
mod silence_ids;

// The lines.
mod alert_lines;

// The command.
mod report;

pub use report::alerts;

// Facts about the definitions alone.
pub mod laws;
