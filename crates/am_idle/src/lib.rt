//! Which inhibition rules and silences do nothing, and which silences hide each ordinary alert that
//! has an alertname, for any alert.
//!
//! [`universe_for_lists`] makes a universe that stands for every alert, for some lists of matchers.
//! [`find_silences`] finds which silences of a world hide no alert, or all of those, and
//! [`push_silence_line`] adds the line of one. [`find_rules`] finds why no alert inhibits another
//! by an inhibition rule, if none does, and [`push_rule_line`] adds the line of one. Both also find
//! where this is not known.
#![tactic(auto)]

// A universe for some lists of matchers, and which of all alerts a list matches.
mod extent;
mod lists;
mod named_alerts;

pub use lists::universe_for_lists;

// Why nothing is said.
mod found;

pub use found::FindingFault;

// What is said of silences.
mod known_extents;
mod silence_lines;
mod silences;

pub use silence_lines::push_silence_line;
pub use silences::{SilenceFinding, find_silences};

// What is said of inhibition rules.
mod rule_findings;
mod rule_lines;
mod rules;
mod sides;

pub use rule_findings::{RuleFinding, find_rules};
pub use rule_lines::push_rule_line;
pub use rules::{IdleReason, idle_reason};

// What follows from the definitions alone.
pub mod laws;
