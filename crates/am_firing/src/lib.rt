//! What some alerts show of a configuration and of silences.
//!
//! [`push_firing_lines`] adds a note for each route, receiver and side of an inhibition rule that
//! no alert of a file reaches, for each rule by which one alert inhibits most of the others, and
//! for each silence that hides all alerts of a receiver. [`push_unreached`] adds a finding for each
//! route, receiver and side that no alert of alerting rules reaches. What is said of routes,
//! receivers and rules over every possible alert is known before, and is not told again.
#![tactic(auto)]

// When an alert inhibits many others.
pub mod limits;

// What alerts reach: routes, receivers and lists of matchers.
mod entered;
mod going;
mod matching;
mod reached;

// How many alerts each alert inhibits by a rule.
mod wide;

// The lines.
mod firing_lines;
mod hiding_lines;
mod unreached_lines;
mod wide_lines;

pub use firing_lines::push_firing_lines;
pub use reached::{Reached, Whose};
pub use unreached_lines::push_unreached;

// What follows from the definitions alone.
pub mod laws;
