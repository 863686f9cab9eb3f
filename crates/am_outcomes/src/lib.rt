//! What becomes of the alerts of a space, under one configuration or under two that are compared.
//! Under one, active silences can be given, which may hide alerts. It can also be asked where the
//! alerts end, and whether a list of matchers matches them.
//!
//! [`find_outcomes`] lists each outcome that some choice has, with the first choice that has it. It
//! does not go through the choices one by one. It goes through the routes, of one configuration
//! after the other, and where an alert may match a route or not it goes on with both. Then it goes
//! through the silences in the same way, until one matches. What is at the end of such a walk is
//! one *way*. All alerts that go it end at the same routes, and are all silenced or none of them
//! is, and so they have the same outcome. [`outcomes_report`] has a line for each outcome.
//! [`shown_changes`] returns those that differ between two configurations, and [`compare_changes`]
//! has a line for each.
#![tactic(auto)]

// The limit of the search.
pub mod limits;

// The walks through the routes and the silences.
mod box_firsts;
mod steps;
mod walks;
mod ways;

// The outcomes of alerts, and those that are found.
mod configs;
mod found;
mod handling;
mod outcome_search;
mod routers;

pub use configs::{ActiveSilence, Configs};
pub use found::Outcomes;
pub use outcome_search::{OutcomeSearch, find_outcomes};

// The lines of outcomes.
mod outcome_lines;

pub use outcome_lines::{list_at, outcomes_report};

// The outcomes that are changes, and their lines.
mod change_lines;
mod changes;

pub use change_lines::{Comparison, compare_changes};
pub use changes::{ShownChange, is_change, shown_changes};
