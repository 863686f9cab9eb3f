//! To which receivers the alerts of alerting rules go.
//!
//! A universe that stands for every alert is *narrowed* to the alerts of a rule: each of its labels
//! that these alerts have with one text alone keeps one value, which the matchers cannot tell from
//! that text. [`narrowings`] says which, for each rule, and [`outcomes_of_rules`] finds the
//! outcomes of the choices with these values. Rules that narrow the universe alike share them, and
//! what is tried on the choices is prepared once for all rules.
//! [`where_report`] has a line for each list of receivers to which the alerts of a rule go, and
//! [`changes_of_rules`] says what changes for the alerts of each rule between two configurations.
#![tactic(auto)]

// A universe narrowed to the alerts of a rule.
mod kept_matchers;
mod label_texts;
mod narrowing;

pub use narrowing::{Narrowing, narrowings};

// The outcomes of the alerts of rules.
mod rule_outcomes;

pub use rule_outcomes::{NarrowedOutcomes, RuleOutcomes, outcomes_of_rules};

// The receivers of the alerts of rules, and whether the alerts are silenced.
mod receiver_outcomes;
mod shown_labels;

// The lines of both.
mod where_lines;

pub use where_lines::where_report;

// What changes for the alerts of rules.
mod rule_changes;

pub use rule_changes::changes_of_rules;

// Facts about the definitions alone.
pub mod laws;
