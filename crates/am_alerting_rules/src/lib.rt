//! Reading the alerting rules of Prometheus, and the labels that their alerts have for certain.
//!
//! [`read_alerting_rules`] reads a rules file, as JSON. It returns what the file says, or fails
//! with its first fault: why the file is refused and, by a JSON Pointer (RFC 6901), at which part.
//! docs/REFERENCE.md has the form of the file, and the order of its faults. [`AlertingRule`] says
//! which labels all alerts of the rule have.
#![tactic(auto)]

// The limits of rules files.
pub mod limits;

// Alerting rules, and the labels that their alerts have.
mod alerting_rule;

pub use alerting_rule::{AlertingRule, AlertingRules, RuleLabel};

// The rules file.
mod rules_file;

pub use rules_file::read_alerting_rules;

// Facts about the definitions alone.
pub mod laws;
