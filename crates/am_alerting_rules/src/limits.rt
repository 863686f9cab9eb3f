//! The limits of rules files. They are this project's own choice.

/// The most groups that a rules file may have.
pub const MAX_GROUPS: usize = 4096;

/// The most alerting rules that a rules file may have, in all its groups together.
pub const MAX_ALERTING_RULES: usize = 4096;

/// The most labels of an alerting rule, and of a group, each by itself. With `alertname` those of a
/// rule are as many as a list of matchers may have.
pub const MAX_RULE_LABELS: usize = 63;
