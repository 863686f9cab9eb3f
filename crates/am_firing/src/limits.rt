//! When an alert inhibits many others. This limit is this project's own.

/// The fewest others that an alert inhibits by a wide rule.
pub const FEWEST_INHIBITED: usize = 10;
