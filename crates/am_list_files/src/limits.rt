//! The limits of files. They are this project's own choice.

/// The most silences that an export may have.
pub const MAX_SILENCES: usize = 4096;

/// The most alerts that an export may have.
pub const MAX_ALERTS: usize = 4096;

/// The most labels that an alert may have.
pub const MAX_ALERT_LABELS: usize = 256;
