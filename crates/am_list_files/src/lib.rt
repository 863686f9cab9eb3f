//! Readers of universe files, silences and alerts, and of the parts that other files share with
//! them.
//!
//! [`read_universe`] reads a universe file, [`read_silences`] an export of silences, and
//! [`read_alerts`] an export of alerts. Each returns what the file says, or fails with its first
//! fault: why the file is refused and, by a JSON Pointer (RFC 6901), at which part.
//! docs/REFERENCE.md has the form of each file, and the order of its faults.
//! [`read_universe_with_texts`] also returns the texts of the impossible lists. [`parse_instant`]
//! reads an instant.
//!
//! The name and the pattern of a matcher are refused for the same reasons in any file. So readers
//! of other files also call [`label_name_fault`], [`new_matcher`] and [`read_named_text`].
#![tactic(auto)]

// The limits of files.
pub mod limits;

// The universe file.
mod universe_file;

pub use universe_file::{read_universe, read_universe_with_texts};

// The parts of a matcher, in any file.
mod matcher;

pub use matcher::{label_name_fault, new_matcher, read_named_text};

// Instants, silences, and the export of silences.
mod instant;
mod silence;
mod silences_file;

pub use instant::{Timestamp, parse_instant};
pub use silence::{Silence, Silences};
pub use silences_file::read_silences;

// Firing alerts, and the export of alerts.
mod alert;
mod alerts_file;

pub use alert::Alerts;
pub use alerts_file::read_alerts;

// Facts about the definitions alone.
pub mod laws;
