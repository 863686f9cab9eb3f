//! The limits of the searches by boxes. They are this project's own.
//!
//! A cube has a mask for each label that its matchers ask about. For each box, a search looks at
//! the masks of all cubes, and this takes most of its time. So these limits bound the time.

/// The most masks that the searches for one route, rule or silence may look at.
pub const MAX_LOOKS: usize = 16_777_216;

/// The most masks that all searches for a report may look at.
pub const MAX_REPORT_LOOKS: usize = 1_073_741_824;
