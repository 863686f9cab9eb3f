//! The limits of universes. They are this project's own choice.

/// The most labels that a universe may have.
pub const MAX_LABELS: usize = 64;

/// The most values that a label may have.
pub const MAX_VALUES: usize = 1024;

/// The most positions that a choice may have: one for each label of the largest universe.
pub const MAX_POSITIONS: usize = 64;
