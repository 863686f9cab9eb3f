//! The limit on worlds. It is this project's own choice.

/// The most pairs that a world may have. A pair is an inhibition rule and a firing alert that its
/// source side matches.
pub const MAX_PAIRS: usize = 16384;
