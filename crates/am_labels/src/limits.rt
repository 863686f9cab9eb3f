//! The limits of lists of matchers and of spaces. They are this project's own choice.

/// The most matchers that a list may have.
pub const MAX_MATCHERS: usize = 64;

/// The most impossible lists of matchers that a space may have.
pub const MAX_IMPOSSIBLE: usize = 64;
