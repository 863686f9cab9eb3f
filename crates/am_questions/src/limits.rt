//! The limit on questions. It is this project's own choice.

/// The most lexemes that a question may have, and so also the most parts.
pub const MAX_LEXEMES: usize = 256;
