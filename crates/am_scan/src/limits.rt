//! The limits of the patterns that are followed.

/// The most states of a compiled pattern.
pub const MAX_STATES: usize = 16_384;

/// The most bytes of the tables of a compiled pattern.
pub const MAX_TABLE_BYTES: usize = 1_048_576;

/// The most kinds of characters beyond ASCII. If patterns tell more apart, all bytes are tried.
pub const MAX_KINDS: usize = 256;

/// The most states of texts that a pattern may tell apart.
pub const MAX_TEXT_STATES: usize = 65_536;
