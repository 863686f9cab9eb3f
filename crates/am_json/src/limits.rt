//! The limit of all files. It is this project's own choice.

/// The most bytes that a file may have.
pub const MAX_FILE_BYTES: usize = 16_777_216;
