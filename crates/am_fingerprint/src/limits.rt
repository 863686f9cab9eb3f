//! The length of a fingerprint. It is this project's own choice.

/// The length of a fingerprint in bytes.
pub const FINGERPRINT_BYTES: usize = 16;
