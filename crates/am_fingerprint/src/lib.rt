//! The fingerprint of the inputs of a run, which shows what inputs a token was made from.
//!
//! [`Parts`] names the six parts of the inputs: the universe, the configuration, the silences, the
//! alerts, the instant and the question. The limit and the budget of a page are not among them, so
//! the next page may have others. [`fingerprint`] returns the first bytes of the SHA-256 digest
//! (FIPS 180-4) of the parts, joined so that different parts have different joined bytes.
//!
//! Two different inputs may share a fingerprint, because SHA-256 has more messages than digests. A
//! token of one is then accepted for the other. That this never happens in practice relies on the
//! digest, and is not proved.
#![tactic(auto)]

// The length of a fingerprint.
pub mod limits;

// The inputs of a run.
mod parts;

pub use parts::Parts;

// The fingerprint of the inputs.
mod digest;

pub use digest::fingerprint;

// Facts about the definitions alone.
pub mod laws;
