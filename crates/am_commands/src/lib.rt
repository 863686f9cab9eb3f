//! The commands `ask`, `dead`, `receivers` and `explain`, as functions over bytes and a
//! [`Sink`](am_universe::Sink).
//!
//! [`ask`] writes the label sets of a universe that satisfy a question about a configuration,
//! silences and firing alerts: all of them, or one [`Page`] after another. [`dead`] writes for each
//! route whether a label set of a universe ends there, and [`receivers`] for each receiver whether
//! one goes to it. [`explain`] writes why one label set goes where it goes, and [`explain_words`]
//! does so for a set in words. [`fingerprint`] is what the token of a page has of the inputs.
#![tactic(auto)]

// Items of the crates below: the inputs, how a page ends, and how a fault is written.
pub use am_files::Files;
pub use am_questions::fingerprint;
pub use am_search::{Page, Trailer};
pub use am_universe::{status, write_fault};

// The commands.
mod asking;
mod explaining;
mod explanation;
mod reporting;

pub use asking::ask;
pub use explaining::{explain, explain_words};
pub use reporting::{dead, receivers};

// Facts about the definitions alone.
pub mod laws;
