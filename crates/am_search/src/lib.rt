//! The search for the choices of a universe that are answers, from a start on, page by page.
//!
//! A [`Judge`] says which whole choices are true, and what is known of the completions of each
//! prefix. [`Answers`] are the true choices from a [`Start`] on, in declared order, and [`first`]
//! returns the first of all.
//!
//! A page ends with a token, if answers may be left. The token says where the next page begins, and
//! which inputs it was made from: [`write_token`] and [`parse_token`].
#![tactic(auto)]

// What a search asks.
mod judge;
mod verdict;

pub use judge::Judge;
pub use verdict::Verdict;

// Where answers begin, and how a page ends.
mod start;
mod trailer;

pub use start::Start;
pub use trailer::Trailer;

// The answers from a start on.
mod answers;
mod stage;

pub use answers::{Answers, State, first};

// Which part of the answers is wanted.
mod page;

pub use page::Page;

// Starts as texts.
mod digits;
mod token;

pub use token::{parse_token, write_token};

// Pages and their trailers as texts.
mod page_text;
mod trailer_text;

pub use page_text::write_page;

// Facts about the definitions alone.
pub mod laws;
