//! Notes for a person: what the answer of a command does not say by itself, and what to type after
//! a refusal.
//!
//! A note is one line that begins with `note: `. [`notes_of_answer`] gives the notes of a call that
//! is done, and [`notes_of_refusal`] those of one that was refused. Both depend on the inputs
//! alone, and read them again, as the commands do. [`note_of_unread`] gives that of a file that
//! could not be read. Nothing depends on notes: no contract says which notes there are, and cases
//! test them. Only [`has_groups`], which says exactly what it finds, also decides a refusal.
//!
//! Notes come after the answer, because it may take minutes to find out whether a universe is
//! complete. They look at ordinary alerts alone: a person who used `--ascii` knows that others are
//! left out, and to look at all alerts takes long if patterns are hard.
#![tactic(auto)]

// The lines of notes, and the sentences in them.
mod notes;
mod sentences;

// What an answer does not say by itself.
mod matchers;
mod questions;
mod universes;

// What a file looks like.
mod groups;
mod likeness;

// Where a file is not JSON, a text no question, or a list no matchers.
mod bad_matchers;
mod not_json;
mod question_words;
mod stray_bytes;
mod stray_words;

// Which receiver may be meant.
mod receivers;

// What to type after a refusal.
mod remedies;

// The calls.
mod answers;
mod refusals;

pub use answers::{note_of_groups, notes_of_answer};
pub use groups::has_groups;
pub use refusals::{note_of_unread, notes_of_refusal};
