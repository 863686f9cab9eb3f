//! Reports as values, as texts and as JSON, and the parts of their texts.
#![tactic(auto)]

// Texts in quotes, names of labels, separators, and endings of words.
mod name_text;
mod quoted_text;
mod wording;

pub use name_text::{is_name, push_name};
pub use quoted_text::push_quoted;
pub use wording::{gap_before, plural};

// The lines of reports, how many of them there are, and how they are written as a text and as JSON.
mod counts;
mod lines;
mod lines_json;
mod lines_text;
mod shown;
mod writing;

pub use counts::{count_findings, count_notes};
pub use lines::{Field, Level, Line, Name, Piece, Report, Shown, ShownRoute};
pub use shown::{all_matchers, label_set, push_new, receiver_name, receiver_names, texts_of};
pub use writing::{Form, written};

// Facts about the definitions alone.
pub mod laws;
