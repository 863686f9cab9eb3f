//! Universes of labels, their choices and label sets, and how label sets and faults are written.
//!
//! A [`Universe`] declares labels and the values that each may have. A [`Choice`] picks one value
//! of each label, and [`set_of`] returns the [`LabelSet`] that it stands for. Output goes to a
//! [`Sink`]; an [`Out`] is one over a writer. A [`Fault`] says why something was refused, and
//! where.
#![tactic(auto)]

// The limits of universes.
pub mod limits;

// Refusals: why, where, and at which part of a label.
mod fault;
mod kind;
mod label_fault;
mod place;

pub use fault::Fault;
pub use kind::Kind;
pub use label_fault::{LabelFault, LabelPart};
pub use place::Place;

// Sinks for output, and histories of what they took.
mod hidden;
mod history;
mod memory_sink;
mod out;
mod sink;
mod terminal;

pub use history::History;
pub use out::Out;
pub use sink::Sink;
pub use terminal::Terminal;

// Label names, choices, and the universes that admit them.
mod label_name;
mod positions;
mod universe;

pub use label_name::{begins_label_name, continues_label_name};
pub use positions::{Choice, Position, Positions};
pub use universe::Universe;

// Label sets.
mod label_set;

pub use label_set::{LabelSet, set_of};

// Writing to a sink: bytes, texts and label sets.
mod write;

pub use write::{answer_of_write, put_all, put_str, write_map, write_set, write_text};

// The lines of a universe, from a table of their pieces.
mod line_table;

pub use line_table::LineTable;

// The line for a fault, and the exit status.
mod fault_text;

pub use fault_text::{report, status, write_fault};

// Facts about the definitions alone.
pub mod laws;
