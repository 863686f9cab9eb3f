//! The input files of a run: the readers of all four, the world that they say, and in which order
//! their faults come.
//!
//! [`Files`] are the files beside the universe, and [`read_world`] reads a world from them. What a
//! command owes for its inputs is defined here too: the stages in which it reads them, and the
//! texts that it may write. The readers and what they return are defined elsewhere, and have one
//! name here: those of universe files, silences, alerts and instants in `am_list_files`, that of
//! configurations in `am_config`, and [`Space`], which a universe file declares, in `am_labels`.
#![tactic(auto)]

pub use am_config::{Config, Path, Route, RouteList, Rule, read_config};
pub use am_labels::Space;
pub use am_list_files::{
    Alerts, Silence, Silences, Timestamp, parse_instant, read_alerts, read_silences, read_universe,
};

// The files, the world that they say, and a label set in words.
mod files;
mod world_inputs;

pub use files::Files;
pub use world_inputs::{read_set, read_timeless_world, read_universe_if_any, read_world};

// Facts about the definitions alone.
pub mod laws;
