//! What complete universes say about every alert, whatever labels it has.
//!
//! [`laws`] say all of it: which label sets are treated alike, and that a complete universe has a
//! choice for every alert. `lint`, `outcomes` and `compare` need these laws, and `am_commands` says
//! by them what the reports on routes and receivers mean.
#![tactic(auto)]

// Facts about the definitions alone.
pub mod laws;
