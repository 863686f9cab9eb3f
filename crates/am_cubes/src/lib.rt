//! The judges of prefixes for a list of matchers and for a question, under one name.
//!
//! Everything here is defined elsewhere: [`Cube`] in `am_judged_lists`, [`Plan`] in `am_plans`.
#![tactic(auto)]

pub use am_judged_lists::Cube;
pub use am_plans::Plan;
