//! Whether label sets reach a route.

use am_universe::Choice;

/// Whether label sets of a universe reach a route.
#[derive(Clone, Copy, Debug)]
pub enum RouteCoverage {
    /// The label set of this choice ends there. It is the first that does, in declared order.
    Live(Choice),
    /// No label set ends there, but some end below it.
    Entered,
    /// No label set ends there or below it.
    NeverEntered,
}
