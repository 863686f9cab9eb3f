//! Which alerts end at each route of a configuration, said by matchers.
//!
//! [`alerts_of_routes`] finds for each route matchers, and lists of matchers, such that the alerts
//! that end there are those that match the matchers and none of the lists. It looks at the label
//! sets of a space, by cubes: a search of `am_first_sets` says which of the lists and matchers are
//! needed, and the others are left out. [`routes_report`] has a line for each route. If the space
//! stands for all alerts, the lines hold of all alerts. [`laws`] say that.
#![tactic(auto)]

// Literals that follow from others, and where to look first for what they fail.
mod hints;
mod implied;
mod nearby;

// The matchers of routes, each with its cube, and the fewest of some that say the same.
mod matcher_cubes;
mod shortened;

// Which alerts end at a route, and the routes that are asked about.
mod end_matchers;
mod found;

pub use end_matchers::EndMatchers;
pub use found::{RouteAlerts, RoutesFault, alerts_of_routes};

// The lines.
mod lines;

pub use lines::routes_report;

// What follows from the definitions alone.
pub mod laws;
