//! Which routes and receivers of a configuration no label set of a universe reaches.
//!
//! [`routes_covered`] says for each route whether some label set ends there and, if none does,
//! whether one ends below it. [`receivers_covered`] says for each receiver whether some label set
//! goes to it, and shows the first that does. [`write_routes`] and [`write_receivers`] write the
//! reports.
#![tactic(auto)]

// Whether label sets reach each route, and each receiver.
mod coverage;
mod first_ends;
mod receiver_coverage;
mod route_coverage;

pub use coverage::RouteCoverage;
pub use receiver_coverage::{ReceiverFound, receivers_covered};
pub use route_coverage::{RouteFound, routes_covered};

// The reports.
mod report;

pub use report::{write_receivers, write_routes};

// Facts about the definitions alone.
pub mod laws;
