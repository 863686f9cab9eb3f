//! What is wrong with the routes and receivers of a configuration, and why.
//!
//! [`found_routes`] says how the label sets of a space arrive at each route: whether some end there
//! or enter it, and which routes are to blame if none do. [`look_further`] looks at the same routes
//! over another space. A route is undecided if the budget of its searches is used up.
//! [`found_receivers`] says which receivers no label set reaches, and [`push_lint_lines`] adds a
//! line for each finding and note. If one space stands for all ordinary alerts, whose values are
//! printable ASCII, and the other for all alerts, the findings hold of all alerts. [`laws`] say
//! that.
//!
//! A [`Table`] has the routes of a configuration as cubes, and [`literals_of`] returns what an
//! alert has to meet to end at one of them. `am_route_alerts` looks at them too.
#![tactic(auto)]

// The routes, and what they ask of an alert.
mod literals;
mod table;

pub use literals::{Literals, Part, literals_of};
pub use table::{Table, TableRoute};

// How the label sets of a space arrive at a route.
mod arrival;

pub use arrival::{Arrival, Cause, Reason};

// What is found of routes and receivers.
mod finding;
mod found;

pub use finding::{found_receivers, found_routes, look_further};
pub use found::{FoundRoute, ReceiverFinding, RouteFinding};

// The lines for both.
mod below;
mod lint_lines;

pub use below::{count_below, push_below};
pub use lint_lines::{count_pieces, matchers_at, push_lint_lines};

// What follows from the definitions alone.
pub mod laws;
