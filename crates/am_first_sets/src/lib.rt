//! Label sets of a space that some cubes match and others do not, and why there are none.
//!
//! A search by boxes finds them. It goes by the cubes, and not label by label: from a box of
//! choices it takes those that an unwanted cube matches, and splits the box where it has to.
//!
//! A [`Candidate`] is a literal, a cube that a label set has to match or must not match. If no
//! label set meets all of some literals, [`leave_out`] leaves enough of them named that no label
//! set meets those either. Beside those that the caller fixes, it names only what is needed.
//! [`Pairs`] is for the same questions about two label sets that share the values of some labels: a
//! pair of choices is one choice over twice as many labels.
#![tactic(auto)]

// The limit of a search, and how much of it is left.
mod budget;
mod left;
pub mod limits;
mod used_up;

pub use budget::{Budget, Unfinished};
pub use used_up::UsedUp;

// The search for a choice that no cube of some matches.
mod solver;

// The choices among which a search looks, and those of a space.
mod possible_choices;
mod possible_sets;

pub use possible_choices::PossibleChoices;
pub use possible_sets::{PossibleSets, first_possible};

// Literals, and the choices that meet those that are named.
mod candidate;
mod meeting;

pub use candidate::Candidate;
pub use meeting::{first_meeting, some_meeting};

// The search for the literals that are to blame.
mod reason;

pub use reason::{leave_out, leave_out_idle};

// Pairs of label sets that share values.
mod pairs;

pub use am_judged_lists::Side;
pub use pairs::Pairs;

// The routes of a configuration as cubes.
mod route_cubes;

pub use route_cubes::RouteCubes;

// The first label set that ends at a route.
mod route_ends;

pub use route_ends::RouteEnds;
