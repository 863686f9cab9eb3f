//! Which labels decide what becomes of an alert, and by which matchers of the files.
//!
//! [`asked_by_routes`] gathers the matchers of a configuration's routes, [`asked_by_both`] those of
//! two configurations, [`asked_in_world`] those of a whole world, and [`asked_by_lists`] those of
//! some lists. [`equal_matchers_of`] returns the matchers that `equal` of the inhibition rules
//! stands for. [`universe_for`] makes a universe for the labels that they ask about.
#![tactic(auto)]

mod asked;
mod equal_matchers;
mod made;
mod origin_pointer;
mod visiting;

pub use asked::{asked_by_both, asked_by_lists, asked_by_routes, asked_in_world};
pub use equal_matchers::{EqualMatcher, equal_matchers_of};
pub use made::{universe_for, unproved_fault};
pub use origin_pointer::{place_of, pointer_to};
pub use visiting::{Visitor, visit_lists, visit_matchers, visit_routes, visit_rules};
