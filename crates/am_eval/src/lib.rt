//! Where alerts go under a configuration, what silences and inhibits them, and questions about
//! that.
//!
//! [`ends`] returns the routes that handle an alert, and [`receivers_of`] their receivers. A
//! [`World`] has silences and firing alerts too: [`silenced_by`] returns the silences that hide an
//! alert, and [`inhibited_by`] what inhibits it. A [`Question`] asks about any label set.
#![tactic(auto)]

// Limits.
pub mod limits;

// Routing.
mod routing;

pub use routing::{ends, receivers_of};

// Worlds: which silences hide an alert, and which firing alerts inhibit it.
mod inhibition;
mod pair;
mod silencing;
mod world;

pub use inhibition::inhibited_by;
pub use pair::Pair;
pub use silencing::silenced_by;
pub use world::World;

// Questions.
mod property;
mod question;
mod reach;

pub use property::Property;
pub use question::Question;
pub use reach::Reach;

// Facts about the definitions alone.
pub mod laws;
