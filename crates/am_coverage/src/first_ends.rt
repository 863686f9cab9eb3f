//! The first label set that ends at each route. There is one search for each route, and everything
//! else about routes and receivers follows from these.
//!
//! A dead route is entered exactly if a route below it is live. The first label set that goes to a
//! receiver is the earliest of those that end first at its routes. Two laws say so:
//! `a_dead_route_is_entered_where_one_below_it_is_live` and
//! `a_receiver_is_live_from_the_first_end_of_its_routes`.

ghost use Rattle.std.specs.Prelude.{◌≡◌, IfOk};
ghost use Rattle.am_config.specs.ConfigView.{config_view};
ghost use Rattle.am_coverage.specs.FirstEnds.{first_ends};

use am_config::{Config, Path};
use am_first_sets::RouteEnds;
use am_labels::Space;
use am_universe::Choice;
use std::alloc::{AllocError, Global};

/// A route, by its path, its receiver, by its position, and the first choice of the space whose
/// label set ends there, if there is one.
#[derive(Clone, Copy, Debug)]
pub struct FirstEnd {
    pub path: Path,
    pub receiver: usize,
    pub choice: Option<Choice>,
}

/// Finds the first choice that ends at each route of a configuration, in preorder: each route
/// before those below it, and these before its next sibling. Fails only if memory runs out.
pub fn first_ends(
    alloc: Global,
    space: &Space,
    config: &Config,
) -> Result<Vec<FirstEnd>, AllocError>
    ensures ends { IfOk result (λ found.
        found.items ≡ first_ends space.now (config_view config.now)) }
{
    let ends = RouteEnds::of(alloc, space, config)?;
    let listed = config.routes(alloc)?;
    let mut found = Vec::with_capacity(alloc, listed.paths.len())?;
    for i in 0..listed.paths.len() {
        let path = listed.paths[i];
        found.push(FirstEnd {
            path,
            receiver: listed.routes[i].receiver(),
            choice: ends.first_end(alloc, &path)?,
        })?;
    }
    Ok(found)
}
