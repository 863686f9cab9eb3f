//! The first label set of a space that ends at a route.
//!
//! An alert ends at a route if it matches each route on the way there, matches no earlier sibling
//! of these that lacks `continue`, and matches no child of the last. `way_to_end` gives the cubes
//! of all of these. The alert has to be possible too, so it must not match an impossible list.

ghost use Rattle.std.specs.Prelude.{◌≡◌, IfOk, IfSome};
ghost use Rattle.std.specs.List.{find};
ghost use Rattle.std.proofs.Props.{props};
ghost use Rattle.am_labels.specs.Space.{all_choices, IsChoiceOf};
ghost use Rattle.am_config.specs.ConfigView.{config_view};
ghost use Rattle.am_first_sets.specs.ChoiceEnds.{is_end_at};
ghost use Rattle.am_first_sets.specs.RouteCubes.{AreCubesOf-prop, KnowsRoutes};

use crate::possible_sets::PossibleSets;
use crate::route_cubes::RouteCubes;
use am_config::{Config, Path};
use am_labels::Space;
use am_universe::Choice;
use std::alloc::{AllocError, Global};

/// Finds the first label set of a space that ends at a route of a configuration.
#[derive(Drop)]
pub struct RouteEnds<'a> {
    possible: PossibleSets<'a>,
    config: &'a Config,
    routes: RouteCubes,
    ghost knows_routes: { KnowsRoutes possible.space.now.labels
        (config_view config.now) routes } by { Prim.hlevel (props, AreCubesOf-prop) },
}

impl<'a> RouteEnds<'a> {
    ghost use Rattle.am_first_sets.specs.RouteEnds.{ends_space, ends_config};

    /// Prepares the search: makes a cube for the matchers of each route, and for each impossible
    /// list.
    ///
    /// Fails only if memory runs out.
    pub fn of(
        alloc: Global,
        space: &'a Space,
        config: &'a Config,
    ) -> Result<RouteEnds<'a>, AllocError>
        ensures space { IfOk result (λ routes. ends_space routes ≡ space.now) }
        ensures config { IfOk result (λ routes. ends_config routes ≡ config_view config.now) }
    {
        let possible = PossibleSets::of(alloc, space)?;
        let routes = RouteCubes::of(alloc, space.universe(), config.root())?;
        Ok(RouteEnds {
            possible,
            config,
            routes,
        })
    }

    /// Returns the first choice of the space, in declared order, whose label set ends at the route
    /// at a path.
    ///
    /// Returns `None` if there is no such choice, or no such route. Fails only if memory runs out.
    pub fn first_end(&self, alloc: Global, path: &Path) -> Result<Option<Choice>, AllocError>
        ensures first { IfOk result (λ found. found ≡ find (is_end_at (ends_space self.now).labels
            (ends_config self.now) path.now) (all_choices (ends_space self.now))) }
        ensures possible { IfOk result (λ found. IfSome found (IsChoiceOf (ends_space self.now))) }
    {
        let Some(way) = self.routes.way_to_end(alloc, path)? else {
            return Ok(None);
        };
        self.possible
            .first_of_all(alloc, way.wanted.as_slice(), way.unwanted.as_slice())
    }
}
