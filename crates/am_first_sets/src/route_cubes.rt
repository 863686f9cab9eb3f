//! The matchers of routes as cubes, in a tree of the same shape.
//!
//! The way to end at a route borrows its cubes from that tree.

ghost use Rattle.std.specs.Prelude.{◌≡◌, ℕ, List, map, ◌&&◌, IfOk, OnOk, IsTrue};
ghost use Rattle.am_universe.specs.Universe.{sizes};
ghost use Rattle.am_universe.specs.Choice.{admits};
ghost use Rattle.am_config.specs.RouteView.{route_view};
ghost use Rattle.am_config.specs.ConfigFile.{routes_of};
ghost use Rattle.am_first_sets.specs.Solving.{avoids};
ghost use Rattle.am_first_sets.specs.RouteCubes.{AreCubesOf, AreCubesOfEach, IsWayToEnd};
ghost use Rattle.am_first_sets.specs.RouteCubes.{none_stops};

use am_config::{Path, Route};
use am_judged_lists::Cube;
use am_universe::Universe;
use std::alloc::{AllocError, Global};

/// The matchers of a route as a cube, with its receiver and its `continue`, and the same for all
/// routes below it.
///
/// The fields are public because `am_plans` walks the tree itself. The type has no invariant:
/// only [`RouteCubes::of`] promises that the cubes are those of routes.
#[derive(Drop)]
pub struct RouteCubes {
    pub cube: Cube,
    pub continues: bool,
    pub receiver: usize,
    pub routes: Vec<RouteCubes>,
}

/// How some routes stand to a route that an alert gets to.
#[derive(Clone, Copy)]
pub(crate) enum Kin {
    EarlierSiblings,
    Children,
}

/// The way to end at a route. It has the cubes of the routes that must match, and of those that
/// must not: the earlier siblings of these that lack `continue`, and the children of the last.
#[derive(Drop)]
pub(crate) struct RouteWay<'a> {
    pub wanted: Vec<&'a Cube>,
    pub unwanted: Vec<&'a Cube>,
}

impl RouteCubes {
    /// Makes the cubes of a route, and of all routes below it. Fails only if memory runs out.
    #[cycle(cubes)]
    pub fn of(alloc: Global, universe: &Universe, route: &Route) -> Result<RouteCubes, AllocError>
        ensures cubes { IfOk result (λ cubes. (prefix : List ℕ)
            → IsTrue (admits (sizes universe.now) prefix)
            → AreCubesOf universe.now prefix (route_view route.now) cubes) }
    {
        let cube = Cube::of(alloc, route.matchers(), universe)?;
        let routes = cubes_of_routes(alloc, universe, route.routes())?;
        Ok(RouteCubes {
            cube,
            continues: route.continues(),
            receiver: route.receiver(),
            routes,
        })
    }

    /// Returns the one way to end at the route at a path, or `None` if there is no such route.
    /// Fails only if memory runs out.
    pub(crate) fn way_to_end<'a>(
        &'a self,
        alloc: Global,
        path: &Path,
    ) -> Result<Option<RouteWay<'a>>, AllocError>
        ensures way { IfOk result (IsWayToEnd self.now path.now) }
    {
        let mut wanted = Vec::new(alloc);
        let mut unwanted = Vec::new(alloc);
        let mut route = self;
        wanted.push(&route.cube)?;
        for i in 0..path.len() {
            let position = usize::from(path.get(i));
            let children = route.routes.as_slice();
            if position >= children.len() {
                return Ok(None);
            }
            push_stops(&mut unwanted, &children[..position], Kin::EarlierSiblings)?;
            route = &children[position];
            wanted.push(&route.cube)?;
        }
        push_stops(&mut unwanted, route.routes.as_slice(), Kin::Children)?;
        Ok(Some(RouteWay { wanted, unwanted }))
    }
}

/// Makes the cubes of each of some routes, and of all routes below them.
#[cycle(cubes)]
fn cubes_of_routes(
    alloc: Global,
    universe: &Universe,
    routes: &[Route],
) -> Result<Vec<RouteCubes>, AllocError>
    ensures cubes { IfOk result (λ cubes. (prefix : List ℕ)
        → IsTrue (admits (sizes universe.now) prefix)
        → AreCubesOfEach universe.now prefix (routes_of (map route_view routes.now)) cubes.items) }
{
    let mut cubes = Vec::with_capacity(alloc, routes.len())?;
    for route in routes {
        cubes.push(RouteCubes::of(alloc, universe, route)?)?;
    }
    Ok(cubes)
}

/// Adds the cubes of some routes, but not those of earlier siblings with `continue`. Fails only if
/// memory runs out.
fn push_stops<'a>(
    cubes: &mut Vec<&'a Cube>,
    routes: &'a [RouteCubes],
    kin: Kin,
) -> Result<(), AllocError>
    ensures { OnOk result ((choice : List ℕ) → avoids cubes.new.items choice
        ≡ (avoids cubes.old.items choice && none_stops kin choice routes.now)) }
{
    for route in routes {
        match kin {
            Kin::EarlierSiblings if route.continues => {}
            _ => cubes.push(&route.cube)?,
        }
    }
    Ok(())
}
