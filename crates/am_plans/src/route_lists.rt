//! The lists of the routes of a world, and which routes a label set reaches at a prefix.
//!
//! What a label set must match and must not match to reach a route does not depend on the prefix.
//! So for each route it is found once, as sets of routes: a *way*. At a prefix a table says which
//! lists pass, all at once, and each way is compared with these sets.

ghost use Rattle.std.specs.Prelude.{◌≡◌, ◌&&◌, ℕ, List, map, ◌<◌, IfOk, IsTrue};
ghost use Rattle.am_universe.specs.Choice.{admits};
ghost use Rattle.am_universe.specs.Universe.{sizes};
ghost use Rattle.am_config.specs.ConfigFile.{Configuration, matchers_of};
ghost use Rattle.am_config.specs.RoutePaths.{all_routes};
ghost use Rattle.am_config.specs.RouteView.{route_view};
ghost use Rattle.am_eval.specs.declared.reach.Reach.{Reach};
ghost use Rattle.am_eval.specs.declared.reach.Reach.TheVariants.{Ends, Enters};
ghost use Rattle.am_judged_lists.specs.Cube.{verdict_at};
ghost use Rattle.am_judged_lists.specs.Verdicts.{verdict_of_list};
ghost use Rattle.am_judged_lists.specs.declared.certainty.Certainty.{Certainty};
ghost use Rattle.am_judged_lists.specs.declared.cube_set.CubeSet.{CubeSet};
ghost use Rattle.am_judged_lists.specs.declared.cube_set.TheConstants.{MAX_CUBES};
ghost use Rattle.am_judged_lists.specs.CubeSetView.{contains, are_apart};
ghost use Rattle.am_plans.specs.RouteGroups.{AreRoutesOf};
ghost use Rattle.am_plans.specs.RoutesByWays.{enters_by, reached_at, seen_reaches};
ghost use Rattle.am_plans.specs.RoutesByWays.{reaches_by_lists, IsWayTo, AreListsOfRoutes};

use crate::route_groups::{Group, places_of};
use am_config::{Path, Route, RouteList};
use am_eval::Reach;
use am_judged_lists::{Certainty, Cube, CubeSet, MAX_CUBES, Table};
use am_universe::{Choice, Universe};
use std::alloc::{AllocError, Global};

/// The routes that decide whether a label set reaches a route.
#[derive(Drop)]
struct RouteWay {
    /// The routes on the way, and the route itself: the label set must match all of them.
    on_way: CubeSet,
    /// The earlier siblings of these that lack `continue`: it must match none of them.
    before: CubeSet,
    /// The children of the route: to end at the route, it must match none of them.
    children: CubeSet,
}

impl RouteWay {
    /// Makes the way to the route at a path.
    fn to(routes: &RouteList<'_>, path: &Path) -> RouteWay
        ensures { (c : Configuration) → AreRoutesOf c routes.now
            → IsWayTo (all_routes c) path.now result }
    {
        RouteWay {
            on_way: places_of(routes, Group::OnWay(path.steps())),
            before: places_of(routes, Group::Before(path.steps())),
            children: places_of(routes, Group::Children(path.steps())),
        }
    }

    /// Whether a label set enters the route, which is at this place, if it matches the routes in
    /// `passing`, and does not match those that are not in `matched`.
    fn is_entered(&self, place: usize, passing: &CubeSet, matched: &CubeSet) -> bool
        ensures { result
            ≡ enters_by (contains passing.now) (contains matched.now) place self.now }
    {
        passing.contains(place) && self.on_way.is_within(passing) && self.before.misses(matched)
    }
}

/// The lists of all routes, and the ways to them, in the same order.
#[derive(Drop)]
pub(crate) struct RouteLists {
    lists: Table,
    ways: Vec<RouteWay>,
}

/// The routes that a label set reaches at a prefix, so far as one question about verdicts goes.
#[derive(Clone, Copy, Drop)]
struct Reached {
    entered: CubeSet,
    ended: CubeSet,
}

/// The routes that a label set may reach at a prefix, and those that it must reach.
#[derive(Clone, Copy, Drop)]
pub(crate) struct RoutesSeen {
    may: Reached,
    must: Reached,
}

impl RoutesSeen {
    /// Whether it is not excluded (`May`) or is certain (`Must`) that the label set reaches one of
    /// some routes.
    pub(crate) fn reaches(&self, certainty: Certainty, reach: Reach, routes: &CubeSet) -> bool
        ensures { result ≡ seen_reaches self.now certainty reach routes.now }
    {
        let reached = match certainty {
            Certainty::May => &self.may,
            Certainty::Must => &self.must,
        };
        match reach {
            Reach::Enters => !routes.misses(&reached.entered),
            Reach::Ends => !routes.misses(&reached.ended),
        }
    }
}

impl RouteLists {
    /// Makes the lists of all routes of a configuration. Fails only if memory runs out.
    pub(crate) fn of(
        alloc: Global,
        universe: &Universe,
        routes: &RouteList<'_>,
    ) -> Result<RouteLists, AllocError>
        ensures lists { IfOk result (λ lists. (c : Configuration) → AreRoutesOf c routes.now
            → AreListsOfRoutes universe.now (all_routes c) lists) }
    {
        let cubes = cubes_of(alloc, universe, &routes.routes)?;
        let mut ways = Vec::with_capacity(alloc, routes.paths.len())?;
        for path in &routes.paths {
            ways.push(RouteWay::to(routes, path))?;
        }
        Ok(RouteLists {
            lists: Table::of(alloc, universe, cubes)?,
            ways,
        })
    }

    /// Finds the routes that a label set reaches at a prefix. Takes no memory.
    pub(crate) fn see(&self, prefix: &Choice) -> RoutesSeen
        ensures { (m : Certainty) (reach : Reach) (routes : CubeSet)
            → seen_reaches result m reach routes
            ≡ reaches_by_lists prefix.now self.now m reach routes }
    {
        let may = self.lists.passing(Certainty::May, prefix);
        let must = self.lists.passing(Certainty::Must, prefix);
        RoutesSeen {
            may: self.reached(&may, &must),
            must: self.reached(&must, &may),
        }
    }

    /// The routes that a label set reaches, in the same way.
    fn reached(&self, passing: &CubeSet, matched: &CubeSet) -> Reached
        ensures entered { (k : ℕ) → k < MAX_CUBES → contains result.entered k ≡ reached_at
            (contains passing.now) (contains matched.now) Enters self.now.ways.items k }
        ensures ended { (k : ℕ) → k < MAX_CUBES → contains result.ended k
            ≡ reached_at (contains passing.now) (contains matched.now) Ends self.now.ways.items k }
    {
        let mut entered = CubeSet::none();
        let mut ended = CubeSet::none();
        for i in 0..self.ways.len().min(MAX_CUBES) {
            let way = &self.ways[i];
            if way.is_entered(i, passing, matched) {
                entered.insert_if(i, true);
                ended.insert_if(i, way.children.misses(matched));
            }
        }
        Reached { entered, ended }
    }
}

/// The list of each route. Fails only if memory runs out.
fn cubes_of(alloc: Global, universe: &Universe, routes: &[&Route]) -> Result<Vec<Cube>, AllocError>
    ensures verdicts { IfOk result (λ cubes. (prefix : List ℕ)
        → IsTrue (admits (sizes universe.now) prefix)
        → map (λ cube. verdict_at cube prefix) cubes.items
        ≡ map (λ route. verdict_of_list universe.now (matchers_of (route_view route.now)) prefix)
        routes.now) }
{
    let mut cubes = Vec::with_capacity(alloc, routes.len())?;
    for route in routes {
        cubes.push(Cube::of(alloc, route.matchers(), universe)?)?;
    }
    Ok(cubes)
}
