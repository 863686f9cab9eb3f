//! The matchers of routes, each with a cube of its own.

ghost use Rattle.std.specs.Prelude.{◌≡◌, IfOk, map};
ghost use Rattle.std.specs.List.{flat_map};
ghost use Rattle.am_config.specs.ConfigView.{config_view};
ghost use Rattle.am_route_alerts.specs.MatcherCubes.{AreCubesOf, AreCubesOfRoutes, cubes_at};
ghost use Rattle.am_route_alerts.specs.MatcherCubes.{matcher_cube};

use am_config::Config;
use am_first_sets::Candidate;
use am_judged_lists::Cube;
use am_labels::{Matcher, Matchers};
use am_universe::Universe;
use std::alloc::{AllocError, Global};

/// A matcher, with its cube over a universe.
#[derive(Drop)]
pub(crate) struct MatcherCube<'a> {
    pub matcher: &'a Matcher,
    pub cube: Cube,
}

/// A matcher, with its cube, which it borrows.
#[derive(Clone, Copy)]
pub(crate) struct KnownMatcher<'c, 'a> {
    pub matcher: &'a Matcher,
    pub cube: &'c Cube,
}

/// Returns the matchers of each route of a configuration, in preorder, with their cubes. Fails only
/// if memory runs out.
pub(crate) fn cubes_of_routes<'a>(
    alloc: Global,
    universe: &Universe,
    config: &'a Config,
) -> Result<Vec<Vec<MatcherCube<'a>>>, AllocError>
    ensures cubes { IfOk result (λ cubes.
        AreCubesOfRoutes universe.now (config_view config.now) cubes.items) }
{
    let listed = config.routes(alloc)?;
    let mut cubes = Vec::with_capacity(alloc, listed.routes.len())?;
    for route in &listed.routes {
        cubes.push(cubes_of(alloc, universe, route.matchers())?)?;
    }
    Ok(cubes)
}

fn cubes_of<'a>(
    alloc: Global,
    universe: &Universe,
    matchers: &'a Matchers,
) -> Result<Vec<MatcherCube<'a>>, AllocError>
    ensures cubes { IfOk result (λ cubes. AreCubesOf universe.now matchers.now cubes.items) }
{
    let mut cubes = Vec::with_capacity(alloc, matchers.len())?;
    for i in 0..matchers.len() {
        let matcher = matchers.get(i);
        let row = matcher.row(alloc, universe)?;
        let cube = Cube::of_rows(alloc, universe, &[row], &[])?;
        cubes.push(MatcherCube { matcher, cube })?;
    }
    Ok(cubes)
}

/// Returns the matchers of the routes that literals are about, by their tags, which are the
/// positions of the routes. Fails only if memory runs out.
pub(crate) fn cubes_about<'c, 'a>(
    alloc: Global,
    cubes: &'c [Vec<MatcherCube<'a>>],
    literals: &[Candidate<'_>],
) -> Result<Vec<KnownMatcher<'c, 'a>>, AllocError>
    ensures cubes { IfOk result (λ found. map matcher_cube found.items
        ≡ flat_map (λ k. cubes_at cubes.now k.tag) literals.now) }
{
    let mut found = Vec::new(alloc);
    for literal in literals {
        for cube in cubes_at(cubes, literal.tag) {
            found.push(KnownMatcher {
                matcher: cube.matcher,
                cube: &cube.cube,
            })?;
        }
    }
    Ok(found)
}

/// Returns the matchers of the route at a position, or none if there is no such route.
fn cubes_at<'c, 'a>(cubes: &'c [Vec<MatcherCube<'a>>], position: usize) -> &'c [MatcherCube<'a>]
    ensures { result.now ≡ cubes_at cubes.now position }
{
    if position < cubes.len() {
        cubes[position].as_slice()
    } else {
        &[]
    }
}
