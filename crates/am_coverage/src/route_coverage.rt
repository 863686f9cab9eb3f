//! Whether label sets reach each route.

ghost use Rattle.std.specs.Prelude.{◌≡◌, map, IfOk};
ghost use Rattle.std.specs.List.{AllByRecursion};
ghost use Rattle.am_universe.specs.Universe.{sizes};
ghost use Rattle.am_config.specs.ConfigView.{config_view};
ghost use Rattle.am_config.specs.RoutePaths.{paths_of};
ghost use Rattle.am_coverage.specs.FirstEnds.{is_entered, coverage_by};
ghost use Rattle.am_coverage.specs.CoverageView.{route_found, IsShownRoute};

use crate::coverage::RouteCoverage;
use crate::first_ends::{FirstEnd, first_ends};
use am_config::{Config, Path};
use am_labels::Space;
use std::alloc::{AllocError, Global};

/// A route, by its path, and its coverage.
#[derive(Clone, Copy, Debug)]
pub struct RouteFound {
    /// The path of the route.
    pub path: Path,
    /// Whether label sets reach it.
    pub coverage: RouteCoverage,
}

/// Finds for each route of a configuration whether a label set of a space ends there or below it,
/// in preorder: each route before those below it, and these before its next sibling. Fails only if
/// memory runs out.
///
/// There is one search for each route, for the first label set that ends there. Whether a dead
/// route is entered follows from the searches for the routes below it.
pub fn routes_covered(
    alloc: Global,
    space: &Space,
    config: &Config,
) -> Result<Vec<RouteFound>, AllocError>
    ensures routes { IfOk result (λ found. found.items
        ≡ map (route_found space.now (config_view config.now))
        (paths_of (config_view config.now))) }
    ensures shown { IfOk result (λ found.
        AllByRecursion (IsShownRoute (sizes space.now.labels)) found.items) }
{
    let ends = first_ends(alloc, space, config)?;
    let mut found = Vec::with_capacity(alloc, ends.len())?;
    for end in &ends {
        found.push(RouteFound {
            path: end.path,
            coverage: coverage_by(ends.as_slice(), end),
        })?;
    }
    Ok(found)
}

/// Returns the coverage of a route, from the first choice that ends there and those that end at
/// each route.
fn coverage_by(ends: &[FirstEnd], end: &FirstEnd) -> RouteCoverage
    ensures coverage { result ≡ coverage_by ends.now end.now }
{
    match end.choice {
        Some(choice) => RouteCoverage::Live(choice),
        None => {
            if is_entered(ends, &end.path) {
                RouteCoverage::Entered
            } else {
                RouteCoverage::NeverEntered
            }
        }
    }
}

/// Whether some label set ends at a route or below it, from the first choice that ends at each
/// route.
fn is_entered(ends: &[FirstEnd], path: &Path) -> bool
    ensures entered { result ≡ is_entered ends.now path.now }
{
    ends.iter()
        .any(|end| end.choice.is_some() && end.path.leads_through(path))
}
