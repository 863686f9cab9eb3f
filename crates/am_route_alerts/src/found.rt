//! Which alerts end at each route that is asked about.

ghost use Rattle.std.specs.Prelude.{◌≡◌, IfOk, map, option_copied, option_map};
ghost use Rattle.std.specs.List.{AllZip, filter};
ghost use Rattle.am_config.specs.ConfigView.{config_view};
ghost use Rattle.am_config.specs.RoutePaths.{all_routes};
ghost use Rattle.am_eval.specs.Reaching.{IsSetOf};
ghost use Rattle.am_lint.specs.Table.{KnowsRoutes, table_space, table_config, IsRoute};
ghost use Rattle.am_route_alerts.specs.EndMatchers.{IsEnds};
ghost use Rattle.am_route_alerts.specs.MatcherCubes.{AreCubesOfRoutes};
ghost use Rattle.am_route_alerts.specs.RouteAlerts.{is_asked, are_asked, AreRouteAlerts};
ghost use Rattle.am_route_alerts.specs.FoundView.{ends_view, route_alerts_view};

use crate::end_matchers::{EndMatchers, end_matchers};
use crate::matcher_cubes::{MatcherCube, cubes_of_routes};
use am_config::{Config, Path};
use am_first_sets::{Budget, Unfinished, UsedUp};
use am_labels::Space;
use am_lint::Table;
use am_universe::Universe;
use std::alloc::{AllocError, AllocFailed, Global};

/// A route, and which alerts end there.
#[derive(Drop)]
pub struct RouteAlerts<'a> {
    /// The path of the route.
    pub path: Path,
    /// The position of its receiver.
    pub receiver: usize,
    /// Which alerts end there, or `None` if none does.
    pub ends: Option<EndMatchers<'a>>,
}

/// Why it was not found which alerts end at some routes.
#[derive(Drop)]
pub enum RoutesFault {
    /// Memory ran out.
    Memory,
    /// The budget was used up at the route at this path.
    UsedUp(Path, UsedUp),
}

impl From<AllocError> for RoutesFault {
    fn from(_error: AllocError) -> RoutesFault {
        RoutesFault::Memory
    }
}

impl<T: Drop> From<AllocFailed<T>> for RoutesFault {
    fn from(_error: AllocFailed<T>) -> RoutesFault {
        RoutesFault::Memory
    }
}

/// Finds which label sets of a space end at each route of a configuration, in preorder. If
/// receivers are given, by their positions, only the routes that have one of them are looked at.
/// `None` stands for all receivers. Fails if the budget is used up or memory runs out.
pub fn alerts_of_routes<'a>(
    alloc: Global,
    space: &Space,
    config: &'a Config,
    receivers: Option<&[usize]>,
    budget: &mut Budget,
) -> Result<Vec<RouteAlerts<'a>>, RoutesFault>
    ensures alerts { IfOk result (λ found. AreRouteAlerts (IsSetOf space.now)
        (config_view config.now) (option_copied receivers.entry)
        (map route_alerts_view found.items)) }
{
    let table = Table::of(alloc, space, config)?;
    let cubes = cubes_of_routes(alloc, space.universe(), config)?;
    let mut found = Vec::new(alloc);
    for route in &table.routes {
        if is_asked(receivers, route.receiver) {
            let cubes = cubes.as_slice();
            budget.begin_item();
            found.push(RouteAlerts {
                path: route.path,
                receiver: route.receiver,
                ends: ends_at(alloc, space.universe(), &table, cubes, &route.path, budget)?,
            })?;
        }
    }
    Ok(found)
}

/// Finds which label sets end at the route at a path, as [`end_matchers`] does.
fn ends_at<'a>(
    alloc: Global,
    universe: &Universe,
    table: &Table<'_>,
    cubes: &[Vec<MatcherCube<'a>>],
    path: &Path,
    budget: &mut Budget,
) -> Result<Option<EndMatchers<'a>>, RoutesFault>
    requires knows { KnowsRoutes table.now }
    requires cubes { AreCubesOfRoutes (table_space table.now).labels (table_config table.now)
        cubes.now }
    requires there { IsRoute (table_config table.now) path.now }
    ensures ends { IfOk result (λ found. IsEnds (IsSetOf (table_space table.now))
        (table_config table.now) path.now (option_map ends_view found)) }
{
    match end_matchers(alloc, universe, table, cubes, path, budget) {
        Ok(found) => Ok(found),
        Err(Unfinished::Memory) => Err(RoutesFault::Memory),
        Err(Unfinished::UsedUp(evidence)) => Err(RoutesFault::UsedUp(*path, evidence)),
    }
}

/// Whether a receiver is one of some, if some are given.
fn is_asked(receivers: Option<&[usize]>, receiver: usize) -> bool
    ensures { result ≡ is_asked (option_copied receivers.entry) receiver }
{
    match receivers {
        Some(receivers) => receivers.iter().any(|other| *other == receiver),
        None => true,
    }
}
