//! Routing: which routes handle an alert, and at which receivers it ends.

ghost use Rattle.std.specs.Prelude.{◌≡◌, ◌<◌, ◌≤◌, ◌+◌, ◌++◌, length, map, IfOk, OnOk};
ghost use Rattle.std.specs.List.{filter_map};
ghost use Rattle.am_labels.specs.Matcher.{all_hold};
ghost use Rattle.am_config.specs.declared.limits.TheConstants.{MAX_LEVELS, MAX_ROUTES};
ghost use Rattle.am_config.specs.ConfigFile.{matchers_of, routes_of, route_levels, routes_levels};
ghost use Rattle.am_config.specs.ConfigFile.{route_count, routes_count};
ghost use Rattle.am_config.specs.ConfigView.{config_view};
ghost use Rattle.am_config.specs.RouteView.{route_view};
ghost use Rattle.am_eval.specs.Routing.{ends, ends_at, children_seen, ends_tried, receivers};
ghost use Rattle.am_eval.specs.Routing.{receiver_at};

use am_config::{Config, Path, Route};
use am_universe::LabelSet;
use std::alloc::{AllocError, Global};

/// Returns the paths of the routes that handle an alert with these labels, in order.
///
/// An alert enters at the top-level route. The children of a route that matches are tried in order,
/// up to the first that matches and has no `continue`. If no child matches, the route handles the
/// alert itself (Alertmanager configuration reference 0.25, `<route>`). Fails only if memory runs
/// out.
pub fn ends(alloc: Global, config: &Config, set: &LabelSet) -> Result<Vec<Path>, AllocError>
    ensures ends { IfOk result (λ found. found.items ≡ ends set.now (config_view config.now)) }
{
    let mut found = Vec::new(alloc);
    add_ends(alloc, config.root(), Path::root(), set, &mut found)?;
    Ok(found)
}

/// Adds the ends at a route and below it, and returns whether the route matches.
#[cycle(ends)]
fn add_ends(
    alloc: Global,
    route: &Route,
    path: Path,
    set: &LabelSet,
    found: &mut Vec<Path>,
) -> Result<bool, AllocError>
    requires room { length path + route_levels (route_view route.now) ≤ MAX_LEVELS }
    requires few { route_count (route_view route.now) ≤ MAX_ROUTES }
    ensures matches { IfOk result (λ matches.
        matches ≡ all_hold set.now (matchers_of (route_view route.now))) }
    ensures added { OnOk result (found.new.items ≡ found.old.items
        ++ map (λ below. path ++ below) (ends_at set.now (route_view route.now))) }
{
    if !route.matchers().matches(alloc, set)? {
        return Ok(false);
    }
    let before = found.len();
    add_ends_of_children(alloc, route.routes(), path, set, found)?;
    if found.len() == before {
        found.push(path)?;
    }
    Ok(true)
}

/// Adds the ends at and below the children that are tried.
#[cycle(ends)]
fn add_ends_of_children(
    alloc: Global,
    children: &[Route],
    path: Path,
    set: &LabelSet,
    found: &mut Vec<Path>,
) -> Result<(), AllocError>
    requires room { length path + 1 + routes_levels (routes_of (map route_view children.now))
        ≤ MAX_LEVELS }
    requires few { routes_count (routes_of (map route_view children.now)) < MAX_ROUTES }
    ensures added { OnOk result (found.new.items ≡ found.old.items
        ++ map (λ below. path ++ below)
        (ends_tried (children_seen set.now 0 (routes_of (map route_view children.now))))) }
{
    for (position, child) in children.iter().enumerate() {
        let matches = add_ends(alloc, child, path.child(position as u16), set, found)?;
        if matches && !child.continues() {
            break;
        }
    }
    Ok(())
}

/// Returns the receivers at which an alert with these labels ends: that of each end, in order.
///
/// A receiver is given by its position, and occurs twice if two ends have it. Fails only if memory
/// runs out.
pub fn receivers_of(
    alloc: Global,
    config: &Config,
    set: &LabelSet,
) -> Result<Vec<usize>, AllocError>
    ensures receivers { IfOk result (λ found.
        found.items ≡ receivers set.now (config_view config.now)) }
{
    let paths = ends(alloc, config, set)?;
    receivers_at(alloc, config, paths.as_slice())
}

/// The receivers of the routes at these paths, in order.
fn receivers_at(alloc: Global, config: &Config, paths: &[Path]) -> Result<Vec<usize>, AllocError>
    ensures { IfOk result (λ found.
        found.items ≡ filter_map (receiver_at (config_view config.now)) paths.now) }
{
    let mut found = Vec::new(alloc);
    for path in paths {
        if let Some(route) = config.at(path) {
            found.push(route.receiver())?;
        }
    }
    Ok(found)
}
