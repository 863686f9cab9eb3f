//! Routing of all alerts at once: each route is looked at once, with all alerts that are tried
//! there.

ghost use Rattle.std.specs.Prelude.{◌≡◌, ◌<◌, ◌≤◌, ◌+◌, ◌++◌, length, map, IfOk, OnOk};
ghost use Rattle.am_labels.specs.Matcher.{all_hold};
ghost use Rattle.am_config.specs.declared.limits.TheConstants.{MAX_LEVELS, MAX_ROUTES};
ghost use Rattle.am_config.specs.ConfigFile.{matchers_of, routes_of, route_levels, routes_levels};
ghost use Rattle.am_config.specs.ConfigFile.{route_count, routes_count};
ghost use Rattle.am_config.specs.ConfigView.{config_view};
ghost use Rattle.am_config.specs.RouteView.{route_view};
ghost use Rattle.am_eval.specs.Routing.{ends, ends_at, children_seen, ends_tried};
ghost use Rattle.am_alerts.specs.AlertLabels.{Keeps};
ghost use Rattle.am_alerts.specs.AlertLists.{ends_nowhere};
ghost use Rattle.am_alerts.specs.RouteEnds.{AddsEnds, AreEnds};

use crate::alert_labels::AlertLabels;
use crate::alert_lists::without;
use crate::route_ends::RouteEnds;
use am_config::{Config, Path, Route};
use std::alloc::{AllocError, Global};

/// Returns which alerts end at each route, as [`am_eval::ends`] says for one. Fails only if memory
/// runs out.
pub(crate) fn ends_of_alerts(
    alloc: Global,
    config: &Config,
    labels: &AlertLabels<'_>,
) -> Result<Vec<RouteEnds>, AllocError>
    ensures { IfOk result (λ found.
        AreEnds labels.now (λ s. ends s (config_view config.now)) found.items) }
{
    let mut found = Vec::new(alloc);
    let all = labels.all(alloc)?;
    add_ends(
        alloc,
        labels,
        config.root(),
        Path::root(),
        all.as_slice(),
        &mut found,
    )?;
    Ok(found)
}

/// Adds for each of some alerts its ends at a route and below it, and returns which of these alerts
/// the route matches.
#[cycle(ends)]
fn add_ends(
    alloc: Global,
    labels: &AlertLabels<'_>,
    route: &Route,
    path: Path,
    among: &[bool],
    found: &mut Vec<RouteEnds>,
) -> Result<Vec<bool>, AllocError>
    requires room { length path + route_levels (route_view route.now) ≤ MAX_LEVELS }
    requires few { route_count (route_view route.now) ≤ MAX_ROUTES }
    requires count { length among.now ≡ length labels.now }
    ensures matched { IfOk result (λ matched. Keeps labels.now
        (λ s. all_hold s (matchers_of (route_view route.now))) among.now matched.items) }
    ensures added { OnOk result (AddsEnds labels.now among.now
        (λ s. map (λ below. path ++ below) (ends_at s (route_view route.now)))
        found.old.items found.new.items) }
{
    let matched = labels.matched(alloc, route.matchers(), among)?;
    let alerts = add_ends_of_children(
        alloc,
        labels,
        route.routes(),
        path,
        matched.as_slice(),
        found,
    )?;
    found.push(RouteEnds { path, alerts })?;
    Ok(matched)
}

/// Adds for each of some alerts its ends at and below the children that are tried, and returns
/// which of these alerts have none there.
#[cycle(ends)]
fn add_ends_of_children(
    alloc: Global,
    labels: &AlertLabels<'_>,
    children: &[Route],
    path: Path,
    among: &[bool],
    found: &mut Vec<RouteEnds>,
) -> Result<Vec<bool>, AllocError>
    requires room { length path + 1 + routes_levels (routes_of (map route_view children.now))
        ≤ MAX_LEVELS }
    requires few { routes_count (routes_of (map route_view children.now)) < MAX_ROUTES }
    requires count { length among.now ≡ length labels.now }
    ensures none { IfOk result (λ none. Keeps labels.now (λ s. ends_nowhere
        (ends_tried (children_seen s 0 (routes_of (map route_view children.now)))))
        among.now none.items) }
    ensures added { OnOk result (AddsEnds labels.now among.now (λ s. map (λ below. path ++ below)
        (ends_tried (children_seen s 0 (routes_of (map route_view children.now)))))
        found.old.items found.new.items) }
{
    let mut left = among.to_vec(alloc)?;
    let mut none = among.to_vec(alloc)?;
    for (position, child) in children.iter().enumerate() {
        let below = path.child(position as u16);
        let matched = add_ends(alloc, labels, child, below, left.as_slice(), found)?;
        none = without(alloc, none.as_slice(), matched.as_slice())?;
        if !child.continues() {
            left = without(alloc, left.as_slice(), matched.as_slice())?;
        }
    }
    Ok(none)
}
