//! The time intervals on which it depends whether an alert is muted.

ghost use Rattle.std.specs.Prelude.{◌≡◌, ℕ, [], false, fold, map, IfOk, OnOk, Some};
ghost use Rattle.serde_json.specs.View.{view};
ghost use Rattle.am_json.specs.Json.{items_in_field};
ghost use Rattle.am_config.specs.ConfigView.{config_view};
ghost use Rattle.am_config.specs.RouteView.{route_view};
ghost use Rattle.am_report_texts.specs.EachOnce.{each_once, with_text};
ghost use Rattle.am_alerts.specs.Intervals.{route_intervals, texts_in};
ghost use Rattle.am_alerts.specs.MutingRoutes.{intervals_among, intervals_at};
ghost use Rattle.am_alerts.specs.RouteEnds.{ends_of};

use crate::route_ends::RouteEnds;
use am_config::{Config, Route};
use am_report_texts::push_new;
use serde_json::Value;
use std::alloc::{AllocError, Global};

/// A route that has time intervals, and the alerts that end at it.
#[derive(Clone, Copy, Drop)]
pub(crate) struct MutingRoute<'o> {
    pub(crate) route: &'o Route,
    pub(crate) ends: &'o RouteEnds,
}

/// Returns those of the routes at which alerts end that have time intervals. They are mostly few,
/// and there may be many alerts. Fails only if memory runs out.
pub(crate) fn muting_routes<'o>(
    alloc: Global,
    config: &'o Config,
    rows: &'o [RouteEnds],
) -> Result<Vec<MutingRoute<'o>>, AllocError>
    ensures { IfOk result (λ muting. (alert : ℕ) → intervals_at muting.items alert
        ≡ intervals_among (config_view config.now) (ends_of rows.now alert)) }
{
    let mut muting = Vec::new(alloc);
    for ends in rows {
        if let Some(route) = config.at(&ends.path) {
            if has_intervals(route) {
                muting.push(MutingRoute { route, ends })?;
            }
        }
    }
    Ok(muting)
}

/// Whether a route has time intervals, or values that may be names of some.
fn has_intervals(route: &Route) -> bool
    ensures { result ≡ false → route_intervals (route_view route.now) ≡ [] }
{
    let options = route.options();
    !items_in(&options.mute_time_intervals).is_empty()
        || !items_in(&options.active_time_intervals).is_empty()
}

/// Returns the names of the time intervals of those routes at which the alert at a position ends,
/// each once. Fails only if memory runs out.
pub(crate) fn intervals_of<'a>(
    alloc: Global,
    muting: &[MutingRoute<'a>],
    alert: usize,
) -> Result<Vec<&'a str>, AllocError>
    ensures { IfOk result (λ names.
        map (λ n. n.now) names.items ≡ each_once (intervals_at muting.now alert)) }
{
    let mut names = Vec::new(alloc);
    for one in muting {
        if one.ends.has(alert) {
            let options = one.route.options();
            push_texts(&options.mute_time_intervals, &mut names)?;
            push_texts(&options.active_time_intervals, &mut names)?;
        }
    }
    Ok(names)
}

/// Adds the texts in an array that are not among the names yet.
fn push_texts<'a>(value: &'a Value, names: &mut Vec<&'a str>) -> Result<(), AllocError>
    ensures { OnOk result (map (λ n. n.now) names.new.items
        ≡ fold with_text (map (λ n. n.now) names.old.items) (texts_in (view value.now))) }
{
    let items = items_in(value);
    for item in items {
        if let Some(text) = item.as_str() {
            push_new(text, names)?;
        }
    }
    Ok(())
}

/// The items of an array. Any other value has none.
fn items_in(value: &Value) -> &[Value]
    ensures { map view result.now ≡ items_in_field (Some (view value.now)) }
{
    match value.as_array() {
        Some(items) => items.as_slice(),
        None => &[],
    }
}
