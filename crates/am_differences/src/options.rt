//! The options of routes that differ.

ghost use Rattle.std.specs.Prelude.{◌≡◌, IfOk};
ghost use Rattle.serde_json.specs.View.{view};
ghost use Rattle.am_config.specs.RouteOptions.{options_view};
ghost use Rattle.am_config.specs.ConfigFile.{options_of};
ghost use Rattle.am_config.specs.RouteView.{route_view};
ghost use Rattle.am_differences.specs.Options.{option_at, option_name, have_same_option};
ghost use Rattle.am_differences.specs.Options.{differing_options, options_of_pairs, same_option};

use crate::same_value;
use am_config::{Route, RouteOptions};
use serde_json::Value;
use std::alloc::{AllocError, Global};

/// The number of options that a route has.
pub const OPTIONS: usize = 6;

/// The name of the option at a position, from 0.
pub fn option_name(position: usize) -> &'static str
    ensures name { result.now ≡ option_name position }
{
    match position {
        0 => "group_by",
        1 => "group_wait",
        2 => "group_interval",
        3 => "repeat_interval",
        4 => "mute_time_intervals",
        _ => "active_time_intervals",
    }
}

/// The value of the option at a position.
fn option_at(position: usize, options: &RouteOptions) -> &Value
    ensures { view result.now ≡ option_at position (options_view options.now) }
{
    match position {
        0 => &options.group_by,
        1 => &options.group_wait,
        2 => &options.group_interval,
        3 => &options.repeat_interval,
        4 => &options.mute_time_intervals,
        _ => &options.active_time_intervals,
    }
}

/// Returns the positions of the options in which the routes of some pair differ. Fails only if
/// memory runs out.
pub fn differing_options(
    alloc: Global,
    pairs: &[(&Route, &Route)],
) -> Result<Vec<usize>, AllocError>
    ensures differing { IfOk result (λ found.
        found.items ≡ differing_options (options_of_pairs pairs.now)) }
{
    let mut found = Vec::new(alloc);
    for position in 0..OPTIONS {
        if !have_same_option(pairs, position) {
            found.push(position)?;
        }
    }
    Ok(found)
}

/// Whether the routes of each pair have the same value for the option at a position.
fn have_same_option(pairs: &[(&Route, &Route)], position: usize) -> bool
    ensures { result ≡ have_same_option (options_of_pairs pairs.now) position }
{
    pairs
        .iter()
        .all(|pair| same_option(position, pair.0, pair.1))
}

fn same_option(position: usize, one: &Route, other: &Route) -> bool
    ensures { result ≡ same_option position (options_of (route_view one.now))
        (options_of (route_view other.now)) }
{
    same_value(
        option_at(position, one.options()),
        option_at(position, other.options()),
    )
}
