//! The outcomes of alerts: at which routes they end, what these do with them, and whether a silence
//! or a list of matchers matches them.

ghost use Rattle.std.specs.Prelude.{◌≡◌, ◌∷◌, List, find, map, option_map, IfOk};
ghost use Rattle.am_universe.specs.Universe.{Label, sizes};
ghost use Rattle.am_universe.specs.Choice.{IsWhole};
ghost use Rattle.am_universe.specs.LabelSet.{label_set_of};
ghost use Rattle.am_config.specs.ConfigFile.{receiver_of};
ghost use Rattle.am_config.specs.ConfigView.{config_view};
ghost use Rattle.am_config.specs.RouteView.{route_view};
ghost use Rattle.am_eval.specs.Routing.{ends, receivers};
ghost use Rattle.am_report_texts.specs.ReceiverNames.{receiver_names};
ghost use Rattle.am_outcomes.specs.Configurations.{silences_view};
ghost use Rattle.am_outcomes.specs.Handling.{has_receiver, route_pairs};
ghost use Rattle.am_outcomes.specs.Handling.{same_names, without_first};
ghost use Rattle.am_outcomes.specs.Outcomes.{is_silenced_by, one_if, outcome_of};
ghost use Rattle.am_outcomes.specs.OutcomesView.{lists_view, pairs_view, routes_view};
ghost use Rattle.am_outcomes.specs.Routers.{AreRoutedOver, IsRouterOver, router_config};
ghost use Rattle.am_outcomes.specs.Routers.{routed_configurations};

use crate::configs::ActiveSilence;
use crate::routers::{Routed, Router};
use am_config::{Config, Path, Route};
use am_differences::differing_options;
use am_eval::{ends, receivers_of};
use am_report_texts::receiver_name;
use am_universe::{Choice, LabelSet, Universe, set_of};
use std::alloc::{AllocError, Global};

/// Returns the outcome of the alert of a whole choice. Fails only if memory runs out.
pub(crate) fn outcome_of(
    alloc: Global,
    routed: &Routed<'_>,
    universe: &Universe,
    choice: &Choice,
) -> Result<Vec<Vec<usize>>, AllocError>
    requires whole { IsWhole (sizes universe.now) choice.now }
    requires over { AreRoutedOver universe.now routed.now }
    ensures { IfOk result (λ lists. lists_view lists.items
        ≡ outcome_of (routed_configurations routed.now) (label_set_of universe.now choice.now)) }
{
    match routed {
        Routed::One(router) => Ok(vec![in alloc; receivers_by(alloc, router, choice)?]?),
        Routed::Pair(old, new) => {
            let before = old.handling_routes(alloc, choice)?;
            let after = new.handling_routes(alloc, choice)?;
            let (before, after) = (before.as_slice(), after.as_slice());
            let old_receivers = receivers_of_routes(alloc, before)?;
            let new_receivers = receivers_of_routes(alloc, after)?;
            let pairs = route_pairs(alloc, old.config, before, new.config, after)?;
            let options = differing_options(alloc, pairs.as_slice())?;
            Ok(vec![in alloc; old_receivers, new_receivers, options]?)
        }
        Routed::Silenced(router, silences) => {
            let receivers = receivers_by(alloc, router, choice)?;
            let set = set_of(alloc, universe, choice)?;
            let silenced = is_silenced_by(alloc, silences, &set)?;
            Ok(vec![in alloc; receivers, one_if(alloc, silenced)?]?)
        }
        Routed::Ends(config) => {
            let set = set_of(alloc, universe, choice)?;
            receivers_and_ends(alloc, config, &set)
        }
        Routed::Matched(matchers) => {
            let set = set_of(alloc, universe, choice)?;
            let matched = matchers.matches(alloc, &set)?;
            Ok(vec![in alloc; one_if(alloc, matched)?]?)
        }
    }
}

/// Returns the receivers of the alert of a whole choice, by their positions.
fn receivers_by(
    alloc: Global,
    router: &Router<'_>,
    choice: &Choice,
) -> Result<Vec<usize>, AllocError>
    ensures { IfOk result (λ found. (u : List Label) → IsWhole (sizes u) choice.now
        → IsRouterOver u router.now
        → found.items ≡ receivers (label_set_of u choice.now) (router_config router.now)) }
{
    let routes = router.handling_routes(alloc, choice)?;
    receivers_of_routes(alloc, routes.as_slice())
}

/// Returns one item if something is so, and none if not.
fn one_if(alloc: Global, is_so: bool) -> Result<Vec<usize>, AllocError>
    ensures { IfOk result (λ list. list.items ≡ one_if is_so) }
{
    if is_so {
        Ok(vec![in alloc; 0]?)
    } else {
        Ok(Vec::new(alloc))
    }
}

/// Returns the list of the receivers of an alert, and then the path of each of its ends.
fn receivers_and_ends(
    alloc: Global,
    config: &Config,
    set: &LabelSet,
) -> Result<Vec<Vec<usize>>, AllocError>
    ensures { IfOk result (λ lists. lists_view lists.items
        ≡ receivers set.now (config_view config.now) ∷ ends set.now (config_view config.now)) }
{
    let paths = ends(alloc, config, set)?;
    let mut lists = vec![in alloc; receivers_of(alloc, config, set)?]?;
    for path in paths.as_slice() {
        lists.push(positions_of(alloc, path)?)?;
    }
    Ok(lists)
}

/// Returns the positions of a path, from the top down.
fn positions_of(alloc: Global, path: &Path) -> Result<Vec<usize>, AllocError>
    ensures { IfOk result (λ positions. positions.items ≡ path.now) }
{
    let mut positions = Vec::with_capacity(alloc, path.len())?;
    for position in path.steps() {
        positions.push(usize::from(*position))?;
    }
    Ok(positions)
}

fn is_silenced_by(
    alloc: Global,
    silences: &[ActiveSilence<'_>],
    set: &LabelSet,
) -> Result<bool, AllocError>
    ensures { IfOk result (λ silenced.
        silenced ≡ is_silenced_by set.now (silences_view silences.now)) }
{
    for silence in silences {
        if silence.matchers.matches(alloc, set)? {
            return Ok(true);
        }
    }
    Ok(false)
}

/// Returns the receivers of some routes, by their positions.
fn receivers_of_routes(alloc: Global, routes: &[&Route]) -> Result<Vec<usize>, AllocError>
    ensures { IfOk result (λ found.
        found.items ≡ map (λ r. receiver_of (route_view r.now)) routes.now) }
{
    let mut found = Vec::with_capacity(alloc, routes.len())?;
    for route in routes {
        found.push(route.receiver())?;
    }
    Ok(found)
}

/// Whether receivers have the same names under two configurations.
pub(crate) fn have_same_names(old: &Config, before: &[usize], new: &Config, after: &[usize]) -> bool
    ensures { result ≡ same_names (receiver_names (config_view old.now) before.now)
        (receiver_names (config_view new.now) after.now) }
{
    if before.len() != after.len() {
        return false;
    }
    for i in 0..before.len() {
        if receiver_name(old, before[i]) != receiver_name(new, after[i]) {
            return false;
        }
    }
    true
}

/// Returns pairs of routes of an old and a new configuration: each old route with the first new one
/// that has a receiver of the same name and is in no pair before.
fn route_pairs<'a>(
    alloc: Global,
    old: &Config,
    before: &[&'a Route],
    new: &Config,
    after: &[&'a Route],
) -> Result<Vec<(&'a Route, &'a Route)>, AllocError>
    ensures { IfOk result (λ pairs. pairs_view pairs.items
        ≡ route_pairs (config_view old.now) (config_view new.now) (routes_view before.now)
        (routes_view after.now)) }
{
    let mut pairs = Vec::new(alloc);
    let mut left = after.to_vec(alloc)?;
    for route in before {
        let name = receiver_name(old, route.receiver());
        if let Some(other) = first_with(new, name, left.as_slice()) {
            pairs.push((*route, other))?;
            left = without_first(alloc, new, name, left.as_slice())?;
        }
    }
    Ok(pairs)
}

/// Returns the first route that has a receiver of this name.
fn first_with<'a>(config: &Config, name: &str, routes: &[&'a Route]) -> Option<&'a Route>
    ensures { option_map (λ r. route_view r.now) result
        ≡ find (has_receiver (config_view config.now) name.now) (routes_view routes.now) }
{
    for route in routes {
        if name == receiver_name(config, route.receiver()) {
            return Some(*route);
        }
    }
    None
}

/// Returns routes without the first one that has a receiver of this name.
fn without_first<'a>(
    alloc: Global,
    config: &Config,
    name: &str,
    routes: &[&'a Route],
) -> Result<Vec<&'a Route>, AllocError>
    ensures { IfOk result (λ left. routes_view left.items
        ≡ without_first (has_receiver (config_view config.now) name.now)
        (routes_view routes.now)) }
{
    let mut left = Vec::with_capacity(alloc, routes.len())?;
    let mut is_passed = false;
    for route in routes {
        if !is_passed && name == receiver_name(config, route.receiver()) {
            is_passed = true;
        } else {
            left.push(*route)?;
        }
    }
    Ok(left)
}
