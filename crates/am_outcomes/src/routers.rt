//! The routes that handle the alert of a choice, by the cubes of the routes.
//!
//! Very many choices are looked at. A cube tells of a choice at once whether the matchers of its
//! route match, and needs no label set.

ghost use Rattle.std.specs.Prelude.{◌≡◌, ◌++◌, List, IfOk, OnOk, map};
ghost use Rattle.am_universe.specs.Universe.{Label, sizes};
ghost use Rattle.am_universe.specs.Choice.{IsWhole};
ghost use Rattle.am_universe.specs.LabelSet.{label_set_of};
ghost use Rattle.am_labels.specs.Matcher.{all_hold};
ghost use Rattle.am_config.specs.ConfigFile.{matchers_of, routes_of};
ghost use Rattle.am_config.specs.ConfigView.{config_view};
ghost use Rattle.am_config.specs.RouteView.{route_view};
ghost use Rattle.am_first_sets.specs.RouteCubes.{AreCubesOf, AreCubesOfEach};
ghost use Rattle.am_outcomes.specs.Handling.{handlers_among, handlers_at, handling_routes};
ghost use Rattle.am_outcomes.specs.OutcomesView.{routes_view};
ghost use Rattle.am_outcomes.specs.Configurations.{configurations_of};
ghost use Rattle.am_outcomes.specs.Routers.{IsRouterOver, router_config, AreRoutedOver};
ghost use Rattle.am_outcomes.specs.Routers.{routed_configurations};

use crate::configs::{ActiveSilence, Configs};
use am_config::{Config, Route};
use am_first_sets::RouteCubes;
use am_labels::Matchers;
use am_universe::{Choice, Universe};
use std::alloc::{AllocError, Global};

/// A configuration, and the cubes of its routes.
#[derive(Drop)]
pub(crate) struct Router<'a> {
    pub(crate) config: &'a Config,
    pub(crate) cubes: RouteCubes,
}

impl<'a> Router<'a> {
    /// Makes the cubes of the routes of a configuration, over a universe. Fails only if memory runs
    /// out.
    pub(crate) fn of(
        alloc: Global,
        universe: &Universe,
        config: &'a Config,
    ) -> Result<Router<'a>, AllocError>
        ensures config { IfOk result (λ router. router_config router ≡ config_view config.now) }
        ensures over { IfOk result (IsRouterOver universe.now) }
    {
        Ok(Router {
            config,
            cubes: RouteCubes::of(alloc, universe, config.root())?,
        })
    }

    /// Returns the routes that handle the alert of a whole choice, in order. Fails only if memory
    /// runs out.
    pub(crate) fn handling_routes(
        &self,
        alloc: Global,
        choice: &Choice,
    ) -> Result<Vec<&'a Route>, AllocError>
        ensures { IfOk result (λ found. (u : List Label) → IsWhole (sizes u) choice.now
            → IsRouterOver u self.now → routes_view found.items
            ≡ handling_routes (label_set_of u choice.now) (router_config self.now)) }
    {
        let mut found = Vec::new(alloc);
        add_handlers(self.config.root(), &self.cubes, choice, &mut found)?;
        Ok(found)
    }
}

/// What decides the outcomes that are looked for, as in [`Configs`], with the cubes of the routes
/// whose ends are looked for again and again.
#[derive(Drop)]
pub(crate) enum Routed<'a> {
    One(Router<'a>),
    Pair(Router<'a>, Router<'a>),
    Silenced(Router<'a>, &'a [ActiveSilence<'a>]),
    Ends(&'a Config),
    Matched(&'a Matchers),
}

impl<'a> Routed<'a> {
    /// Makes the cubes of the routes, over a universe. Fails only if memory runs out.
    pub(crate) fn of(
        alloc: Global,
        universe: &Universe,
        configs: Configs<'a>,
    ) -> Result<Routed<'a>, AllocError>
        ensures configurations { IfOk result (λ routed.
            routed_configurations routed ≡ configurations_of configs.entry) }
        ensures over { IfOk result (AreRoutedOver universe.now) }
    {
        Ok(match configs {
            Configs::One(config) => Routed::One(Router::of(alloc, universe, config)?),
            Configs::Pair(old, new) => {
                let before = Router::of(alloc, universe, old)?;
                Routed::Pair(before, Router::of(alloc, universe, new)?)
            }
            Configs::Silenced(config, silences) => {
                Routed::Silenced(Router::of(alloc, universe, config)?, silences)
            }
            Configs::Ends(config) => Routed::Ends(config),
            Configs::Matched(matchers) => Routed::Matched(matchers),
        })
    }
}

/// Adds the routes that handle the alert of a whole choice, from a route on, and returns whether
/// the route matches. Fails only if memory runs out.
#[cycle(handlers)]
fn add_handlers<'a>(
    route: &'a Route,
    cubes: &RouteCubes,
    choice: &Choice,
    found: &mut Vec<&'a Route>,
) -> Result<bool, AllocError>
    ensures matches { IfOk result (λ matches. (u : List Label) → IsWhole (sizes u) choice.now
        → AreCubesOf u choice.now (route_view route.now) cubes.now
        → matches ≡ all_hold (label_set_of u choice.now) (matchers_of (route_view route.now))) }
    ensures added { OnOk result ((u : List Label) → IsWhole (sizes u) choice.now
        → AreCubesOf u choice.now (route_view route.now) cubes.now
        → routes_view found.new.items ≡ routes_view found.old.items
        ++ handlers_at (label_set_of u choice.now) (route_view route.now)) }
{
    if !cubes.cube.must(choice) {
        return Ok(false);
    }
    let before = found.len();
    add_handlers_among(route.routes(), cubes.routes.as_slice(), choice, found)?;
    if found.len() == before {
        found.push(route)?;
    }
    Ok(true)
}

/// Adds the routes that handle it at and below the children that are tried.
#[cycle(handlers)]
fn add_handlers_among<'a>(
    routes: &'a [Route],
    cubes: &[RouteCubes],
    choice: &Choice,
    found: &mut Vec<&'a Route>,
) -> Result<(), AllocError>
    ensures added { OnOk result ((u : List Label) → IsWhole (sizes u) choice.now
        → AreCubesOfEach u choice.now (routes_of (map route_view routes.now)) cubes.now
        → routes_view found.new.items ≡ routes_view found.old.items
        ++ handlers_among (label_set_of u choice.now) (routes_of (map route_view routes.now))) }
{
    for (i, child) in routes.iter().enumerate() {
        // There are cubes for each route.
        let Some(own) = cubes.get(i) else {
            break;
        };
        let matches = add_handlers(child, own, choice, found)?;
        if matches && !child.continues() {
            break;
        }
    }
    Ok(())
}
