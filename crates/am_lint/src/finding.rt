//! What is found of all routes and receivers.
//!
//! `lint` calls `found_routes` over a space for ordinary alerts, whose values are printable ASCII.
//! For the routes at which no ordinary alert ends it calls `look_further`, over a space for all
//! alerts. Both spaces are complete for the routes and for the impossible lists. So for each alert
//! some choice meets exactly the same literals, and each choice is an alert. By the laws of this
//! crate, what is found over the spaces holds for all alerts.

ghost use Rattle.std.specs.Prelude.{◌≡◌, IfOk, OnOk, map, length, None};
ghost use Rattle.std.specs.List.{AllByRecursion, AllZip, range_with_len};
ghost use Rattle.am_config.specs.ConfigView.{config_view};
ghost use Rattle.am_config.specs.RoutePaths.{all_routes};
ghost use Rattle.am_lint.specs.FoundView.{IsFoundIn, IsLookedAt, IsSameButEvery, receiver_finding};
ghost use Rattle.am_lint.specs.Table.{KnowsRoutes, table_space, table_config, IsRoute};

use crate::arrival::arrival_of;
use crate::found::{FoundRoute, ReceiverFinding, receiver_finding};
use crate::table::Table;
use am_config::Config;
use am_first_sets::Budget;
use am_labels::Space;
use std::alloc::{AllocError, Global};

/// Finds how the label sets of a space arrive at each route of a configuration, in preorder.
/// `every` is `None` in each. An arrival is undecided if the budget is used up. Fails only if
/// memory runs out.
pub fn found_routes(
    alloc: Global,
    space: &Space,
    config: &Config,
    budget: &mut Budget,
) -> Result<Vec<FoundRoute>, AllocError>
    ensures found { IfOk result (λ found. AllZip (IsFoundIn space.now (config_view config.now))
        (all_routes (config_view config.now)) found.items) }
    ensures once { IfOk result (λ found. AllByRecursion (λ route. route.every ≡ None) found.items) }
{
    let table = Table::of(alloc, space, config)?;
    let mut found = Vec::with_capacity(alloc, table.routes.len())?;
    for route in &table.routes {
        found.push(FoundRoute {
            path: route.path,
            receiver: route.receiver,
            ordinary: arrival_of(alloc, &table, &route.path, budget)?,
            every: None,
        })?;
    }
    Ok(found)
}

/// For each route at which no label set of the first space ends, finds how those of another space
/// arrive there, and sets its `every`. An arrival is undecided if the budget is used up. Fails only
/// if memory runs out; then some of them may be set.
pub fn look_further(
    alloc: Global,
    space: &Space,
    config: &Config,
    found: &mut [FoundRoute],
    budget: &mut Budget,
) -> Result<(), AllocError>
    requires routes { AllByRecursion (λ route. IsRoute (config_view config.now) route.path)
        found.old }
    ensures same { OnOk result (AllZip IsSameButEvery found.old found.new) }
    ensures looked { OnOk result (AllByRecursion (λ route. IsLookedAt space.now
        (config_view config.now) route.path route.ordinary route.every) found.new) }
{
    let table = Table::of(alloc, space, config)?;
    for i in 0..found.len() {
        look_further_at(alloc, &table, &mut found[i], budget)?;
    }
    Ok(())
}

fn look_further_at(
    alloc: Global,
    table: &Table<'_>,
    route: &mut FoundRoute,
    budget: &mut Budget,
) -> Result<(), AllocError>
    requires knows { KnowsRoutes table.now }
    requires there { IsRoute (table_config table.now) route.old.path }
    ensures same { OnOk result (IsSameButEvery route.old route.new) }
    ensures looked { OnOk result (IsLookedAt (table_space table.now) (table_config table.now)
        route.new.path route.new.ordinary route.new.every) }
{
    if route.lacks_ordinary_end() {
        route.every = Some(arrival_of(alloc, table, &route.path, budget)?);
    }
    Ok(())
}

/// Finds what is wrong with each receiver of a configuration, in declared order, from what was
/// found of the routes. The item of a receiver is `None` if an ordinary alert goes to it. Fails
/// only if memory runs out.
pub fn found_receivers(
    alloc: Global,
    config: &Config,
    routes: &[FoundRoute],
) -> Result<Vec<Option<ReceiverFinding>>, AllocError>
    ensures found { IfOk result (λ found. found.items ≡ map (receiver_finding routes.now)
        (range_with_len 0 (length (config_view config.now).receivers))) }
{
    let mut found = Vec::with_capacity(alloc, config.receivers())?;
    for i in 0..config.receivers() {
        found.push(receiver_finding(routes, i))?;
    }
    Ok(found)
}
