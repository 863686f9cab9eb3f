//! What is found of routes and receivers, for every alert.
//!
//! A route that hands on is a note, since many routes only group their children. A dead route below
//! a dead route has no line of its own: it is dead too for the reason of the upper one.

ghost use Rattle.std.specs.Prelude.{◌≡◌, ◌≢◌, [], length, map, IfOk, IfErr, OnOk, IfSome};
ghost use Rattle.std.specs.List.{AllByRecursion};
ghost use Rattle.am_universe.specs.declared.kind.Kind.TheVariants as kinds;
ghost use Rattle.am_universe.specs.Universe.{sizes};
ghost use Rattle.am_classes.specs.declared.alphabet.Alphabet.TheVariants.{Unicode, Ascii};
ghost use Rattle.am_json.specs.Reading.{refusal_of};
ghost use Rattle.am_config.specs.ConfigView.{config_view};
ghost use Rattle.am_lint.specs.FoundView.{said_of, IsShown};
ghost use Rattle.am_lint.specs.LintLines.{report_lines};
ghost use Rattle.am_outcomes.specs.Configurations.{One};
ghost use Rattle.am_reports.specs.LintLines.{SaysOfAllRoutes};
ghost use Rattle.am_reports.specs.Made.{StandsForAll, IsMadeRefusal, IsRoutesRefusal};
ghost use Rattle.am_reports.specs.Made.{alphabet_over};

use crate::made::universe_for_routes;
use am_classes::Alphabet;
use am_config::Config;
use am_first_sets::Budget;
use am_labels::Space;
use am_lint::{FoundRoute, ReceiverFinding, found_receivers, found_routes, look_further};
use am_outcomes::Configs;
use am_universe::{Fault, Universe};
use std::alloc::{AllocError, Global};

/// What is found of the routes and receivers of a configuration.
#[derive(Drop)]
pub(crate) struct RouteFindings {
    /// It has the labels of the label sets that are shown.
    pub universe: Universe,
    pub routes: Vec<FoundRoute>,
    pub receivers: Vec<Option<ReceiverFinding>>,
}

/// Finds what is wrong with the routes and receivers of a configuration, for every alert over an
/// alphabet of a space that declares no label.
pub(crate) fn route_findings(
    alloc: Global,
    alphabet: Alphabet,
    space: &mut Space,
    config: &Config,
    budget: &mut Budget,
) -> Result<RouteFindings, Fault>
    requires { space.old.labels ≡ [] }
    ensures says { IfOk result (λ found. SaysOfAllRoutes alphabet space.old
        (config_view config.now) (map said_of found.routes.items) found.receivers.items
        (report_lines found.universe (config_view config.now) (map said_of found.routes.items)
        found.receivers.items)) }
    ensures shown { IfOk result (λ found. AllByRecursion
        (IsShown (sizes found.universe) (config_view config.now)) found.routes.items) }
    ensures each { IfOk result (λ found.
        length found.receivers.items ≡ length (config_view config.now).receivers) }
    ensures labels { OnOk result (space.new.labels ≡ []) }
    ensures impossible { OnOk result (space.new.impossible ≡ space.old.impossible) }
    ensures refused { IfErr result (λ fault. fault.kind ≢ kinds.Memory
        → IsRoutesRefusal alphabet space.old.impossible (config_view config.now) fault.place
        (refusal_of fault)) }
{
    let every = every_universe(alloc, alphabet, space, config)?;
    let ordinary = universe_for_routes(alloc, Alphabet::Ascii, space, Configs::One(config))?;
    match findings_over(alloc, space, config, ordinary, every, budget) {
        Ok(found) => Ok(found),
        Err(_) => Err(Fault::memory(alloc)),
    }
}

/// Makes a universe for every alert, unless only printable ASCII counts.
fn every_universe(
    alloc: Global,
    alphabet: Alphabet,
    space: &Space,
    config: &Config,
) -> Result<Option<Universe>, Fault>
    requires { space.now.labels ≡ [] }
    ensures stands { IfOk result (λ universe. IfSome universe
        (StandsForAll Unicode space.now.impossible (One (config_view config.now)))) }
    ensures over { IfOk result (λ universe. alphabet_over universe ≡ alphabet) }
    ensures refused { IfErr result (λ fault. fault.kind ≢ kinds.Memory
        → IsMadeRefusal alphabet space.now.impossible (One (config_view config.now)) fault.place
        (refusal_of fault)) }
{
    match alphabet {
        Alphabet::Ascii => Ok(None),
        Alphabet::Unicode => {
            let configs = Configs::One(config);
            Ok(Some(universe_for_routes(alloc, alphabet, space, configs)?))
        }
    }
}

/// Finds the same over a universe for ordinary alerts and, if others count, one for every alert.
/// The impossible lists are those of `space`, which declares no label at the end.
fn findings_over(
    alloc: Global,
    space: &mut Space,
    config: &Config,
    ordinary: Universe,
    every: Option<Universe>,
    budget: &mut Budget,
) -> Result<RouteFindings, AllocError>
    requires ordinary { StandsForAll Ascii space.old.impossible (One (config_view config.now))
        ordinary }
    requires every { IfSome every
        (StandsForAll Unicode space.old.impossible (One (config_view config.now))) }
    ensures says { IfOk result (λ found. SaysOfAllRoutes (alphabet_over every) space.old
        (config_view config.now) (map said_of found.routes.items) found.receivers.items
        (report_lines found.universe (config_view config.now) (map said_of found.routes.items)
        found.receivers.items)) }
    ensures shown { IfOk result (λ found. AllByRecursion
        (IsShown (sizes found.universe) (config_view config.now)) found.routes.items) }
    ensures each { IfOk result (λ found.
        length found.receivers.items ≡ length (config_view config.now).receivers) }
    ensures labels { OnOk result (space.new.labels ≡ []) }
    ensures impossible { space.new.impossible ≡ space.old.impossible }
{
    space.declare(ordinary);
    let mut routes = found_routes(alloc, space, config, budget)?;
    if let Some(universe) = every {
        space.declare(universe);
        look_further(alloc, space, config, &mut routes, budget)?;
    }
    let receivers = found_receivers(alloc, config, routes.as_slice())?;
    Ok(RouteFindings {
        universe: space.undeclare(alloc),
        routes,
        receivers,
    })
}
