//! The command `routes`.
//!
//! The space is made in memory, as for `outcomes`, and stands for every alert.

ghost use Rattle.std.specs.Prelude.{◌≡◌, ◌≢◌, ℕ, List, map, option_copied, IfOk, IfErr, OnOk};
ghost use Rattle.am_universe.specs.declared.kind.Kind.TheVariants as kinds;
ghost use Rattle.am_universe.specs.declared.place.Place.TheVariants as places;
ghost use Rattle.am_json.specs.Reading.{refusal_of};
ghost use Rattle.am_config.specs.ConfigView.{config_view};
ghost use Rattle.am_files.specs.Promise.{IsKept};
ghost use Rattle.am_outcomes.specs.Configurations.{One};
ghost use Rattle.am_every_alert.specs.EveryAlert.{IsAlertOf};
ghost use Rattle.am_route_alerts.specs.RouteAlerts.{AreRouteAlerts};
ghost use Rattle.am_route_alerts.specs.FoundView.{route_alerts_view};
ghost use Rattle.am_reports.specs.CutOff.{IsCutOff};
ghost use Rattle.am_reports.specs.Made.{AreDeclaredWhole};
ghost use Rattle.am_reports.specs.RoutesReport.{routes_promise, IsUnmadeRefusal};

use crate::ReportInputs;
use crate::cut_off::cut_off;
use crate::made::{check_declared, universe_for_routes};
use crate::receivers::receiver_positions;
use crate::report_inputs::read_inputs;
use am_classes::Alphabet;
use am_config::Config;
use am_first_sets::Budget;
use am_labels::Space;
use am_outcomes::Configs;
use am_report_texts::written;
use am_route_alerts::{RouteAlerts, RoutesFault, alerts_of_routes, routes_report};
use am_universe::{Fault, Place, Sink, Universe, answer_of_write, put_str};
use std::alloc::Global;

/// Writes which alerts end at each route of a configuration, for every possible alert.
///
/// There is a line for each route, in preorder, and then `# end`. If receivers are named, there is
/// one for each route that has one of them. A line has matchers in braces, and may have lists of
/// matchers behind `unless`. An alert ends at the route exactly if it matches the first braces and
/// none of these lists. If no alert ends there, the line says `no alert`. Alerts are routed as in
/// the Alertmanager configuration reference 0.25, "<route>". All input is read and all is found
/// before the first byte is written.
///
/// Fails with the first of these faults:
///
/// - at `Universe`, those of `read_universe`;
/// - at `Config`, those of `read_config`;
/// - `UnknownReceiver`, at `Question` and with no pointer, if a name is that of no receiver;
/// - what [`outcomes`](crate::outcomes()) refuses after reading its files, except that there may be
///   any number of ways through the routes, and that a search that is cut off is refused with the
///   pointer of its route;
/// - `Write`.
///
/// `Memory` may come at any point. After any fault but `Write` the sink is unchanged; after `Write`
/// it has taken a prefix of the report.
pub fn routes<W: Sink>(
    alloc: Global,
    inputs: &ReportInputs<'_>,
    receivers: &[&str],
    out: &mut W,
) -> Result<(), Fault>
    // An alert ends at a route exactly if it meets the line of the route.
    ensures kept { IsKept (routes_promise inputs.now (map (λ name. name.now) receivers.now))
        W.taken W.failures out.old out.new result }
{
    let mut read = read_inputs(alloc, inputs)?;
    let positions = receiver_positions(alloc, &read.config, receivers)?;
    let asked = if receivers.is_empty() {
        None
    } else {
        Some(positions.as_slice())
    };
    let config = &read.config;
    let found = alerts_of_all_routes(alloc, inputs.alphabet, &mut read.space, config, asked)?;
    let Ok(report) = routes_report(alloc, config, found) else {
        return Err(Fault::memory(alloc));
    };
    let Ok(text) = written(alloc, inputs.form, &report) else {
        return Err(Fault::memory(alloc));
    };
    answer_of_write(alloc, put_str(out, text.as_str()))
}

/// Finds which alerts that count end at each route that is asked about. The labels that the
/// universe file declares are checked first. Then the space gets the universe that stands for the
/// alerts.
///
/// Fails as [`check_declared`] and [`universe_for_routes`] do; then with `Limit`, at `Config` and
/// with the pointer of the first route at which the search was cut off; and with `Memory`.
fn alerts_of_all_routes<'a>(
    alloc: Global,
    alphabet: Alphabet,
    space: &mut Space,
    config: &'a Config,
    receivers: Option<&[usize]>,
) -> Result<Vec<RouteAlerts<'a>>, Fault>
    ensures whole { OnOk result (AreDeclaredWhole alphabet space.old
        (One (config_view config.now)) space.old.labels) }
    ensures are { IfOk result (λ found. AreRouteAlerts (IsAlertOf alphabet space.old)
        (config_view config.now) (option_copied receivers.entry)
        (map route_alerts_view found.items)) }
    ensures refused { IfErr result (λ fault. fault.kind ≢ kinds.Memory
        → IsUnmadeRefusal alphabet space.old (config_view config.now) fault.place
        (refusal_of fault)) }
{
    let configs = Configs::One(config);
    check_declared(alloc, alphabet, space, configs)?;
    space.declare(Universe::empty(alloc));
    let universe = universe_for_routes(alloc, alphabet, space, configs)?;
    space.declare(universe);
    match alerts_of_routes(alloc, space, config, receivers, &mut Budget::limited()) {
        Ok(found) => Ok(found),
        Err(fault) => Err(fault_of(alloc, &fault)),
    }
}

/// The fault of a search for the alerts of routes that ended without an answer.
fn fault_of(alloc: Global, fault: &RoutesFault) -> Fault
    ensures refusal { result.kind ≢ kinds.Memory → (path : List ℕ)
        × IsCutOff places.Config path result.place (refusal_of result) }
{
    match fault {
        RoutesFault::Memory => Fault::memory(alloc),
        RoutesFault::UsedUp(path, evidence) => cut_off(alloc, Place::Config, path, evidence),
    }
}
