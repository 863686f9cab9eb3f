//! The reports of routes and of receivers.
#![tactic(auto, using(am_universe::proofs::Writing::steps))]

ghost use Rattle.std.specs.Prelude.{◌++◌, codes};
ghost use Rattle.std.specs.List.{AllByRecursion};
ghost use Rattle.am_universe.specs.Universe.{sizes};
ghost use Rattle.am_universe.specs.Choice.{IsWhole};
ghost use Rattle.am_universe.specs.Sink.{Writes};
ghost use Rattle.am_config.specs.ConfigView.{config_view};
ghost use Rattle.am_coverage.specs.CoverageView.{IsShownRoute, IsShownReceiver};
ghost use Rattle.am_coverage.specs.WrittenCoverage.{route_line, routes_text, receiver_line};
ghost use Rattle.am_coverage.specs.WrittenCoverage.{receivers_text, live_text};

use crate::coverage::RouteCoverage;
use crate::receiver_coverage::ReceiverFound;
use crate::route_coverage::RouteFound;
use am_config::Config;
use am_universe::{Choice, Kind, Sink, Universe, put_all, write_set, write_text};

/// Writes a line for each route, with its path and its coverage, and then `# end`. Fails only with
/// `Kind::Write`; then the sink has taken a proper prefix of the report. Takes no memory.
pub fn write_routes<W: Sink>(
    universe: &Universe,
    routes: &[RouteFound],
    out: &mut W,
) -> Result<(), Kind>
    requires shown { AllByRecursion (IsShownRoute (sizes universe.now)) routes.now }
    ensures written { Writes W.taken W.failures out.old out.new
        (routes_text universe.now routes.now) result }
{
    for route in routes {
        write_route(universe, route, out)?;
    }
    write_trailer(out)
}

fn write_route<W: Sink>(universe: &Universe, route: &RouteFound, out: &mut W) -> Result<(), Kind>
    requires { IsShownRoute (sizes universe.now) route.now }
    ensures { Writes W.taken W.failures out.old out.new (route_line universe.now route.now) result }
{
    route.path.write(out)?;
    match &route.coverage {
        RouteCoverage::Live(choice) => write_live(universe, choice, out),
        RouteCoverage::Entered => put_all(out, b" dead entered\n"),
        RouteCoverage::NeverEntered => put_all(out, b" dead never-entered\n"),
    }
}

/// Writes a line for each receiver of a configuration, with its name and its coverage, and then
/// `# end`. Fails only with `Kind::Write`; then the sink has taken a proper prefix of the report.
/// Takes no memory.
pub fn write_receivers<W: Sink>(
    universe: &Universe,
    config: &Config,
    receivers: &[ReceiverFound],
    out: &mut W,
) -> Result<(), Kind>
    requires shown { AllByRecursion (IsShownReceiver universe.now (config_view config.now))
        receivers.now }
    ensures written { Writes W.taken W.failures out.old out.new
        (receivers_text universe.now (config_view config.now).receivers receivers.now) result }
{
    for found in receivers {
        write_receiver(universe, config, found, out)?;
    }
    write_trailer(out)
}

fn write_receiver<W: Sink>(
    universe: &Universe,
    config: &Config,
    found: &ReceiverFound,
    out: &mut W,
) -> Result<(), Kind>
    requires { IsShownReceiver universe.now (config_view config.now) found.now }
    ensures { Writes W.taken W.failures out.old out.new
        (receiver_line universe.now (config_view config.now).receivers found.now) result }
{
    write_text(out, config.receiver_name(found.receiver))?;
    match &found.choice {
        Some(choice) => write_live(universe, choice, out),
        None => put_all(out, b" unmatched\n"),
    }
}

/// Writes the label set that shows that a route or receiver is live, and ends the line.
fn write_live<W: Sink>(universe: &Universe, choice: &Choice, out: &mut W) -> Result<(), Kind>
    requires { IsWhole (sizes universe.now) choice.now }
    ensures { Writes W.taken W.failures out.old out.new
        (live_text universe.now choice.now ++ codes "\n") result }
{
    put_all(out, b" live ")?;
    write_set(universe, choice, out)?;
    put_all(out, b"\n")
}

/// Writes the last line of a report.
fn write_trailer<W: Sink>(out: &mut W) -> Result<(), Kind>
    ensures { Writes W.taken W.failures out.old out.new (codes "# end\n") result }
{
    put_all(out, b"# end\n")
}
