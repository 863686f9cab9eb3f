ghost use Rattle.std.specs.Prelude.{IfOk, IfErr};
ghost use Rattle.am_config.specs.ConfigView.{config_view};
ghost use Rattle.am_files.specs.Faults.{IsFirstFault};
ghost use Rattle.am_files.specs.Promise.{IsKept};
ghost use Rattle.am_commands.specs.Reports.{AcceptsReport, report_stages, dead_promise};
ghost use Rattle.am_commands.specs.Reports.{receivers_promise};

use am_config::{Config, read_config};
use am_coverage::{receivers_covered, routes_covered, write_receivers, write_routes};
use am_labels::Space;
use am_list_files::read_universe;
use am_universe::{Fault, Sink, answer_of_write};
use std::alloc::Global;

/// Writes for each route of a configuration whether a label set of a universe ends there.
///
/// There is a line for each route, in preorder, and then `# end`. A line has the path of the route
/// and `live` with the first label set that ends there; or `dead entered`, if label sets end only
/// below the route; or `dead never-entered`. `universe` is a universe file, and `config` a
/// configuration file. Label sets are routed as in the Alertmanager configuration reference 0.25,
/// "<route>". All input is read and all results are found before the first byte is written.
///
/// Fails with the first of these faults:
///
/// - at `Universe`, those of `read_universe`;
/// - at `Config`, those of `read_config`;
/// - `Write`.
///
/// `Memory` may come at any point. After any fault but `Write` the sink is unchanged; after `Write`
/// it has taken a prefix of the report.
pub fn dead<W: Sink>(
    alloc: Global,
    universe: &[u8],
    config: &[u8],
    out: &mut W,
) -> Result<(), Fault>
    // The line of a route says that it is dead exactly if no label set ends there.
    ensures kept { IsKept (dead_promise universe.now config.now)
        W.taken W.failures out.old out.new result }
{
    let read = read_files(alloc, universe, config)?;
    let Ok(routes) = routes_covered(alloc, &read.space, &read.config) else {
        return Err(Fault::memory(alloc));
    };
    let written = write_routes(read.space.universe(), routes.as_slice(), out);
    answer_of_write(alloc, written)
}

/// Writes for each receiver of a configuration whether a label set of a universe goes to it.
///
/// There is a line for each receiver, in declared order, and then `# end`. A line has the name of
/// the receiver in quotes and `live` with the first label set that goes to it, or `unmatched`. The
/// inputs and faults are those of [`dead`].
pub fn receivers<W: Sink>(
    alloc: Global,
    universe: &[u8],
    config: &[u8],
    out: &mut W,
) -> Result<(), Fault>
    // The line of a receiver says that it is unmatched exactly if no label set goes to it.
    ensures kept { IsKept (receivers_promise universe.now config.now)
        W.taken W.failures out.old out.new result }
{
    let read = read_files(alloc, universe, config)?;
    let Ok(found) = receivers_covered(alloc, &read.space, &read.config) else {
        return Err(Fault::memory(alloc));
    };
    let written = write_receivers(read.space.universe(), &read.config, found.as_slice(), out);
    answer_of_write(alloc, written)
}

/// What the files of a report say.
#[derive(Drop)]
struct ReadFiles {
    space: Space,
    config: Config,
}

/// Reads the universe file and then the configuration file of a report. Fails with the first fault,
/// at `Universe` or at `Config`, or with `Memory`.
fn read_files(alloc: Global, universe: &[u8], config: &[u8]) -> Result<ReadFiles, Fault>
    ensures accepts { IfOk result (λ read. AcceptsReport universe.now config.now
        read.space (config_view read.config)) }
    ensures first { IfErr result (IsFirstFault (report_stages universe.now config.now)) }
{
    let space = read_universe(alloc, universe)?;
    let config = read_config(alloc, config)?;
    Ok(ReadFiles { space, config })
}
