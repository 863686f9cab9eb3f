//! The command `outcomes`.

ghost use Rattle.am_files.specs.Promise.{IsKept};
ghost use Rattle.am_reports.specs.OutcomesReport.{outcomes_promise};

use crate::ReportInputs;
use crate::all_outcomes::all_outcomes;
use crate::report_inputs::read_inputs;
use am_outcomes::{Configs, outcomes_report};
use am_report_texts::written;
use am_universe::{Fault, Sink, answer_of_write, put_str};
use std::alloc::Global;

/// Writes to which receivers alerts go under a configuration, for every possible alert.
///
/// There is a line for each list of receivers to which some alert goes, with the first label set
/// that goes there, and then `# end`. Alerts are routed as in the Alertmanager configuration
/// reference 0.25, "<route>". All input is read and all results are found before the first byte is
/// written.
///
/// Fails with the first of these faults:
///
/// - at `Universe`, those of `read_universe`;
/// - at `Config`, those of `read_config`;
/// - for the first label of the universe file that is not known to have a value for every alert:
///   `Incomplete`, at `Universe` and with the label's pointer, if a value is missing; `Unproved`,
///   at the file and with the pointer of the route or impossible list that first asks about the
///   label, if its classes could not be computed;
/// - `Limit`, at `Universe` and with no pointer, if the routes and impossible lists need more
///   labels, or more values of one label, than a universe may have;
/// - `Unproved`, at the file and with the pointer of the route or impossible list that first asks
///   about a label, if the classes of the label could not be computed;
/// - `Limit`, at `Universe` and with no pointer, if there are more ways through the routes than
///   there is room for;
/// - `Limit`, at `Config` and with the pointer of the top-level route, if the search for them was
///   cut off: it looked at as many masks as the limits of am_first_sets allow;
/// - `Write`.
///
/// `Memory` may come at any point. After any fault but `Write` the sink is unchanged; after `Write`
/// it has taken a prefix of the report.
pub fn outcomes<W: Sink>(alloc: Global, inputs: &ReportInputs<'_>, out: &mut W) -> Result<(), Fault>
    // Each alert goes to the receivers of one of the lines, and each line shows an alert.
    ensures kept { IsKept (outcomes_promise inputs.now) W.taken W.failures out.old out.new result }
{
    let mut read = read_inputs(alloc, inputs)?;
    let configs = Configs::One(&read.config);
    let outcomes = all_outcomes(alloc, inputs.alphabet, &mut read.space, configs)?;
    let universe = read.space.universe();
    let Ok(report) = outcomes_report(alloc, universe, &read.config, &outcomes) else {
        return Err(Fault::memory(alloc));
    };
    let Ok(text) = written(alloc, inputs.form, &report) else {
        return Err(Fault::memory(alloc));
    };
    answer_of_write(alloc, put_str(out, text.as_str()))
}
