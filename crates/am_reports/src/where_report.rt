//! The command `where`.
//!
//! The space is made in memory, as for `outcomes`, for the matchers of the routes and of the active
//! silences, and stands for every alert. For each rule it is narrowed to the alerts of the rule.

ghost use Rattle.std.specs.Prelude.{◌≡◌, ◌≢◌, map, IfOk, IfErr, OnOk};
ghost use Rattle.am_universe.specs.declared.kind.Kind.TheVariants as kinds;
ghost use Rattle.am_json.specs.Reading.{refusal_of};
ghost use Rattle.am_files.specs.Promise.{IsKept};
ghost use Rattle.am_outcomes.specs.Configurations.{configurations_of};
ghost use Rattle.am_rule_outcomes.specs.NarrowingView.{rule_outcomes_view};
ghost use Rattle.am_reports.specs.Made.{AreDeclaredWhole};
ghost use Rattle.am_reports.specs.RulesOutcomes.{AreFoundFor, IsRulesRefusal};
ghost use Rattle.am_reports.specs.WhereReport.{where_promise};

use crate::WorldInputs;
use crate::active_silences::active_silences;
use crate::receivers::receiver_positions;
use crate::rules_file::rules_if_any;
use crate::rules_outcomes::outcomes_of_all_rules;
use crate::world_inputs::read_world_inputs;
use am_first_sets::Budget;
use am_outcomes::Configs;
use am_report_texts::written;
use am_rule_outcomes::where_report;
use am_universe::{Fault, Sink, answer_of_write, put_str};
use std::alloc::Global;

/// Writes to which receivers the alerts of alerting rules go under a configuration.
///
/// For each rule there is a line for each list of receivers to which some alert of the rule goes,
/// with the first label set that goes there, and whether silences hide all or some of these alerts.
/// A rule without an alert that counts has a line that says so. If receivers are named, there are
/// only the lines with one of them. The last line counts the rules. The alerts of a rule have its
/// name as `alertname`, and each label that the rule sets to a text without `{{`; all other labels
/// may be anything (Prometheus documentation, "Alerting rules"). Without a file there are no rules.
/// Alerts are routed as in the Alertmanager configuration reference 0.25, "<route>". All input is
/// read and all is found before the first byte is written.
///
/// Fails with the first of these faults:
///
/// - at `Universe`, those of `read_universe`;
/// - at `Config`, `Silences`, `Alerts` or `Instant`, those of `read_world`;
/// - at `Rules`, those of `read_alerting_rules`;
/// - `UnknownReceiver`, at `Question` and with no pointer, if a name is that of no receiver;
/// - what [`outcomes`](crate::outcomes()) refuses after reading its files, where active silences
///   ask about labels too, and the ways are those of the alerts of one rule, through the routes and
///   then the silences;
/// - `Write`.
///
/// `Memory` may come at any point. After any fault but `Write` the sink is unchanged; after `Write`
/// it has taken a prefix of the report.
pub fn where_alerts_go<W: Sink>(
    alloc: Global,
    inputs: &WorldInputs<'_>,
    receivers: &[&str],
    out: &mut W,
) -> Result<(), Fault>
    // For each rule, each alert of it that counts goes to the receivers of one of its lines, and
    // each of its lines shows an alert of the rule.
    ensures kept { IsKept (where_promise inputs.now (map (λ name. name.now) receivers.now))
        W.taken W.failures out.old out.new result }
{
    let mut read = read_world_inputs(alloc, inputs)?;
    let config = read.world.config();
    let positions = receiver_positions(alloc, config, receivers)?;
    let asked = if receivers.is_empty() {
        None
    } else {
        Some(positions.as_slice())
    };
    let Ok(silences) = active_silences(alloc, &read.world) else {
        return Err(Fault::memory(alloc));
    };
    let configs = Configs::Silenced(config, silences.as_slice());
    let rules = rules_if_any(&read.rules).unwrap_or(&[]);
    let (alphabet, space) = (inputs.alphabet, &mut read.space);
    let mut budget = Budget::limited();
    let found = outcomes_of_all_rules(alloc, alphabet, space, configs, rules, &mut budget)?;
    let Ok(report) = where_report(alloc, config, rules, &found, asked) else {
        return Err(Fault::memory(alloc));
    };
    let Ok(text) = written(alloc, inputs.form, &report) else {
        return Err(Fault::memory(alloc));
    };
    answer_of_write(alloc, put_str(out, text.as_str()))
}
