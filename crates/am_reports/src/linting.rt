//! The command `lint`.

ghost use Rattle.std.specs.Prelude.{◌≡◌, ◌≢◌, map, IfOk, IfErr, IfSome, option_copied, option_map};
ghost use Rattle.std.specs.Prelude.{string_bytes};
ghost use Rattle.std.specs.List.{AllByRecursion};
ghost use Rattle.am_universe.specs.declared.kind.Kind.TheVariants as kinds;
ghost use Rattle.am_json.specs.Reading.{refusal_of};
ghost use Rattle.am_alerting_rules.specs.RulesFile.{HasNames};
ghost use Rattle.am_alerting_rules.specs.RuleTexts.{HasUtf8Texts};
ghost use Rattle.am_files.specs.Promise.{IsKept};
ghost use Rattle.am_report_texts.specs.Line.{count_findings};
ghost use Rattle.am_report_texts.specs.LineView.{line_view};
ghost use Rattle.am_report_texts.specs.Written.{IsWritten};
ghost use Rattle.am_reports.specs.FoundLines.{AreFindings, found_lines};
ghost use Rattle.am_reports.specs.LintLines.{lint_report};
ghost use Rattle.am_reports.specs.Linting.{lint_promise, IsLinted, IsLintRefusal};
ghost use Rattle.am_reports.specs.RulesReach.{fixed_sets};

use crate::WorldInputs;
use crate::listed_findings::{push_rules, push_silences, rule_findings, silence_findings};
use crate::made::check_declared;
use crate::route_findings::{RouteFindings, route_findings};
use crate::rules_file::rules_if_any;
use crate::rules_reach::{fixed_sets, reached_if_any};
use crate::world_inputs::read_world_inputs;
use am_alerting_rules::AlertingRule;
use am_classes::Alphabet;
use am_eval::World;
use am_firing::{Reached, Whose, push_firing_lines, push_unreached};
use am_first_sets::Budget;
use am_idle::{RuleFinding, SilenceFinding};
use am_labels::Space;
use am_lint::{count_pieces, push_lint_lines};
use am_list_files::Alerts;
use am_outcomes::Configs;
use am_report_texts::{Form, Line, Report, count_findings, count_notes, written};
use am_universe::{Fault, LabelSet, Sink, answer_of_write, put_str};
use am_unseen::push_unseen;
use std::alloc::{AllocError, Global};

/// Writes what is wrong with a configuration, for every possible alert.
///
/// There is a line for each finding and each note on routes, receivers and inhibition rules; with
/// silences, on those that are not over at the instant; with alerting rules, on what none of their
/// alerts reaches; and with firing alerts, on what these do not reach, on rules and silences that
/// mute many of them. With either, there are lines on names, values and patterns in matchers that
/// none of them has. The last line has the numbers of findings and notes. Returns
/// whether there is a finding. All input is read and all results are found before the first byte is
/// written.
///
/// Fails with the first of these faults:
///
/// - at `Universe`, those of `read_universe`;
/// - at `Config`, `Silences`, `Alerts` or `Instant`, those of `read_world`;
/// - at `Rules`, those of `read_alerting_rules`;
/// - for the first label of the universe file that is not known to have a value for every alert:
///   `Incomplete`, at `Universe` and with the label's pointer, if a value is missing; `Unproved`,
///   at the file and with the pointer of the route or impossible list that first asks about the
///   label, if its classes could not be computed;
/// - `Limit`, at `Universe` and with no pointer, if the routes and impossible lists need more
///   labels, or more values of one label, than a universe may have;
/// - `Unproved`, at the file and with the pointer of the route or impossible list that first asks
///   about a label, if the classes of the label could not be computed;
/// - `Limit`, for the same reason, at `Config` and with the pointer of the first such rule; then at
///   `Silences` and with the pointer of the first such silence that is not over;
/// - `Limit`, at `Universe` and with no pointer, if for the alerts of an alerting rule there are
///   more ways through the routes than there is room for;
/// - `Limit`, at `Config` and with the pointer of the top-level route, if the search for where the
///   alerts of alerting rules end was cut off;
/// - `Write`.
///
/// `Memory` may come at any point. After any fault but `Write` the sink is unchanged; after `Write`
/// it has taken a prefix of the report.
pub fn lint<W: Sink>(alloc: Global, inputs: &WorldInputs<'_>, out: &mut W) -> Result<bool, Fault>
    // What the report says of each route, receiver, rule and silence, and of the alerts, is true.
    ensures kept { IsKept (lint_promise inputs.now) W.taken W.failures out.old out.new result }
{
    let mut read = read_world_inputs(alloc, inputs)?;
    let alerts = inputs.alerts_if_any(&read.world);
    let alerting = rules_if_any(&read.rules);
    let (alphabet, form) = (inputs.alphabet, inputs.form);
    let lint = lint_report(
        alloc,
        alphabet,
        form,
        &mut read.space,
        &read.world,
        alerts,
        alerting,
    )?;
    answer_of_write(
        alloc,
        put_str(out, lint.text.as_str()).and(Ok(lint.findings > 0)),
    )
}

/// A report in its form, and the number of its findings.
#[derive(Drop)]
struct LintReport {
    text: String,
    findings: usize,
}

/// Makes the report on what was read, for every alert over an alphabet, in a form. The alerts are
/// those that fire, and the alerting rules those that raise alerts, if they are known. At the end
/// the space has no labels.
fn lint_report(
    alloc: Global,
    alphabet: Alphabet,
    form: Form,
    space: &mut Space,
    world: &World,
    alerts: Option<&Alerts>,
    alerting: Option<&[AlertingRule]>,
) -> Result<LintReport, Fault>
    requires names { IfSome (option_copied alerting) (AllByRecursion HasNames) }
    requires texts { IfSome (option_copied alerting) (AllByRecursion HasUtf8Texts) }
    ensures reports { IfOk result (λ report. IsLinted alphabet space.old world.now
        (option_map (λ a. a.now) alerts.entry) (option_copied alerting.entry) form report.findings
        (string_bytes report.text)) }
    ensures refused { IfErr result (λ fault. fault.kind ≢ kinds.Memory
        → IsLintRefusal alphabet space.old world.now (option_copied alerting.entry) fault.place
        (refusal_of fault)) }
{
    check_declared(alloc, alphabet, space, Configs::One(world.config()))?;
    space.undeclare(alloc);
    let mut budget = Budget::limited();
    let budget = &mut budget;
    let routes = route_findings(alloc, alphabet, space, world.config(), budget)?;
    let rules = rule_findings(alloc, alphabet, space, world.config().rules(), budget)?;
    let silences = silence_findings(alloc, alphabet, space, world, alerts, budget)?;
    let reached = reached_if_any(alloc, alphabet, space, world.config(), alerting, budget)?;
    let found = Findings {
        routes,
        rules,
        silences,
        reached,
    };
    match report_of(alloc, form, world, alerts, alerting, &found) {
        Ok(report) => Ok(report),
        Err(_) => Err(Fault::memory(alloc)),
    }
}

/// What is found.
#[derive(Drop)]
struct Findings {
    routes: RouteFindings,
    rules: Vec<Option<RuleFinding>>,
    silences: Vec<Option<SilenceFinding>>,
    reached: Option<Reached>,
}

/// Returns the report on what is found, and on what the alerts and the alerting rules show, if they
/// are known, in a form. Fails only if memory runs out.
fn report_of<'a>(
    alloc: Global,
    form: Form,
    world: &'a World,
    alerts: Option<&Alerts>,
    alerting: Option<&[AlertingRule]>,
    found: &'a Findings,
) -> Result<LintReport, AllocError>
    requires { AreFindings world.now found.now }
    ensures findings { IfOk result (λ report. report.findings
        ≡ count_findings (found_lines found.now (option_map (λ a. a.now) alerts.entry)
        (fixed_sets (option_copied alerting.entry)) world.now)) }
    ensures text { IfOk result (λ report. IsWritten form
        (lint_report (found_lines found.now (option_map (λ a. a.now) alerts.entry)
        (fixed_sets (option_copied alerting.entry)) world.now))
        (string_bytes report.text)) }
{
    let sets = fixed_sets(alloc, alerting)?;
    let lines = lines_of(alloc, world, alerts, sets.as_slice(), found)?;
    let findings = count_findings(lines.as_slice());
    let notes = count_notes(lines.as_slice());
    let last = count_pieces(alloc, findings, notes)?;
    let text = written(alloc, form, &Report { lines, last })?;
    Ok(LintReport { text, findings })
}

/// Returns the lines on what is found, and on what the alerts show, if they are known, and the
/// label sets that alerting rules fix.
fn lines_of<'a>(
    alloc: Global,
    world: &'a World,
    alerts: Option<&Alerts>,
    sets: &'a [LabelSet],
    found: &'a Findings,
) -> Result<Vec<Line<'a>>, AllocError>
    requires { AreFindings world.now found.now }
    ensures { IfOk result (λ lines. map line_view lines.items
        ≡ found_lines found.now (option_map (λ a. a.now) alerts.entry) sets.now world.now) }
{
    let config = world.config();
    let routes = found.routes.routes.as_slice();
    let receivers = found.routes.receivers.as_slice();
    let (rules, silences) = (found.rules.as_slice(), found.silences.as_slice());
    let mut lines: Vec<Line<'a>> = Vec::new(alloc);
    push_lint_lines(
        alloc,
        &mut lines,
        &found.routes.universe,
        config,
        routes,
        receivers,
    )?;
    push_rules(alloc, &mut lines, config.rules(), rules)?;
    push_silences(alloc, &mut lines, world.silences(), silences)?;
    if let Some(reached) = &found.reached {
        push_unreached(
            alloc,
            &mut lines,
            config,
            Whose::Rules,
            reached,
            routes,
            receivers,
            rules,
        )?;
    }
    if alerts.is_some() {
        push_firing_lines(alloc, &mut lines, world, routes, receivers, rules, silences)?;
    }
    push_unseen(alloc, &mut lines, world, sets)?;
    Ok(lines)
}
