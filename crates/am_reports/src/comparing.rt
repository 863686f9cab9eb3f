//! The command `compare`.

ghost use Rattle.std.specs.Prelude.{◌≡◌, ◌≢◌, IfOk, IfErr, OnOk, string_bytes};
ghost use Rattle.std.specs.List.{AllByRecursion, IsDistinct};
ghost use Rattle.am_universe.specs.declared.kind.Kind.TheVariants as kinds;
ghost use Rattle.am_universe.specs.Text.{same_text};
ghost use Rattle.am_json.specs.Reading.{refusal_of};
ghost use Rattle.am_alerting_rules.specs.RulesFile.{HasNames};
ghost use Rattle.am_alerting_rules.specs.RuleTexts.{HasUtf8Texts};
ghost use Rattle.am_config.specs.ConfigView.{config_view, whole_config_view};
ghost use Rattle.am_files.specs.Promise.{IsKept};
ghost use Rattle.am_report_texts.specs.Written.{IsWritten};
ghost use Rattle.am_outcomes.specs.ChangeLines.{changes_report, count_changes};
ghost use Rattle.am_outcomes.specs.Configurations.{Pair};
ghost use Rattle.am_reports.specs.Comparing.{IsComparison, IsRulesComparison, compare_promise};
ghost use Rattle.am_reports.specs.LaterStages.{IsOutcomesRefusal};
ghost use Rattle.am_reports.specs.Made.{AreDeclaredWhole};
ghost use Rattle.am_reports.specs.RulesOutcomes.{IsRulesRefusal};

use crate::CompareInputs;
use crate::all_outcomes::all_outcomes;
use crate::compare_inputs::read_compared;
use crate::rules_file::rules_if_any;
use crate::rules_outcomes::outcomes_of_all_rules;
use am_alerting_rules::AlertingRule;
use am_classes::Alphabet;
use am_config::WholeConfig;
use am_first_sets::Budget;
use am_labels::Space;
use am_outcomes::{Configs, ShownChange, compare_changes, shown_changes};
use am_report_texts::{Form, written};
use am_rule_outcomes::changes_of_rules;
use am_universe::{Fault, Sink, answer_of_write, put_str};
use std::alloc::{AllocError, Global};

/// Writes what changes from an old configuration to a new one, for every possible alert.
///
/// First there is a line for each receiver that loses alerts, and then for each that gains some.
/// Then there is a line for each pair of receiver lists, an old one and a new one with other names,
/// to which some alert goes, and for each list of receivers to which some alert goes under both
/// configurations, with other options at its ends. It names the options that differ at ends with
/// receivers of the same name, also where the lists differ. Each of these lines ends with the first
/// label set of which it is true. Then there is a line for each part of the files that differs and
/// is no route. Last come the number of changes, which is also returned, and the number of
/// receivers that lose and gain alerts. All input is read and all results are found before the
/// first byte is written.
///
/// If alerting rules are given, only their alerts count. Then the lines of pairs and of lists come
/// rule by rule, and each begins with the group of the rule and the label set.
///
/// Fails with the first of these faults:
///
/// - at `Universe`, those of `read_universe`;
/// - at `Old`, those of `read_config` for the old configuration;
/// - at `New`, those of `read_config` for the new configuration;
/// - at `Rules`, those of `read_alerting_rules`;
/// - what [`outcomes`](crate::outcomes()) refuses after reading its files, with a route of the old
///   configuration at `Old` and one of the new configuration at `New`; if routes of both ask about
///   a label, the old configuration asks about it first; a search that is cut off is refused at
///   `New`; with alerting rules, the ways are those of the alerts of one rule;
/// - `Write`.
///
/// `Memory` may come at any point. After any fault but `Write` the sink is unchanged; after `Write`
/// it has taken a prefix of the report.
pub fn compare<W: Sink>(
    alloc: Global,
    inputs: &CompareInputs<'_>,
    out: &mut W,
) -> Result<usize, Fault>
    // Each alert is handled alike under both, or one of the lines is about it, and each line shows
    // an alert. There is no change exactly if all alerts are handled alike and no part differs.
    ensures kept { IsKept (compare_promise inputs.now) W.taken W.failures out.old out.new result }
{
    let mut read = read_compared(alloc, inputs)?;
    let (alphabet, form) = (inputs.alphabet, inputs.form);
    let (old, new) = (&read.old, &read.new);
    let compared = match rules_if_any(&read.rules) {
        Some(rules) => {
            comparison_of_rules(alloc, alphabet, form, &mut read.space, old, new, rules)?
        }
        None => comparison_of_all(alloc, alphabet, form, &mut read.space, old, new)?,
    };
    answer_of_write(
        alloc,
        put_str(out, compared.text.as_str()).and(Ok(compared.changes)),
    )
}

/// A comparison in its form, and the number of changes.
#[derive(Drop)]
struct ComparedText {
    text: String,
    changes: usize,
}

/// Compares two configurations for every alert that counts. No two receivers of one configuration
/// have the same name.
///
/// Fails as [`all_outcomes`] does.
fn comparison_of_all(
    alloc: Global,
    alphabet: Alphabet,
    form: Form,
    space: &mut Space,
    old: &WholeConfig,
    new: &WholeConfig,
) -> Result<ComparedText, Fault>
    requires old_apart { IsDistinct same_text (config_view old.now.config).receivers }
    requires new_apart { IsDistinct same_text (config_view new.now.config).receivers }
    ensures whole { OnOk result (AreDeclaredWhole alphabet space.old
        (Pair (config_view old.now.config) (config_view new.now.config)) space.old.labels) }
    ensures compares { IfOk result (λ compared. IsComparison alphabet space.old
        (whole_config_view old.now) (whole_config_view new.now) form compared.changes
        (string_bytes compared.text)) }
    ensures refused { IfErr result (λ fault. fault.kind ≢ kinds.Memory
        → IsOutcomesRefusal alphabet space.old
        (Pair (config_view old.now.config) (config_view new.now.config)) fault.place
        (refusal_of fault)) }
{
    let (old_config, new_config) = (&old.config, &new.config);
    let configs = Configs::Pair(old_config, new_config);
    let outcomes = all_outcomes(alloc, alphabet, space, configs)?;
    let Ok(changes) = shown_changes(alloc, space.universe(), old_config, new_config, &outcomes)
    else {
        return Err(Fault::memory(alloc));
    };
    match compared_text(alloc, form, old, new, changes.as_slice()) {
        Ok(compared) => Ok(compared),
        Err(_) => Err(Fault::memory(alloc)),
    }
}

/// Compares two configurations for the alerts of alerting rules that count. No two receivers of one
/// configuration have the same name.
///
/// Fails as [`outcomes_of_all_rules`] does.
fn comparison_of_rules(
    alloc: Global,
    alphabet: Alphabet,
    form: Form,
    space: &mut Space,
    old: &WholeConfig,
    new: &WholeConfig,
    rules: &[AlertingRule],
) -> Result<ComparedText, Fault>
    requires old_apart { IsDistinct same_text (config_view old.now.config).receivers }
    requires new_apart { IsDistinct same_text (config_view new.now.config).receivers }
    requires names { AllByRecursion HasNames rules.now }
    requires texts { AllByRecursion HasUtf8Texts rules.now }
    ensures whole { OnOk result (AreDeclaredWhole alphabet space.old
        (Pair (config_view old.now.config) (config_view new.now.config)) space.old.labels) }
    ensures compares { IfOk result (λ compared. IsRulesComparison alphabet space.old
        (whole_config_view old.now) (whole_config_view new.now) rules.now form compared.changes
        (string_bytes compared.text)) }
    ensures refused { IfErr result (λ fault. fault.kind ≢ kinds.Memory
        → IsRulesRefusal alphabet space.old
        (Pair (config_view old.now.config) (config_view new.now.config)) rules.now fault.place
        (refusal_of fault)) }
{
    let mut budget = Budget::limited();
    let configs = Configs::Pair(&old.config, &new.config);
    let found = outcomes_of_all_rules(alloc, alphabet, space, configs, rules, &mut budget)?;
    let Ok(changes) = changes_of_rules(alloc, &old.config, &new.config, rules, &found) else {
        return Err(Fault::memory(alloc));
    };
    match compared_text(alloc, form, old, new, changes.as_slice()) {
        Ok(compared) => Ok(compared),
        Err(_) => Err(Fault::memory(alloc)),
    }
}

/// Returns the report of a comparison in a form. Fails only if memory runs out.
fn compared_text(
    alloc: Global,
    form: Form,
    old: &WholeConfig,
    new: &WholeConfig,
    changes: &[ShownChange<'_>],
) -> Result<ComparedText, AllocError>
    ensures changes { IfOk result (λ compared. compared.changes
        ≡ count_changes (whole_config_view old.now) (whole_config_view new.now) changes.now) }
    ensures text { IfOk result (λ compared. IsWritten form
        (changes_report (whole_config_view old.now) (whole_config_view new.now) changes.now)
        (string_bytes compared.text)) }
{
    let compared = compare_changes(alloc, old, new, changes)?;
    Ok(ComparedText {
        text: written(alloc, form, &compared.report)?,
        changes: compared.changes,
    })
}
