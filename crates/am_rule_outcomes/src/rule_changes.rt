//! What changes for the alerts of rules between two configurations.

ghost use Rattle.std.specs.Prelude.{◌≡◌, ◌++◌, length, IfOk, OnOk, Some};
ghost use Rattle.std.specs.List.{AllByRecursion};
ghost use Rattle.am_config.specs.ConfigView.{config_view};
ghost use Rattle.am_rule_outcomes.specs.Narrowed.{HaveWholeChoices};
ghost use Rattle.am_rule_outcomes.specs.NarrowingView.{narrowed_in, narrowed_view};
ghost use Rattle.am_rule_outcomes.specs.NarrowingView.{rule_outcomes_view};
ghost use Rattle.am_rule_outcomes.specs.RuleChanges.{changes_of_rule, changes_of_rules};
ghost use Rattle.am_rule_outcomes.specs.RuleOutcomes.{rule_outcomes_shown, with_rule_outcomes};

use crate::rule_outcomes::{NarrowedOutcomes, RuleOutcomes};
use crate::shown_labels::shown_labels;
use am_alerting_rules::AlertingRule;
use am_config::Config;
use am_outcomes::{ShownChange, is_change};
use std::alloc::{AllocError, Global};

/// Returns the changes among the outcomes of each rule under an old configuration and a new one,
/// rule by rule. Each has the group of the rule, and the labels of an alert of the rule. Fails only
/// if memory runs out.
pub fn changes_of_rules<'a>(
    alloc: Global,
    old: &Config,
    new: &Config,
    rules: &'a [AlertingRule],
    found: &'a RuleOutcomes,
) -> Result<Vec<ShownChange<'a>>, AllocError>
    requires each { length found.now.of_rules.items ≡ length rules.now }
    requires whole { AllByRecursion HaveWholeChoices (narrowed_in found.now) }
    ensures changes { IfOk result (λ changes. changes.items
        ≡ changes_of_rules (config_view old.now) (config_view new.now)
        (with_rule_outcomes rules.now (rule_outcomes_view found.now))) }
{
    let mut changes = Vec::new(alloc);
    for i in 0..rules.len() {
        if let Some(narrowed) = found.of_rule(i) {
            push_changes(alloc, &mut changes, old, new, &rules[i], narrowed)?;
        }
    }
    Ok(changes)
}

/// Adds the changes among the outcomes of a rule.
fn push_changes<'a>(
    alloc: Global,
    changes: &mut Vec<ShownChange<'a>>,
    old: &Config,
    new: &Config,
    rule: &'a AlertingRule,
    narrowed: NarrowedOutcomes<'a>,
) -> Result<(), AllocError>
    requires { HaveWholeChoices (narrowed_view narrowed) }
    ensures { OnOk result (changes.new.items ≡ changes.old.items
        ++ changes_of_rule (config_view old.now) (config_view new.now)
        (rule.now, rule_outcomes_shown rule.now (Some (narrowed_view narrowed.entry)))) }
{
    let fixed = rule.fixed_labels(alloc)?;
    let outcomes = narrowed.outcomes;
    for i in 0..outcomes.len() {
        let (lists, first) = outcomes.get(i);
        if is_change(old, new, lists) {
            changes.push(ShownChange {
                group: Some(rule.group()),
                lists,
                labels: shown_labels(alloc, fixed.as_slice(), narrowed.universe, first)?,
            })?;
        }
    }
    Ok(())
}
