//! Reading a rules file.

ghost use Rattle.std.specs.Prelude.{◌≡◌, ◌≢◌, [], map, IfOk, IfErr, option_map};
ghost use Rattle.std.specs.List.{list_any};
ghost use Rattle.serde_json.specs.View.{view};
ghost use Rattle.am_universe.specs.Text.{same_text};
ghost use Rattle.am_universe.specs.declared.place.Place.TheVariants as places;
ghost use Rattle.am_json.specs.Reading.{Gives, IsRefusalAt, read_items};
ghost use Rattle.am_alerting_rules.specs.RulesFile.{FileSaysRules, rules_of_groups, rules_among};
ghost use Rattle.am_alerting_rules.specs.RulesFile.{labels_left, with_labels_below};
ghost use Rattle.am_alerting_rules.specs.RulesForm.{IsFirstFaultOfRulesFile};
ghost use Rattle.am_alerting_rules.specs.RulesForm.{rule_name_form, next_label_form, labels_form};
ghost use Rattle.am_alerting_rules.specs.RulesForm.{optional_labels_form, alerting_rule_form};
ghost use Rattle.am_alerting_rules.specs.RulesForm.{rule_form, group_form, groups_form};
ghost use Rattle.am_alerting_rules.specs.RulesForm.{rules_form, rules_file_form};

use crate::alerting_rule::{AlertingRule, AlertingRules, RuleLabel, RuleLabels};
use crate::limits::{MAX_ALERTING_RULES, MAX_GROUPS, MAX_RULE_LABELS};
use am_json::{
    ReadError, as_object, as_text, check_count, field, read_each_item, read_each_member, read_json,
    read_optional_items, refuse_for, required_items, required_text, within_field,
};
use am_list_files::{label_name_fault, read_named_text};
use am_universe::{Fault, Place};
use serde_json::Value;
use std::alloc::{AllocError, Global};

/// Reads the alerting rules of a rules file: a rules file of Prometheus as JSON.
///
/// A field that is `null` is absent. A rule without `alert` is no alerting rule, and is passed
/// over. Of a group `name`, `labels` and `rules` are read, and of an alerting rule only `alert` and
/// `labels`. An alerting rule also has the labels of its group that it does not set itself. Fails
/// with the first fault of the file, at the place `Rules`, with the pointer to the part at fault:
/// - `Limit`: more than `MAX_FILE_BYTES` bytes, [`MAX_GROUPS`] groups or [`MAX_RULE_LABELS`] labels
///   of a rule or of a group; or, at the groups, after all other faults, more than
///   [`MAX_ALERTING_RULES`] alerting rules in all;
/// - `NotJson`: the bytes have no JSON value;
/// - `Shape`: a value is not of its kind, or a required field is absent;
/// - `Empty`: the name of an alerting rule or of a label is the empty text.
///
/// If memory runs out, the fault is `Memory`, at the place `Memory`, with the empty pointer.
pub fn read_alerting_rules(alloc: Global, bytes: &[u8]) -> Result<AlertingRules, Fault>
    ensures says { IfOk result (λ rules. FileSaysRules bytes.now rules) }
    ensures first { IfErr result (IsRefusalAt places.Rules (IsFirstFaultOfRulesFile bytes.now)) }
{
    match read_rules_file(alloc, bytes) {
        Ok(rules) => Ok(rules),
        Err(error) => Err(error.at(alloc, Place::Rules)),
    }
}

#[tactic(auto, using(am_json::proofs::Readings::steps), unfolding(crate::specs::RulesForm::rules_file_form))]
fn read_rules_file(alloc: Global, bytes: &[u8]) -> Result<AlertingRules, ReadError>
    ensures { Gives (λ rules. rules) result (rules_file_form bytes.now) }
{
    let value = read_json(alloc, bytes)?;
    read_rules_value(alloc, &value)
}

#[tactic(auto, using(am_json::proofs::Readings::steps), unfolding(crate::specs::RulesForm::rules_form))]
fn read_rules_value(alloc: Global, value: &Value) -> Result<AlertingRules, ReadError>
    ensures { Gives (λ rules. rules) result (rules_form (view value.now)) }
{
    as_object(alloc, value)?;
    let items = required_items(alloc, value, "groups")?;
    within_field(alloc, "groups", read_groups(alloc, items))
}

#[tactic(auto, using(am_json::proofs::Readings::steps), unfolding(crate::specs::RulesForm::groups_form))]
fn read_groups(alloc: Global, items: &[Value]) -> Result<AlertingRules, ReadError>
    ensures { Gives (λ rules. rules) result (groups_form (map view items.now)) }
{
    check_count(alloc, MAX_GROUPS, items.len())?;
    let groups = read_each_group(alloc, items)?;
    let rules = rules_of_groups(alloc, groups)?;
    check_count(alloc, MAX_ALERTING_RULES, rules.len())?;
    Ok(rules)
}

fn read_each_group(alloc: Global, items: &[Value]) -> Result<Vec<AlertingRules>, ReadError>
    ensures { Gives (λ groups. groups.items) result
        (read_items (λ _ item. group_form item) [] (map view items.now)) }
{
    read_each_item(alloc, items, |item| read_group(alloc, item))
}

/// The rules of some groups, one behind the other. Fails only if memory runs out.
fn rules_of_groups(alloc: Global, groups: Vec<AlertingRules>) -> Result<AlertingRules, AllocError>
    ensures { IfOk result (λ all. all ≡ rules_of_groups groups.items) }
{
    let mut rules = Vec::new(alloc);
    for mut group in groups {
        rules.append(&mut group.rules)?;
    }
    Ok(AlertingRules { rules })
}

/// Reads the alerting rules of a group.
#[tactic(auto, using(am_json::proofs::Readings::steps), unfolding(crate::specs::RulesForm::group_form))]
fn read_group(alloc: Global, value: &Value) -> Result<AlertingRules, ReadError>
    ensures { Gives (λ rules. rules) result (group_form (view value.now)) }
{
    as_object(alloc, value)?;
    let name = required_text(alloc, value, "name")?;
    let labels = read_optional_labels(alloc, field(value, "labels"))?;
    let items = read_optional_items(alloc, value, "rules")?;
    let found = within_field(alloc, "rules", read_each_rule(alloc, name, items))?;
    Ok(rules_with_labels(alloc, &labels, found)?)
}

/// Reads each rule of the group of this name.
fn read_each_rule(
    alloc: Global,
    group: &str,
    items: &[Value],
) -> Result<Vec<Option<AlertingRule>>, ReadError>
    ensures { Gives (λ found. found.items) result
        (read_items (λ _ item. rule_form group.now item) [] (map view items.now)) }
{
    read_each_item(alloc, items, |item| read_rule(alloc, group, item))
}

/// The alerting rules among the rules of a group, with the labels of the group below their own.
/// Fails only if memory runs out.
fn rules_with_labels(
    alloc: Global,
    labels: &RuleLabels,
    found: Vec<Option<AlertingRule>>,
) -> Result<AlertingRules, AllocError>
    ensures { IfOk result (λ all. all
        ≡ map (with_labels_below labels.now) (rules_among found.items)) }
{
    let mut rules = Vec::with_capacity(alloc, found.len())?;
    for rule in found {
        if let Some(rule) = rule {
            rules.push(with_labels_below(alloc, rule, labels)?)?;
        }
    }
    Ok(AlertingRules { rules })
}

/// The rule with the labels of its group below its own. Fails only if memory runs out.
fn with_labels_below(
    alloc: Global,
    rule: AlertingRule,
    group_labels: &RuleLabels,
) -> Result<AlertingRule, AllocError>
    ensures { IfOk result (λ all. all ≡ with_labels_below group_labels.now rule) }
{
    let AlertingRule {
        group,
        name,
        mut labels,
    } = rule;
    let mut left = labels_left(alloc, labels.as_slice(), group_labels)?;
    labels.append(&mut left.labels)?;
    Ok(AlertingRule {
        group,
        name,
        labels,
    })
}

/// The labels of a group that a rule's own labels do not set. Fails only if memory runs out.
fn labels_left(
    alloc: Global,
    own: &[RuleLabel],
    labels: &RuleLabels,
) -> Result<RuleLabels, AllocError>
    ensures { IfOk result (λ left. left ≡ labels_left own.now labels.now) }
{
    let mut left = RuleLabels::none(alloc);
    for label in labels.as_slice() {
        if !has_label(own, label.name()) {
            left.push(alloc, label.name(), label.text())?;
        }
    }
    Ok(left)
}

/// Whether one of some labels has a name.
fn has_label(labels: &[RuleLabel], name: &str) -> bool
    ensures { result ≡ list_any (λ l. same_text l.0 name.now) labels.now }
{
    labels.iter().any(|label| label.name() == name)
}

/// Reads a rule of a group. If it has no `alert`, it is no alerting rule.
#[tactic(auto, using(am_json::proofs::Readings::steps), unfolding(crate::specs::RulesForm::rule_form))]
fn read_rule(alloc: Global, group: &str, value: &Value) -> Result<Option<AlertingRule>, ReadError>
    ensures { Gives (λ rule. rule) result (rule_form group.now (view value.now)) }
{
    as_object(alloc, value)?;
    match field(value, "alert") {
        None => Ok(None),
        Some(name) => Ok(Some(read_alerting_rule(alloc, group, name, value)?)),
    }
}

/// Reads a rule that has this value of `alert`.
#[tactic(auto, using(am_json::proofs::Readings::steps), unfolding(crate::specs::RulesForm::alerting_rule_form))]
fn read_alerting_rule(
    alloc: Global,
    group: &str,
    name: &Value,
    value: &Value,
) -> Result<AlertingRule, ReadError>
    ensures { Gives (λ rule. rule) result
        (alerting_rule_form group.now (view name.now) (view value.now)) }
{
    let name = within_field(alloc, "alert", read_rule_name(alloc, name))?;
    let labels = read_optional_labels(alloc, field(value, "labels"))?;
    Ok(named_rule(alloc, group, name, labels)?)
}

/// Reads the name of an alerting rule, which must not be empty.
#[tactic(auto, using(am_json::proofs::Readings::steps), unfolding(crate::specs::RulesForm::rule_name_form))]
fn read_rule_name(alloc: Global, value: &Value) -> Result<&str, ReadError>
    ensures reads { Gives (λ t. t.now) result (rule_name_form (view value.now)) }
    ensures named { IfOk result (λ t. t.now ≢ []) }
{
    let name = as_text(alloc, value)?;
    refuse_for(alloc, label_name_fault(name))?;
    Ok(name)
}

/// The rule of this name with these labels. Fails only if memory runs out.
fn named_rule(
    alloc: Global,
    group: &str,
    name: &str,
    labels: RuleLabels,
) -> Result<AlertingRule, AllocError>
    requires { name.now ≢ [] }
    ensures { IfOk result (λ rule. rule
        ≡ record { group = group.now; name = name.now; labels = labels }) }
{
    Ok(AlertingRule {
        group: String::from_str(alloc, group)?,
        name: String::from_str(alloc, name)?,
        labels: labels.labels,
    })
}

/// Reads the labels of the field `labels`, if there is one.
#[tactic(auto, using(am_json::proofs::Readings::steps))]
fn read_optional_labels(alloc: Global, labels: Option<&Value>) -> Result<RuleLabels, ReadError>
    ensures { Gives (λ l. l) result
        (optional_labels_form (option_map (λ v. view v.now) labels.entry)) }
{
    match labels {
        None => Ok(RuleLabels::none(alloc)),
        Some(value) => within_field(alloc, "labels", read_labels(alloc, value)),
    }
}

/// Reads the labels of an object.
#[tactic(auto, using(am_json::proofs::Readings::steps, am_json::proofs::Values::members_long), unfolding(crate::specs::RulesForm::labels_form))]
fn read_labels(alloc: Global, value: &Value) -> Result<RuleLabels, ReadError>
    ensures { Gives (λ l. l) result (labels_form (view value.now)) }
{
    let members = as_object(alloc, value)?;
    check_count(alloc, MAX_RULE_LABELS, members.len())?;
    let none = RuleLabels::none(alloc);
    read_each_member(none, members, |before, name, value| {
        read_next_label(alloc, before, name, value)
    })
}

/// Reads a label, and adds it to those before it.
#[tactic(auto, using(am_json::proofs::Readings::steps), unfolding(crate::specs::RulesForm::next_label_form))]
fn read_next_label(
    alloc: Global,
    before: RuleLabels,
    name: &str,
    value: &Value,
) -> Result<RuleLabels, ReadError>
    ensures { Gives (λ l. l) result (next_label_form before (name.now, view value.now)) }
{
    let text = within_field(alloc, name, read_named_text(alloc, name, value))?;
    let mut labels = before;
    labels.push(alloc, name, text)?;
    Ok(labels)
}
