//! The inhibition rules of a configuration, and which of them another one lacks.

ghost use Rattle.std.specs.Prelude.{◌≡◌, IfOk};
ghost use Rattle.std.specs.List.{list_any};
ghost use Rattle.am_universe.specs.Text.{same_text};
ghost use Rattle.am_config.specs.ConfigView.{whole_config_view};
ghost use Rattle.am_config.specs.RouteView.{names_of};
ghost use Rattle.am_differences.specs.RuleParts.{named_rules, rules_only_in, has_rule, same_rule};
ghost use Rattle.am_differences.specs.RuleParts.{same_matchers, has_matchers, same_matcher};
ghost use Rattle.am_differences.specs.RuleParts.{has_names};
ghost use Rattle.am_differences.specs.SameValue.{same_value};
ghost use Rattle.am_differences.specs.PartsView.{rule_view, rules_view, value_or_null};

use crate::parts::rule_values;
use crate::same_value;
use am_config::{Rule, WholeConfig};
use am_json::field;
use am_labels::{Matcher, Matchers};
use serde_json::Value;
use std::alloc::{AllocError, Global};

/// A rule, with the value of its field `name`.
#[derive(Clone, Copy, Drop)]
pub(crate) struct NamedRule<'a> {
    pub rule: &'a Rule,
    pub name: Option<&'a Value>,
}

/// Returns the rules of a configuration. Fails only if memory runs out.
pub(crate) fn named_rules(
    alloc: Global,
    config: &WholeConfig,
) -> Result<Vec<NamedRule<'_>>, AllocError>
    ensures { IfOk result (λ rules.
        rules_view rules.items ≡ named_rules (whole_config_view config.now)) }
{
    let mut rules = Vec::new(alloc);
    for (rule, value) in config.config.rules().iter().zip(rule_values(config)) {
        rules.push(NamedRule {
            rule,
            name: field(value, "name"),
        })?;
    }
    Ok(rules)
}

/// Returns the rules that are not among others, each once. Fails only if memory runs out.
pub(crate) fn rules_only_in<'a>(
    alloc: Global,
    rules: &[NamedRule<'a>],
    others: &[NamedRule<'a>],
) -> Result<Vec<NamedRule<'a>>, AllocError>
    ensures { IfOk result (λ found. rules_view found.items
        ≡ rules_only_in (rules_view rules.now) (rules_view others.now)) }
{
    let mut found = Vec::new(alloc);
    for rule in rules {
        if !has_rule(others, rule) && !has_rule(found.as_slice(), rule) {
            found.push(*rule)?;
        }
    }
    Ok(found)
}

/// Whether one of some rules is the same as this one.
fn has_rule(rules: &[NamedRule<'_>], rule: &NamedRule<'_>) -> bool
    ensures { result ≡ has_rule (rules_view rules.now) (rule_view rule.now) }
{
    rules.iter().any(|other| same_rule(rule, other))
}

/// Whether two rules are the same: they have the same matchers on each side, the same labels in
/// `equal`, and the same name. Neither the order of matchers and labels counts, nor how often one
/// stands there.
fn same_rule(one: &NamedRule<'_>, other: &NamedRule<'_>) -> bool
    ensures { result ≡ same_rule (rule_view one.now) (rule_view other.now) }
{
    let (rule, other_rule) = (one.rule, other.rule);
    same_matchers(rule.source(), other_rule.source())
        && same_matchers(rule.target(), other_rule.target())
        && has_names(rule.equal(), other_rule.equal())
        && has_names(other_rule.equal(), rule.equal())
        && same_name(one.name, other.name)
}

/// Whether two names of rules are the same. No name counts as `null`.
fn same_name(one: Option<&Value>, other: Option<&Value>) -> bool
    ensures { result ≡ same_value (value_or_null one.entry) (value_or_null other.entry) }
{
    match (one, other) {
        (Some(a), Some(b)) => same_value(a, b),
        (Some(a), None) => a.is_null(),
        (None, Some(b)) => b.is_null(),
        (None, None) => true,
    }
}

fn same_matchers(ones: &Matchers, others: &Matchers) -> bool
    ensures { result ≡ same_matchers ones.now others.now }
{
    has_matchers(ones, others) && has_matchers(others, ones)
}

/// Whether each of some matchers is the same as one of these.
fn has_matchers(matchers: &Matchers, others: &Matchers) -> bool
    ensures { result ≡ has_matchers matchers.now others.now }
{
    for i in 0..others.len() {
        if !has_matcher(matchers, others.get(i)) {
            return false;
        }
    }
    true
}

fn has_matcher(matchers: &Matchers, matcher: &Matcher) -> bool
    ensures { result ≡ list_any (same_matcher matcher.now) matchers.now }
{
    for i in 0..matchers.len() {
        if same_matcher(matcher, matchers.get(i)) {
            return true;
        }
    }
    false
}

fn same_matcher(one: &Matcher, other: &Matcher) -> bool
    ensures { result ≡ same_matcher one.now other.now }
{
    one.name() == other.name()
        && one.op().text() == other.op().text()
        && one.value() == other.value()
}

/// Whether each of some names is one of these.
fn has_names(names: &[String], others: &[String]) -> bool
    ensures { result ≡ has_names (names_of names.now) (names_of others.now) }
{
    others.iter().all(|other| is_one_of(other.as_str(), names))
}

fn is_one_of(name: &str, names: &[String]) -> bool
    ensures { result ≡ list_any (same_text name.now) (names_of names.now) }
{
    names.iter().any(|other| name == other.as_str())
}
