//! What the alerts of alerting rules reach.
//!
//! Where they end is found over one universe for the routes, and which of them a side of an
//! inhibition rule matches over a universe for that side alone, as in am_idle. If there is none for
//! a side, nothing is said of it.

ghost use Rattle.std.specs.Prelude.{◌≡◌, ◌≢◌, ◌||◌, [], ℕ, List, IfOk, IfErr, IfSome, OnOk};
ghost use Rattle.std.specs.Prelude.{length, map, option_copied, option_map, true};
ghost use Rattle.std.specs.List.{AllByRecursion, AllZip, list_any, range_with_len};
ghost use Rattle.am_universe.specs.declared.kind.Kind.TheVariants as kinds;
ghost use Rattle.am_json.specs.Reading.{refusal_of};
ghost use Rattle.am_alerting_rules.specs.RulesFile.{HasNames};
ghost use Rattle.am_alerting_rules.specs.RuleTexts.{HasUtf8Texts};
ghost use Rattle.am_config.specs.ConfigView.{config_view};
ghost use Rattle.am_firing.specs.Reach.{leads_to, paths_of, reached_view};
ghost use Rattle.am_outcomes.specs.Configurations.{Ends};
ghost use Rattle.am_outcomes.specs.OutcomesView.{lists_view};
ghost use Rattle.am_rule_outcomes.specs.NarrowingView.{rule_outcomes_view};
ghost use Rattle.am_reports.specs.RulesOutcomes.{IsRulesRefusal};
ghost use Rattle.am_reports.specs.RulesReach.{AreReachedIfAny, IsReachRefusal, fixed_sets};
ghost use Rattle.am_reports.specs.RulesReach.{AreReached, AreSides, IsMatched};
ghost use Rattle.am_reports.specs.RulesReach.{enters_by, goes_by, lists_found};

use crate::rules_outcomes::outcomes_of_all_rules;
use am_alerting_rules::AlertingRule;
use am_classes::Alphabet;
use am_config::{Config, Rule};
use am_firing::Reached;
use am_first_sets::Budget;
use am_labels::{Matchers, Space};
use am_outcomes::{Configs, Outcomes, list_at};
use am_rule_outcomes::RuleOutcomes;
use am_universe::{Fault, Kind, LabelSet};
use indexmap::IndexSet;
use std::alloc::{AllocError, Global};

/// Returns the label sets that alerting rules fix, if they are known. Fails only if memory runs
/// out.
pub(crate) fn fixed_sets(
    alloc: Global,
    alerting: Option<&[AlertingRule]>,
) -> Result<Vec<LabelSet>, AllocError>
    ensures { IfOk result (λ sets. sets.items ≡ fixed_sets (option_copied alerting.entry)) }
{
    let rules = alerting.unwrap_or(&[]);
    let mut sets = Vec::with_capacity(alloc, rules.len())?;
    for rule in rules {
        sets.push(rule.fixed_set(alloc)?)?;
    }
    Ok(sets)
}

/// Finds what the alerts of alerting rules reach that count, if the rules are known. The space
/// declares no label before.
///
/// Fails as [`outcomes_of_all_rules`] does for where alerts end.
pub(crate) fn reached_if_any(
    alloc: Global,
    alphabet: Alphabet,
    space: &mut Space,
    config: &Config,
    alerting: Option<&[AlertingRule]>,
    budget: &mut Budget,
) -> Result<Option<Reached>, Fault>
    requires labels { space.old.labels ≡ [] }
    requires names { IfSome (option_copied alerting) (AllByRecursion HasNames) }
    requires texts { IfSome (option_copied alerting) (AllByRecursion HasUtf8Texts) }
    ensures reached { IfOk result (λ reached. AreReachedIfAny alphabet space.old
        (config_view config.now) (option_copied alerting.entry) (option_map reached_view reached)) }
    ensures refused { IfErr result (λ fault. fault.kind ≢ kinds.Memory
        → IsReachRefusal alphabet space.old (config_view config.now) (option_copied alerting.entry)
        fault.place (refusal_of fault)) }
{
    match alerting {
        Some(rules) => match reached_by_rules(alloc, alphabet, space, config, rules, budget) {
            Ok(reached) => Ok(Some(reached)),
            Err(fault) => Err(fault),
        },
        None => Ok(None),
    }
}

/// Finds what the alerts of rules reach that count. The space declares no label before.
///
/// Fails as [`outcomes_of_all_rules`] does for where alerts end.
fn reached_by_rules(
    alloc: Global,
    alphabet: Alphabet,
    space: &mut Space,
    config: &Config,
    rules: &[AlertingRule],
    budget: &mut Budget,
) -> Result<Reached, Fault>
    requires labels { space.old.labels ≡ [] }
    requires names { AllByRecursion HasNames rules.now }
    requires texts { AllByRecursion HasUtf8Texts rules.now }
    ensures reached { IfOk result (λ reached. AreReached alphabet space.old
        (config_view config.now) rules.now (reached_view reached)) }
    ensures refused { IfErr result (λ fault. fault.kind ≢ kinds.Memory
        → IsRulesRefusal alphabet space.old (Ends (config_view config.now)) rules.now fault.place
        (refusal_of fault)) }
{
    let Ok(sides) = sides_matched(alloc, alphabet, space, config.rules(), rules, budget) else {
        return Err(Fault::memory(alloc));
    };
    let configs = Configs::Ends(config);
    let found = outcomes_of_all_rules(alloc, alphabet, space, configs, rules, budget)?;
    match reached_in(alloc, config, &found, sides) {
        Ok(reached) => Ok(reached),
        Err(_) => Err(Fault::memory(alloc)),
    }
}

/// Returns what is reached, by the outcomes of rules, each the receivers and then the ends of some
/// alerts. Fails only if memory runs out.
fn reached_in(
    alloc: Global,
    config: &Config,
    found: &RuleOutcomes,
    sides: Vec<(bool, bool)>,
) -> Result<Reached, AllocError>
    ensures any { IfOk result (λ reached. reached.is_any
        ≡ list_any (λ lists. true) (lists_found (rule_outcomes_view found.now))) }
    ensures ends { IfOk result (λ reached. (path : List ℕ)
        → leads_to (paths_of reached.ends) path
        ≡ list_any (enters_by path) (lists_found (rule_outcomes_view found.now))) }
    ensures receivers { IfOk result (λ reached. reached.receivers.items
        ≡ map (λ r. list_any (goes_by r) (lists_found (rule_outcomes_view found.now)))
        (range_with_len 0 (length (config_view config.now).receivers))) }
    ensures sides { IfOk result (λ reached. reached.sides.items ≡ sides.items) }
{
    let mut receivers = Vec::with_capacity(alloc, config.receivers())?;
    for receiver in 0..config.receivers() {
        receivers.push(some_goes(found, receiver))?;
    }
    Ok(Reached {
        is_any: is_any(found),
        ends: ends_in(alloc, found)?,
        receivers,
        sides,
    })
}

/// Whether rules have an outcome.
fn is_any(found: &RuleOutcomes) -> bool
    ensures { result ≡ list_any (λ lists. true) (lists_found (rule_outcomes_view found.now)) }
{
    for i in 0..found.of_rules.len() {
        if let Some(narrowed) = found.of_rule(i) {
            if narrowed.outcomes.len() > 0 {
                return true;
            }
        }
    }
    false
}

/// Whether the first list of one of the outcomes of rules has a receiver.
fn some_goes(found: &RuleOutcomes, receiver: usize) -> bool
    ensures { result
        ≡ list_any (goes_by receiver) (lists_found (rule_outcomes_view found.now)) }
{
    for i in 0..found.of_rules.len() {
        if let Some(narrowed) = found.of_rule(i) {
            if one_goes(narrowed.outcomes, receiver) {
                return true;
            }
        }
    }
    false
}

fn one_goes(outcomes: &Outcomes, receiver: usize) -> bool
    ensures { result
        ≡ list_any (goes_by receiver) (map (λ outcome. outcome.0) outcomes.now) }
{
    for i in 0..outcomes.len() {
        let (lists, _) = outcomes.get(i);
        if list_at(lists, 0).contains(&receiver) {
            return true;
        }
    }
    false
}

/// Returns the paths of the ends in the outcomes of rules, each once.
fn ends_in(alloc: Global, found: &RuleOutcomes) -> Result<IndexSet<Vec<usize>>, AllocError>
    ensures { IfOk result (λ ends. (path : List ℕ) → leads_to (paths_of ends) path
        ≡ list_any (enters_by path) (lists_found (rule_outcomes_view found.now))) }
{
    let mut ends = IndexSet::new(alloc);
    for i in 0..found.of_rules.len() {
        if let Some(narrowed) = found.of_rule(i) {
            add_outcomes(alloc, &mut ends, narrowed.outcomes)?;
        }
    }
    Ok(ends)
}

/// Adds the ends of outcomes.
fn add_outcomes(
    alloc: Global,
    ends: &mut IndexSet<Vec<usize>>,
    outcomes: &Outcomes,
) -> Result<(), AllocError>
    ensures { OnOk result ((path : List ℕ) → leads_to (paths_of ends.new) path
        ≡ (leads_to (paths_of ends.old) path
        || list_any (enters_by path) (map (λ outcome. outcome.0) outcomes.now))) }
{
    for i in 0..outcomes.len() {
        let (lists, _) = outcomes.get(i);
        if let Some((_, paths)) = lists.split_first() {
            add_ends(alloc, ends, paths)?;
        }
    }
    Ok(())
}

/// Adds the paths of ends.
fn add_ends(
    alloc: Global,
    ends: &mut IndexSet<Vec<usize>>,
    paths: &[Vec<usize>],
) -> Result<(), AllocError>
    ensures { OnOk result ((path : List ℕ) → leads_to (paths_of ends.new) path
        ≡ (leads_to (paths_of ends.old) path || leads_to (lists_view paths.now) path)) }
{
    for path in paths {
        ends.insert(Vec::from_slice(alloc, path.as_slice())?)?;
    }
    Ok(())
}

/// Returns for each inhibition rule whether its sides match some alert of alerting rules that
/// counts, or this is not known. The space declares no label, before and after. Fails only if
/// memory runs out.
fn sides_matched(
    alloc: Global,
    alphabet: Alphabet,
    space: &mut Space,
    inhibition: &[Rule],
    rules: &[AlertingRule],
    budget: &mut Budget,
) -> Result<Vec<(bool, bool)>, AllocError>
    requires labels { space.old.labels ≡ [] }
    requires names { AllByRecursion HasNames rules.now }
    requires texts { AllByRecursion HasUtf8Texts rules.now }
    ensures each { IfOk result (λ found.
        AllZip (AreSides alphabet space.old rules.now) inhibition.now found.items) }
    ensures labels { space.new.labels ≡ [] }
    ensures impossible { space.new.impossible ≡ space.old.impossible }
{
    let mut found = Vec::with_capacity(alloc, inhibition.len())?;
    for rule in inhibition {
        let source = is_matched(alloc, alphabet, space, rule.source(), rules, budget)?;
        let target = is_matched(alloc, alphabet, space, rule.target(), rules, budget)?;
        found.push((source, target))?;
    }
    Ok(found)
}

/// Whether a list of matchers matches some alert of alerting rules that counts, or this is not
/// known. The space declares no label, before and after. Fails only if memory runs out.
fn is_matched(
    alloc: Global,
    alphabet: Alphabet,
    space: &mut Space,
    matchers: &Matchers,
    rules: &[AlertingRule],
    budget: &mut Budget,
) -> Result<bool, AllocError>
    requires labels { space.old.labels ≡ [] }
    requires names { AllByRecursion HasNames rules.now }
    requires texts { AllByRecursion HasUtf8Texts rules.now }
    ensures matched { IfOk result (IsMatched alphabet space.old rules.now matchers.now) }
    ensures labels { space.new.labels ≡ [] }
    ensures impossible { space.new.impossible ≡ space.old.impossible }
{
    let configs = Configs::Matched(matchers);
    let found = outcomes_of_all_rules(alloc, alphabet, space, configs, rules, budget);
    space.undeclare(alloc);
    match found {
        // A list that matches gives an outcome with the one item 0.
        Ok(found) => Ok(some_goes(&found, 0)),
        Err(fault) if fault.kind == Kind::Memory => Err(AllocError),
        Err(_) => Ok(true),
    }
}
