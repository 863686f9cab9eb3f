//! Pairs of an inhibition rule and a firing alert that its source side matches.

ghost use Rattle.std.specs.Prelude.{◌≡◌, ◌≢◌, ◌<◌, ◌≤◌, ◌++◌, ◌∷◌, [], length, is_some, IfOk};
ghost use Rattle.std.specs.Prelude.{IfErr, IfSome, OnOk};
ghost use Rattle.am_universe.specs.declared.kind.Kind.TheVariants as kinds;
ghost use Rattle.am_labels.specs.Matcher.{all_hold};
ghost use Rattle.am_eval.specs.declared.limits.TheConstants.{MAX_PAIRS};
ghost use Rattle.am_eval.specs.Pairs.{pairs_of, pairs_of_rule};

use crate::limits::MAX_PAIRS;
use am_config::Rule;
use am_labels::PreparedMatchers;
use am_list_files::Alerts;
use am_universe::{Kind, LabelSet};
use std::alloc::{AllocError, Global};

/// An inhibition rule and a firing alert that its source side matches, each by its position.
#[derive(Clone, Copy, Debug)]
pub struct Pair {
    /// The rule, among those of the configuration.
    pub rule: usize,
    /// The alert, among those that fire.
    pub alert: usize,
    /// Whether the target side matches that alert too.
    pub both: bool,
}

/// Returns the pairs of all rules, rule by rule, and for each rule alert by alert. Fails with
/// `Limit` if there are more than [`MAX_PAIRS`], and with `Memory` if memory runs out.
pub(crate) fn pairs_of(alloc: Global, rules: &[Rule], alerts: &Alerts) -> Result<Vec<Pair>, Kind>
    ensures pairs { IfOk result (λ found. found.items ≡ pairs_of rules.now alerts.now) }
    ensures few { IfOk result (λ found. length found.items ≤ MAX_PAIRS) }
    ensures limit { IfErr result (λ kind. kind ≢ kinds.Memory
        → (kind ≡ kinds.Limit) × (MAX_PAIRS < length (pairs_of rules.now alerts.now))) }
{
    let mut found = Vec::new(alloc);
    for (i, rule) in rules.iter().enumerate() {
        add_pairs(alloc, i, rule, alerts, &mut found)?;
    }
    Ok(found)
}

/// Adds the pairs of the rule at this position. Its two sides are prepared once for all alerts,
/// because to prepare a pattern takes far longer than to test a text. One rule is prepared at a
/// time, so the prepared patterns of all rules are never in memory together.
fn add_pairs(
    alloc: Global,
    position: usize,
    rule: &Rule,
    alerts: &Alerts,
    found: &mut Vec<Pair>,
) -> Result<(), Kind>
    requires { length found.old.items ≤ MAX_PAIRS }
    ensures added { OnOk result (found.new.items ≡ found.old.items
        ++ pairs_of_rule alerts.now (position, rule.now)) }
    ensures few { OnOk result (length found.new.items ≤ MAX_PAIRS) }
    ensures limit { IfErr result (λ kind. kind ≢ kinds.Memory → (kind ≡ kinds.Limit)
        × (MAX_PAIRS < length (found.old.items
        ++ pairs_of_rule alerts.now (position, rule.now)))) }
{
    let mut sides = Sides {
        rule: position,
        source: rule.source().prepare(alloc),
        target: rule.target().prepare(alloc),
    };
    for i in 0..alerts.len() {
        if let Some(pair) = sides.pair_with(alloc, i, alerts.get(i))? {
            add_pair(found, pair)?;
        }
    }
    Ok(())
}

/// Both sides of the rule at a position, prepared to test one alert after another.
#[derive(Drop)]
struct Sides<'r> {
    rule: usize,
    source: PreparedMatchers<'r>,
    target: PreparedMatchers<'r>,
}

impl<'r> Sides<'r> {
    /// Returns the pair of the rule and the alert at this position, if the source side matches the
    /// alert. The target side is tested only then.
    fn pair_with(
        &mut self,
        alloc: Global,
        i: usize,
        alert: &LabelSet,
    ) -> Result<Option<Pair>, AllocError>
        ensures matched { IfOk result (λ found.
            is_some found ≡ all_hold alert.now self.old.source) }
        ensures pair { IfOk result (λ found. IfSome found (λ pair. pair ≡ record {
          rule = self.old.rule;
          alert = i;
          both = all_hold alert.now self.old.target;
        })) }
        ensures same { self.new ≡ self.old }
    {
        if !self.source.matches(alloc, alert)? {
            return Ok(None);
        }
        Ok(Some(Pair {
            rule: self.rule,
            alert: i,
            both: self.target.matches(alloc, alert)?,
        }))
    }
}

/// Adds a pair. Fails with `Limit` if there are [`MAX_PAIRS`] already, and with `Memory` if memory
/// runs out.
fn add_pair(found: &mut Vec<Pair>, pair: Pair) -> Result<(), Kind>
    requires { length found.old.items ≤ MAX_PAIRS }
    ensures added { OnOk result (found.new.items ≡ found.old.items ++ pair ∷ []) }
    ensures few { OnOk result (length found.new.items ≤ MAX_PAIRS) }
    ensures limit { IfErr result (λ kind. kind ≢ kinds.Memory → (kind ≡ kinds.Limit)
        × (length found.old.items ≡ MAX_PAIRS)) }
{
    if found.len() == MAX_PAIRS {
        return Err(Kind::Limit);
    }
    found.push(pair)?;
    Ok(())
}
