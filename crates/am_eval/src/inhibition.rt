//! Inhibition: which alerts are muted while others fire.

ghost use Rattle.std.specs.Prelude.{◌≡◌, Contains, IfOk, IsTrue};
ghost use Rattle.am_labels.specs.Matcher.{all_hold};
ghost use Rattle.am_config.specs.RouteView.{names_of};
ghost use Rattle.am_eval.specs.Pairs.{pairs_of};
ghost use Rattle.am_eval.specs.Inhibition.{have_equal, inhibits, pair_inhibits, inhibitors};

use crate::pair::Pair;
use crate::world::World;
use am_config::Rule;
use am_universe::LabelSet;
use std::alloc::{AllocError, Global};

/// Returns what inhibits an alert with these labels: each rule, with each firing alert that
/// inhibits it by that rule.
///
/// Both are given by their positions, rule by rule, and for each rule alert by alert (Alertmanager
/// configuration reference 0.25, `<inhibit_rule>`). Fails only if memory runs out.
pub fn inhibited_by(
    alloc: Global,
    world: &World,
    set: &LabelSet,
) -> Result<Vec<(usize, usize)>, AllocError>
    ensures inhibitors { IfOk result (λ found. found.items ≡ inhibitors world.now set.now) }
{
    let mut found = Vec::new(alloc);
    for pair in world.pairs() {
        if pair_inhibits(alloc, world, *pair, set)? {
            found.push((pair.rule, pair.alert))?;
        }
    }
    Ok(found)
}

/// Whether the alert of a pair inhibits an alert with these labels, by the rule of the pair.
fn pair_inhibits(
    alloc: Global,
    world: &World,
    pair: Pair,
    set: &LabelSet,
) -> Result<bool, AllocError>
    requires { Contains (pairs_of world.now.config.rules world.now.alerts) pair }
    ensures { IfOk result (λ muted. muted ≡ pair_inhibits world.now set.now pair) }
{
    let rule = &world.config().rules()[pair.rule];
    inhibits(alloc, rule, world.alerts().get(pair.alert), pair.both, set)
}

/// Whether a firing alert, which the source side of a rule matches, inhibits an alert with these
/// labels by that rule. `both` says whether the target side matches the firing alert too.
fn inhibits(
    alloc: Global,
    rule: &Rule,
    firing: &LabelSet,
    both: bool,
    set: &LabelSet,
) -> Result<bool, AllocError>
    requires source { IsTrue (all_hold firing.now rule.now.source) }
    requires both { both ≡ all_hold firing.now rule.now.target }
    ensures { IfOk result (λ muted. muted ≡ inhibits rule.now firing.now set.now) }
{
    if !have_equal(rule.equal(), firing, set) || !rule.target().matches(alloc, set)? {
        return Ok(false);
    }
    Ok(!both || !rule.source().matches(alloc, set)?)
}

/// Whether two alerts have the same values for these labels.
fn have_equal(names: &[String], alert: &LabelSet, set: &LabelSet) -> bool
    ensures { result ≡ have_equal (names_of names.now) alert.now set.now }
{
    names.iter().all(|name| alert.get(name) == set.get(name))
}
