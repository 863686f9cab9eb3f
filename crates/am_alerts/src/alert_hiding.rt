//! Silences and inhibition of all alerts at once.

ghost use Rattle.std.specs.Prelude.{◌≡◌, ◌<◌, length, slice_get, Some, true, IfOk, OnOk};
ghost use Rattle.std.specs.List.{flat_map, enumerate_from};
ghost use Rattle.am_universe.specs.LabelSet.{LabelMap};
ghost use Rattle.am_labels.specs.Matcher.{all_hold};
ghost use Rattle.am_eval.specs.Silencing.{silencers};
ghost use Rattle.am_eval.specs.Inhibition.{inhibitors, inhibits};
ghost use Rattle.am_alerts.specs.AlertLabels.{flag, AreTruths};
ghost use Rattle.am_alerts.specs.AlertLists.{AreLists, AddsToAll, inhibitors_by};

use crate::alert_labels::AlertLabels;
use crate::alert_lists::{empty_lists, push_where, without};
use am_config::Rule;
use am_eval::World;
use std::alloc::{AllocError, Global};

/// Returns for each alert the positions of the silences that hide it, as [`am_eval::silenced_by`]
/// does for one. Fails only if memory runs out.
pub(crate) fn silencers_of_alerts(
    alloc: Global,
    world: &World,
    labels: &AlertLabels<'_>,
) -> Result<Vec<Vec<usize>>, AllocError>
    ensures { IfOk result (λ found. AreLists labels.now (silencers world.now) found.items) }
{
    let mut found = empty_lists(alloc, labels.alerts().len())?;
    add_silencers(alloc, world, labels, &mut found)?;
    Ok(found)
}

/// Adds for each alert the silences that hide it.
fn add_silencers(
    alloc: Global,
    world: &World,
    labels: &AlertLabels<'_>,
    found: &mut [Vec<usize>],
) -> Result<(), AllocError>
    requires { length found.old ≡ length labels.now }
    ensures added { OnOk result (AddsToAll labels.now (silencers world.now) found.old found.new) }
{
    for i in 0..world.silences().len() {
        if world.active(i) {
            let hidden = labels.matching(alloc, world.silences().get(i).matchers())?;
            push_where(hidden.as_slice(), i, found)?;
        }
    }
    Ok(())
}

/// Returns for each alert what inhibits it, as [`am_eval::inhibited_by`] does for one. The labels
/// must be those of the alerts of the world. Fails only if memory runs out.
pub(crate) fn inhibitors_of_alerts(
    alloc: Global,
    world: &World,
    labels: &AlertLabels<'_>,
) -> Result<Vec<Vec<(usize, usize)>>, AllocError>
    requires { labels.now ≡ world.now.alerts }
    ensures { IfOk result (λ found. AreLists labels.now (inhibitors world.now) found.items) }
{
    let mut found = empty_lists(alloc, labels.alerts().len())?;
    add_inhibitors(alloc, labels, world.config().rules(), &mut found)?;
    Ok(found)
}

/// Adds for each alert what inhibits it by some rules.
fn add_inhibitors(
    alloc: Global,
    labels: &AlertLabels<'_>,
    rules: &[Rule],
    found: &mut [Vec<(usize, usize)>],
) -> Result<(), AllocError>
    requires { length found.old ≡ length labels.now }
    ensures added { OnOk result (AddsToAll labels.now
        (λ s. flat_map (inhibitors_by labels.now s) (enumerate_from 0 rules.now))
        found.old found.new) }
{
    for (i, rule) in rules.iter().enumerate() {
        add_inhibitors_by(alloc, labels, i, rule, found)?;
    }
    Ok(())
}

/// Adds for each alert the firing alerts that inhibit it by the rule at a position.
fn add_inhibitors_by(
    alloc: Global,
    labels: &AlertLabels<'_>,
    position: usize,
    rule: &Rule,
    found: &mut [Vec<(usize, usize)>],
) -> Result<(), AllocError>
    requires { length found.old ≡ length labels.now }
    ensures added { OnOk result (AddsToAll labels.now
        (λ s. inhibitors_by labels.now s (position, rule.now)) found.old found.new) }
{
    let source = labels.matching(alloc, rule.source())?;
    let target = labels.matching(alloc, rule.target())?;
    for firing in 0..labels.alerts().len() {
        if source[firing] {
            let muted = muted_by(alloc, labels, rule, firing, &source, &target)?;
            push_where(muted.as_slice(), (position, firing), found)?;
        }
    }
    Ok(())
}

/// Returns which alerts a firing alert inhibits by a rule, as a truth for each. The source side
/// must match the firing alert, and both sides are given as a truth for each alert.
fn muted_by(
    alloc: Global,
    labels: &AlertLabels<'_>,
    rule: &Rule,
    firing: usize,
    source: &[bool],
    target: &[bool],
) -> Result<Vec<bool>, AllocError>
    requires firing { (firing < length labels.now) × (flag source.now firing ≡ true) }
    requires sides { AreTruths labels.now (λ s. all_hold s rule.now.source) source.now
        × AreTruths labels.now (λ s. all_hold s rule.now.target) target.now }
    ensures count { IfOk result (λ muted. length muted.items ≡ length labels.now) }
    ensures muted { IfOk result (λ muted. (a : LabelMap) → slice_get labels.now firing ≡ Some a
        → AreTruths labels.now (λ s. inhibits rule.now a s) muted.items) }
{
    let among = if target[firing] {
        without(alloc, target, source)?
    } else {
        target.to_vec(alloc)?
    };
    labels.equal_to(
        alloc,
        rule.equal(),
        labels.alerts().get(firing),
        among.as_slice(),
    )
}
