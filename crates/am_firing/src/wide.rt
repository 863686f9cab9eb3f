//! How many other alerts each firing alert inhibits by a rule.

ghost use Rattle.std.specs.Prelude.{◌≡◌, ◌<◌, List, length, map, count_by, slice_get, Some, IfOk};
ghost use Rattle.std.specs.Prelude.{IfSome, vec_len};
ghost use Rattle.am_universe.specs.LabelSet.{LabelMap};
ghost use Rattle.am_config.specs.ConfigFile.{Rule};
ghost use Rattle.am_config.specs.RouteView.{names_of};
ghost use Rattle.am_eval.specs.Inhibition.{inhibits};
ghost use Rattle.am_firing.specs.Deciding.{HaveOneLength, IsDecidedBy, texts_of, values_of};
ghost use Rattle.am_firing.specs.Wide.{inhibited_counts, lacked_names, widest};

use crate::limits::FEWEST_INHIBITED;
use crate::matching::matches_of;
use am_config::Rule;
use am_list_files::Alerts;
use am_report_texts::push_new;
use am_universe::LabelSet;
use std::alloc::{AllocError, Global};

/// What decides for each of some alerts whether it inhibits another by a rule: whether the sides of
/// the rule match it, and its values for the labels in `equal`.
#[derive(Drop)]
struct Deciding<'w> {
    source: Vec<bool>,
    target: Vec<bool>,
    values: Vec<Vec<&'w str>>,
}

/// Returns for each of some alerts how many of them it inhibits by a rule. Each side of the rule is
/// tested once for each alert, and an alert that the source side does not match is compared with no
/// other. Fails only if memory runs out.
pub(crate) fn inhibited_counts(
    alloc: Global,
    rule: &Rule,
    alerts: &Alerts,
) -> Result<Vec<usize>, AllocError>
    ensures { IfOk result (λ counts. counts.items ≡ inhibited_counts rule.now alerts.now) }
{
    let deciding = Deciding {
        source: matches_of(alloc, rule.source(), alerts)?,
        target: matches_of(alloc, rule.target(), alerts)?,
        values: values_of_alerts(alloc, rule.equal(), alerts)?,
    };
    let mut counts = Vec::with_capacity(alloc, alerts.len())?;
    for i in 0..alerts.len() {
        counts.push(count_inhibited(&deciding, i))?;
    }
    Ok(counts)
}

/// Returns the values of each of some alerts for these labels.
fn values_of_alerts<'w>(
    alloc: Global,
    names: &[String],
    alerts: &'w Alerts,
) -> Result<Vec<Vec<&'w str>>, AllocError>
    ensures { IfOk result (λ found. map texts_of found.items
        ≡ map (values_of (names_of names.now)) alerts.now) }
{
    let mut found = Vec::with_capacity(alloc, alerts.len())?;
    for i in 0..alerts.len() {
        found.push(values_of(alloc, names, alerts.get(i))?)?;
    }
    Ok(found)
}

/// Returns the values of an alert for these labels.
fn values_of<'w>(
    alloc: Global,
    names: &[String],
    alert: &'w LabelSet,
) -> Result<Vec<&'w str>, AllocError>
    ensures { IfOk result (λ found. texts_of found ≡ values_of (names_of names.now) alert.now) }
{
    let mut found = Vec::with_capacity(alloc, names.len())?;
    for name in names {
        found.push(alert.get(name))?;
    }
    Ok(found)
}

/// Returns how many of some alerts the one at a position inhibits by a rule, by what decides this.
fn count_inhibited(deciding: &Deciding<'_>, firing: usize) -> usize
    requires as_many { HaveOneLength deciding.now }
    requires firing { firing < vec_len deciding.now.source }
    ensures { (rule : Rule) (alerts : List LabelMap) (alert : LabelMap)
        → IsDecidedBy rule alerts deciding.now → slice_get alerts firing ≡ Some alert
        → result ≡ count_by (inhibits rule alert) alerts }
{
    if !deciding.source[firing] {
        return 0;
    }
    let mut count = 0;
    for other in 0..deciding.source.len() {
        if inhibits(deciding, firing, other) {
            count += 1;
        }
    }
    count
}

/// Whether an alert inhibits another by a rule, by what decides this. Both are given by their
/// positions.
fn inhibits(deciding: &Deciding<'_>, firing: usize, other: usize) -> bool
    requires as_many { HaveOneLength deciding.now }
    requires firing { firing < vec_len deciding.now.source }
    requires other { other < vec_len deciding.now.source }
    ensures { (rule : Rule) (alerts : List LabelMap) (alert inhibited : LabelMap)
        → IsDecidedBy rule alerts deciding.now → slice_get alerts firing ≡ Some alert
        → slice_get alerts other ≡ Some inhibited → result ≡ inhibits rule alert inhibited }
{
    let is_source = deciding.source[firing];
    let is_target = deciding.target[other];
    let are_two_sided = deciding.target[firing] & deciding.source[other];
    is_source && is_target && !are_two_sided && deciding.values[firing] == deciding.values[other]
}

/// Returns the position of the first alert that inhibits the most, and how many it inhibits, if
/// these are many. `counts` has for each alert how many it inhibits.
pub(crate) fn widest(counts: &[usize]) -> Option<(usize, usize)>
    ensures widest { result ≡ widest counts.now }
    ensures within { IfSome result (λ found. found.0 < length counts.now) }
{
    let mut most = (0, 0);
    for (i, count) in counts.iter().enumerate() {
        if *count > most.1 {
            most = (i, *count);
        }
    }
    if most.1 >= FEWEST_INHIBITED && (counts.len() - 1).div_ceil(2) <= most.1 {
        Some(most)
    } else {
        None
    }
}

/// Returns the labels in `equal` of a rule that an alert lacks, each once. Fails only if memory
/// runs out.
pub(crate) fn lacked_names<'a>(
    alloc: Global,
    rule: &'a Rule,
    alert: &LabelSet,
) -> Result<Vec<&'a str>, AllocError>
    ensures { IfOk result (λ names.
        texts_of names ≡ lacked_names rule.now alert.now) }
{
    let mut names = Vec::new(alloc);
    for name in rule.equal() {
        if alert.get(name).is_empty() {
            push_new(name, &mut names)?;
        }
    }
    Ok(names)
}
