//! The outcomes under two configurations that are changes, and the receivers that lose or gain
//! alerts.

ghost use Rattle.std.specs.Prelude.{◌≡◌, find, map, option_map, IfOk};
ghost use Rattle.am_universe.specs.Universe.{sizes};
ghost use Rattle.am_universe.specs.Choice.{IsWhole};
ghost use Rattle.am_universe.specs.LabelSet.{label_pairs};
ghost use Rattle.am_labels.specs.Space.{Space};
ghost use Rattle.am_config.specs.ConfigView.{config_view};
ghost use Rattle.am_outcomes.specs.Configurations.{Pair};
ghost use Rattle.am_outcomes.specs.Outcomes.{outcomes_of};
ghost use Rattle.am_outcomes.specs.Changes.{changes_of, is_among, is_only_among, lists_differ};
ghost use Rattle.am_outcomes.specs.Changes.{first_on_one_side, shown_change, without_groups};
ghost use Rattle.am_outcomes.specs.OutcomesView.{founds_view, labels_view, lists_view, names_on};

use crate::found::Outcomes;
use crate::handling::have_same_names;
use crate::outcome_lines::list_at;
use am_config::Config;
use am_report_texts::{Shown, label_set, receiver_name};
use am_universe::{Choice, Universe};
use std::alloc::{AllocError, Global};
use std::marker::Model;

/// A change, as its line shows it.
#[derive(Drop)]
pub struct ShownChange<'a> {
    /// The group of the alerting rule whose alerts change, if alerting rules are asked about.
    pub group: Option<&'a str>,
    /// The lists of the outcome.
    pub lists: &'a [Vec<usize>],
    /// The labels of an alert that has the outcome.
    pub labels: Vec<(&'a str, &'a str)>,
}

impl<'a> Model for ShownChange<'a> {
    ghost use Rattle.std.specs.Prelude.{map, option_map};
    ghost use Rattle.am_outcomes.specs.Changes as spec;

    ghost Value = { spec.ShownChange };

    ghost view = { λ c. record {
      group = option_map (λ g. g.now) c.group;
      lists = map (λ list. list.items) c.lists.now;
      labels = map (λ l. (l.0.now, l.1.now)) c.labels.items;
    } };
}

/// A receiver that loses or gains alerts, and the first change that has it on one side only.
#[derive(Clone, Copy, Drop)]
pub(crate) struct FoundReceiver<'a, 'c> {
    pub name: &'a str,
    pub change: &'c ShownChange<'a>,
}

/// A configuration, and the position of the list in an outcome that has its receivers.
#[derive(Clone, Copy)]
pub(crate) struct Side<'a> {
    pub config: &'a Config,
    pub list: usize,
}

/// Returns the changes among the outcomes of every alert, each with the label set of its first
/// choice. The outcomes must be those of a space with the labels of the universe. Fails only if
/// memory runs out.
pub fn shown_changes<'a>(
    alloc: Global,
    universe: &'a Universe,
    old: &Config,
    new: &Config,
    outcomes: &'a Outcomes,
) -> Result<Vec<ShownChange<'a>>, AllocError>
    requires { (s : Space) × (s.labels ≡ universe.now) × (outcomes.now
        ≡ outcomes_of s (Pair (config_view old.now) (config_view new.now))) }
    ensures changes { IfOk result (λ changes. changes.items ≡ map (shown_change universe.now)
        (changes_of (config_view old.now) (config_view new.now) outcomes.now)) }
{
    let mut changes = Vec::new(alloc);
    for i in 0..outcomes.len() {
        let (lists, first) = outcomes.get(i);
        if is_change(old, new, lists) {
            changes.push(ShownChange {
                group: None,
                lists,
                labels: labels_of(alloc, universe, first)?,
            })?;
        }
    }
    Ok(changes)
}

/// Returns the label set of a whole choice.
fn labels_of<'a>(
    alloc: Global,
    universe: &'a Universe,
    choice: &Choice,
) -> Result<Vec<(&'a str, &'a str)>, AllocError>
    requires { IsWhole (sizes universe.now) choice.now }
    ensures { IfOk result (λ labels.
        labels_view labels.items ≡ label_pairs universe.now choice.now) }
{
    match label_set(alloc, universe, choice)? {
        Shown::Labels(labels) => Ok(labels),
        _ => unreachable!(),
    }
}

/// Whether an outcome under two configurations is a change: the names of the receivers differ, or
/// some options do.
pub fn is_change(old: &Config, new: &Config, lists: &[Vec<usize>]) -> bool
    ensures change { result
        ≡ lists_differ (config_view old.now) (config_view new.now) (lists_view lists.now) }
{
    !have_same_names(old, list_at(lists, 0), new, list_at(lists, 1))
        || !list_at(lists, 2).is_empty()
}

/// Returns the receivers of one side that some change has on this side only, each with the first
/// such change. Fails only if memory runs out.
pub(crate) fn first_on_one_side<'a, 'c>(
    alloc: Global,
    side: Side<'a>,
    other: Side<'_>,
    changes: &'c [ShownChange<'a>],
) -> Result<Vec<FoundReceiver<'a, 'c>>, AllocError>
    ensures { IfOk result (λ found. founds_view found.items ≡ first_on_one_side
        (names_on side.entry) (names_on other.entry) (without_groups changes.now)
        (config_view side.entry.config.now).receivers) }
{
    let mut found = Vec::new(alloc);
    for receiver in 0..side.config.receivers() {
        let name = side.config.receiver_name(receiver);
        if let Some(change) = first_with(side, other, changes, name) {
            found.push(FoundReceiver { name, change })?;
        }
    }
    Ok(found)
}

/// The first change that has a receiver of this name on one side only.
fn first_with<'a, 'c>(
    side: Side<'_>,
    other: Side<'_>,
    changes: &'c [ShownChange<'a>],
    name: &str,
) -> Option<&'c ShownChange<'a>>
    ensures { option_map (λ change. change.now.labels) result ≡ option_map (λ change. change.1)
        (find (λ change. is_only_among (names_on side.entry change.0)
        (names_on other.entry change.0) name.now) (without_groups changes.now)) }
{
    for change in changes {
        if is_among(side, change.lists, name) && !is_among(other, change.lists, name) {
            return Some(change);
        }
    }
    None
}

/// Whether an outcome has a receiver of this name on a side.
fn is_among(side: Side<'_>, lists: &[Vec<usize>], name: &str) -> bool
    ensures { result ≡ is_among (names_on side.entry (lists_view lists.now)) name.now }
{
    for receiver in list_at(lists, side.list) {
        if name == receiver_name(side.config, *receiver) {
            return true;
        }
    }
    false
}
