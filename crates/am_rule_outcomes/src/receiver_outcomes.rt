//! To which receivers the label sets of a narrowed universe go, and whether they are silenced.

ghost use Rattle.std.specs.Prelude.{◌≡◌, ℕ, List, map, IfOk};
ghost use Rattle.std.specs.List.{list_any};
ghost use Rattle.am_universe.specs.Text.{same_text};
ghost use Rattle.am_rule_outcomes.specs.ReceiverOutcomes.{receiver_outcomes, silenced_of};
ghost use Rattle.am_rule_outcomes.specs.ReceiverOutcomes.{some_with};
ghost use Rattle.am_rule_outcomes.specs.NarrowingView.{receiver_outcome_view};

use am_outcomes::{Outcomes, list_at};
use am_universe::Choice;
use indexmap::IndexSet;
use std::alloc::{AllocError, Global};

/// How many of some alerts are silenced.
#[derive(Clone, Copy, PartialEq, Eq, Drop)]
pub(crate) enum Silenced {
    No,
    Partly,
    All,
}

/// A list of receivers to which some choice of a narrowed universe goes, by their positions, with
/// the first such choice, and how many of all these choices are silenced.
#[derive(Drop)]
pub(crate) struct ReceiverOutcome<'a> {
    pub(crate) receivers: &'a [usize],
    pub(crate) first: &'a Choice,
    pub(crate) silenced: Silenced,
}

/// Returns each list of receivers among some outcomes once. The first list of an outcome are its
/// receivers. If its second list has an item, it is silenced. Fails only if memory runs out.
pub(crate) fn receiver_outcomes<'a>(
    alloc: Global,
    outcomes: &'a Outcomes,
) -> Result<Vec<ReceiverOutcome<'a>>, AllocError>
    ensures { IfOk result (λ found. map receiver_outcome_view found.items
        ≡ receiver_outcomes outcomes.now) }
{
    let silenced = receivers_where(alloc, outcomes, true)?;
    let others = receivers_where(alloc, outcomes, false)?;
    let mut seen: IndexSet<&[usize]> = IndexSet::new(alloc);
    let mut found = Vec::new(alloc);
    for i in 0..outcomes.len() {
        let (lists, first) = outcomes.get(i);
        let receivers = list_at(lists, 0);
        if seen.insert(receivers)? {
            found.push(ReceiverOutcome {
                receivers,
                first,
                silenced: silenced_of(silenced.contains(receivers), others.contains(receivers)),
            })?;
        }
    }
    Ok(found)
}

/// The receivers of the outcomes that are silenced, or of those that are not.
fn receivers_where<'a>(
    alloc: Global,
    outcomes: &'a Outcomes,
    are_silenced: bool,
) -> Result<IndexSet<&'a [usize]>, AllocError>
    ensures { IfOk result (λ found. (rs : List ℕ)
        → list_any (λ k. same_text rs k.now) found.keys
        ≡ some_with are_silenced outcomes.now rs) }
{
    let mut found = IndexSet::new(alloc);
    for i in 0..outcomes.len() {
        let (lists, _) = outcomes.get(i);
        if !list_at(lists, 1).is_empty() == are_silenced {
            found.insert(list_at(lists, 0))?;
        }
    }
    Ok(found)
}

/// How many alerts are silenced, if some are or are not, and some others are not or are.
fn silenced_of(some_are: bool, some_are_not: bool) -> Silenced
    ensures { result ≡ silenced_of some_are some_are_not }
{
    match (some_are, some_are_not) {
        (true, true) => Silenced::Partly,
        (true, false) => Silenced::All,
        (false, _) => Silenced::No,
    }
}
