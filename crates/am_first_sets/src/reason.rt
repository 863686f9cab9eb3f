//! The search for literals that are to blame.
//!
//! A search that finds no choice says which literals it used. So a reason begins with these, and
//! literal after literal is left out as long as a search still finds no choice. It then keeps only
//! what that search used. So most literals need no search of their own.

ghost use Rattle.std.specs.Prelude.{◌≡◌, ◌<◌, ◌≤◌, ◌+◌, ℕ, List, length, slice_get, Some, None};
ghost use Rattle.std.specs.Prelude.{IfOk, OnOk, IsTrue, IsFalse, get_or, false};
ghost use Rattle.am_first_sets.specs.declared.candidate.Candidate.{Candidate};
ghost use Rattle.am_first_sets.specs.Literals.{IsMet, IsUnmet};
ghost use Rattle.am_first_sets.specs.PossibleChoices.{IsPossible};
ghost use Rattle.am_first_sets.specs.Reason.{AreSameLiterals, AreFewer, AreNamedBefore};
ghost use Rattle.am_first_sets.specs.Reason.{renamed, without, named_first, kept, IsReason};
ghost use Rattle.am_first_sets.specs.Reason.{EachFailsFirst};

use crate::budget::{Budget, Unfinished};
use crate::candidate::Candidate;
use crate::meeting::refute_meeting;
use crate::possible_choices::PossibleChoices;
use std::alloc::Global;

/// Takes the names off literals that are not needed, from a position on: first off those that a
/// search does not use, and then off one after the other. Those that ask about few labels come
/// last, so these rather stay.
///
/// There must be no possible choice that meets the named literals, and those before the position
/// must be named. Without any one of those that are left named behind it, some possible choice
/// meets the others. Fails if the budget is used up or memory runs out; then any of the literals
/// may have lost their names.
pub fn leave_out(
    alloc: Global,
    possible: &PossibleChoices,
    candidates: &mut [Candidate<'_>],
    from: usize,
    budget: &mut Budget,
) -> Result<(), Unfinished>
    requires first { AreNamedBefore from candidates.old }
    requires enough { IsUnmet (IsPossible possible.now) candidates.old }
    ensures same { AreSameLiterals candidates.old candidates.new }
    ensures reason { OnOk result (IsReason (IsPossible possible.now) from candidates.new) }
{
    refute(alloc, possible, candidates, from, budget)?;
    // Literals that ask about the fewest labels need no turn of their own.
    let (fewest, most) = label_counts(candidates.get(from..).unwrap_or(&[]));
    for labels in (fewest..most).rev() {
        leave_out_those(alloc, possible, candidates, from, Some(labels + 1), budget)?;
    }
    leave_out_those(alloc, possible, candidates, from, None, budget)
}

/// Takes names off as `leave_out` does, under the same conditions, and also off each literal from
/// the position on that is idle: no possible choice fails it *first*, after it met all literals
/// before it. Fails if the budget is used up or memory runs out.
pub fn leave_out_idle(
    alloc: Global,
    possible: &PossibleChoices,
    candidates: &mut [Candidate<'_>],
    from: usize,
    budget: &mut Budget,
) -> Result<(), Unfinished>
    requires first { AreNamedBefore from candidates.old }
    requires enough { IsUnmet (IsPossible possible.now) candidates.old }
    ensures same { OnOk result (AreSameLiterals candidates.old candidates.new) }
    ensures reason { OnOk result (IsReason (IsPossible possible.now) from candidates.new) }
    ensures each { OnOk result (EachFailsFirst (IsPossible possible.now) from candidates.new) }
{
    leave_out(alloc, possible, candidates, from, budget)?;
    for i in (from..candidates.len()).rev() {
        replace_idle(alloc, possible, candidates, from, i, budget)?;
    }
    Ok(())
}

/// Looks for a reason without the literal at a position, if that is named; those before it may be
/// named in its place. If there is none, nothing changes, and the literal is not idle. Fails if the
/// budget is used up or memory runs out.
fn replace_idle(
    alloc: Global,
    possible: &PossibleChoices,
    candidates: &mut [Candidate<'_>],
    from: usize,
    i: usize,
    budget: &mut Budget,
) -> Result<(), Unfinished>
    requires there { i < length candidates.old }
    requires behind { from ≤ i }
    requires reason { IsReason (IsPossible possible.now) from candidates.old }
    requires later { EachFailsFirst (IsPossible possible.now) (i + 1) candidates.old }
    ensures same { OnOk result (AreSameLiterals candidates.old candidates.new) }
    ensures reason { OnOk result (IsReason (IsPossible possible.now) from candidates.new) }
    ensures each { OnOk result (EachFailsFirst (IsPossible possible.now) i candidates.new) }
{
    if !candidates[i].named {
        return Ok(());
    }
    let mut copy = candidates.to_vec(alloc)?;
    let others = copy.as_mut_slice();
    name_first(others, i);
    set_named(others, i, false);
    if refute(alloc, possible, others, from, budget)? {
        leave_out_those(alloc, possible, others, from, None, budget)?;
        candidates.copy_from_slice(others);
    }
    Ok(())
}

/// Names the first `n` literals.
fn name_first(candidates: &mut [Candidate<'_>], n: usize)
    requires { n ≤ length candidates.old }
    ensures { candidates.new ≡ named_first n candidates.old }
{
    for i in 0..n {
        set_named(candidates, i, true);
    }
}

/// The fewest and the most labels that a named literal asks about.
fn label_counts(candidates: &[Candidate<'_>]) -> (usize, usize) {
    let (mut fewest, mut most) = (usize::MAX, 0);
    for candidate in candidates {
        if candidate.named {
            fewest = candidate.labels().min(fewest);
            most = candidate.labels().max(most);
        }
    }
    (fewest, most)
}

/// The same for the literals that ask about a number of labels, or for all of them.
fn leave_out_those(
    alloc: Global,
    possible: &PossibleChoices,
    candidates: &mut [Candidate<'_>],
    from: usize,
    labels: Option<usize>,
    budget: &mut Budget,
) -> Result<(), Unfinished>
    requires first { AreNamedBefore from candidates.old }
    requires enough { IsUnmet (IsPossible possible.now) candidates.old }
    ensures fewer { AreFewer candidates.old candidates.new }
    ensures first { AreNamedBefore from candidates.new }
    ensures enough { OnOk result (IsUnmet (IsPossible possible.now) candidates.new) }
    ensures reason { labels ≡ None
        → OnOk result (IsReason (IsPossible possible.now) from candidates.new) }
{
    for i in from..candidates.len() {
        leave_out_at(alloc, possible, candidates, from, i, labels, budget)?;
    }
    Ok(())
}

/// Takes the name off the literal at a position, if it is not needed, and if it asks about a number
/// of labels or that may be any. Then only what shows this stays named, and the first `from`. Fails
/// if the budget is used up or memory runs out.
fn leave_out_at(
    alloc: Global,
    possible: &PossibleChoices,
    candidates: &mut [Candidate<'_>],
    from: usize,
    i: usize,
    labels: Option<usize>,
    budget: &mut Budget,
) -> Result<(), Unfinished>
    requires there { i < length candidates.old }
    requires behind { from ≤ i }
    requires first { AreNamedBefore from candidates.old }
    requires enough { IsUnmet (IsPossible possible.now) candidates.old }
    ensures fewer { AreFewer candidates.old candidates.new }
    ensures first { AreNamedBefore from candidates.new }
    ensures enough { OnOk result (IsUnmet (IsPossible possible.now) candidates.new) }
    ensures needed { labels ≡ None → OnOk result ((k : Candidate)
        → slice_get candidates.new i ≡ Some k → IsTrue k.named
        → IsMet (IsPossible possible.now) (without i candidates.new)) }
{
    if !candidates[i].named {
        return Ok(());
    }
    if !candidates[i].asks_about(labels) {
        return Ok(());
    }
    set_named(candidates, i, false);
    if refute(alloc, possible, candidates, from, budget)? {
        return Ok(());
    }
    set_named(candidates, i, true);
    Ok(())
}

/// Looks for a possible choice that meets the named literals. Returns whether there is none. Then
/// only the first `from` literals stay named, and what the search used. If there is one, nothing
/// changes. Fails if the budget is used up or memory runs out; then nothing has changed.
fn refute(
    alloc: Global,
    possible: &PossibleChoices,
    candidates: &mut [Candidate<'_>],
    from: usize,
    budget: &mut Budget,
) -> Result<bool, Unfinished>
    ensures fewer { AreFewer candidates.old candidates.new }
    ensures first { AreNamedBefore from candidates.old → AreNamedBefore from candidates.new }
    ensures enough { IfOk result (λ refuted. IsTrue refuted
        → IsUnmet (IsPossible possible.now) candidates.new) }
    ensures met { IfOk result (λ refuted. IsFalse refuted
        → (candidates.new ≡ candidates.old) × IsMet (IsPossible possible.now) candidates.old) }
{
    match refute_meeting(alloc, possible, candidates, budget)? {
        Some(used) => {
            keep_used(candidates, from, used.as_slice());
            Ok(true)
        }
        None => Ok(false),
    }
}

/// Takes the names off the literals that ask for no match and were not used. Those before the
/// position `from` keep their names. `used` has a mark for each named literal that asks for no
/// match, in their order.
fn keep_used(candidates: &mut [Candidate<'_>], from: usize, used: &[bool])
    ensures { candidates.new ≡ kept from used.now 0 0 candidates.old }
{
    let mut next = 0;
    for i in 0..candidates.len() {
        if candidates[i].asks_for_no_match() {
            set_named(candidates, i, i < from || is_marked(used, next));
            next += 1;
        }
    }
}

/// Whether there is a mark at a position, and it says yes.
fn is_marked(marks: &[bool], position: usize) -> bool
    ensures { result ≡ get_or marks.now position false }
{
    match marks.get(position) {
        Some(mark) => *mark,
        None => false,
    }
}

/// Names the literal at a position, or takes its name off.
fn set_named(candidates: &mut [Candidate<'_>], i: usize, named: bool)
    requires { i < length candidates.old }
    ensures { candidates.new ≡ renamed i named candidates.old }
{
    candidates[i].named = named;
}
