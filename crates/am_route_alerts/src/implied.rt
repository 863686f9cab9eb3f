//! Literals that follow from others.
//!
//! A literal follows from others if no possible choice meets these and fails it. So a search for
//! such a choice says whether the literal tells anything more than the others do. Hints make it
//! short where there is one, or show one without a search.

ghost use Rattle.std.specs.Prelude.{◌≡◌, ◌<◌, ◌≤◌, length, IfOk, OnOk, IsTrue, false};
ghost use Rattle.am_first_sets.specs.Literals.{IsMet, IsUnmet};
ghost use Rattle.am_first_sets.specs.PossibleChoices.{IsPossible};
ghost use Rattle.am_first_sets.specs.Reason.{AreFewer, AreNamedBefore};
ghost use Rattle.am_route_alerts.specs.Implied.{negated, IsSameFor, IsEachNeeded};
ghost use Rattle.am_route_alerts.specs.Nearby.{AreHints};

use crate::hints::{Hint, Hints};
use am_first_sets::{Budget, Candidate, PossibleChoices, Unfinished, some_meeting};
use am_judged_lists::Cube;
use std::alloc::Global;

/// Takes the names off the literals that follow from the others, from a position on, the last one
/// first.
///
/// The literals before the position must be named. A possible choice meets the named literals
/// exactly if it met those that were named before, and some possible choice fails each of those
/// that are left behind the position and meets the others. Hints change only how long it takes.
/// Fails if the budget is used up or memory runs out; then any of the literals may have lost their
/// names.
pub(crate) fn leave_out_implied(
    alloc: Global,
    possible: &PossibleChoices,
    literals: &mut [Candidate<'_>],
    from: usize,
    hints: &Hints,
    budget: &mut Budget,
) -> Result<(), Unfinished>
    requires within { from ≤ length literals.old }
    requires hints { AreHints literals.old hints.now }
    ensures fewer { OnOk result (AreFewer literals.old literals.new) }
    ensures first { OnOk result (AreNamedBefore from literals.old
        → AreNamedBefore from literals.new) }
    ensures same { OnOk result (IsSameFor (IsPossible possible.now) literals.old literals.new) }
    ensures needed { OnOk result (IsEachNeeded (IsPossible possible.now) from literals.new) }
{
    for i in (from..literals.len()).rev() {
        if literals[i].named && is_implied(alloc, possible, literals, from, i, hints, budget)? {
            literals[i].named = false;
        }
    }
    Ok(())
}

/// Whether the named literal at a position follows from the other named ones. Fails if the budget
/// is used up or memory runs out.
fn is_implied(
    alloc: Global,
    possible: &PossibleChoices,
    literals: &[Candidate<'_>],
    from: usize,
    i: usize,
    hints: &Hints,
    budget: &mut Budget,
) -> Result<bool, Unfinished>
    requires there { i < length literals.now }
    requires behind { from ≤ i }
    requires hints { AreHints literals.now hints.now }
    ensures implied { IfOk result (λ implied. IsTrue implied
        → IsUnmet (IsPossible possible.now) (negated i literals.now)) }
    ensures needed { IfOk result (λ implied. implied ≡ false
        → IsMet (IsPossible possible.now) (negated i literals.now)) }
{
    if hints.show_needed(possible, literals, i) {
        return Ok(false);
    }
    let literal = literals[i];
    let other = Candidate {
        wanted: !literal.wanted,
        ..literal
    };
    // Most lists have no alert in common with the way to a route, which a short search shows.
    let mut few = literals[..from].to_vec(alloc)?;
    few.push(other)?;
    if some_meeting(alloc, possible, few.as_slice(), budget)?.is_none() {
        return Ok(true);
    }
    let mut all = literals.to_vec(alloc)?;
    all[i] = other;
    let hints = hints.positions.as_slice();
    if is_met_near(alloc, possible, all.as_slice(), other.cube, hints, budget)? {
        return Ok(false);
    }
    Ok(some_meeting(alloc, possible, all.as_slice(), budget)?.is_none())
}

/// Whether a possible choice meets the named literals, and fits the hints that a cube fits. If not,
/// another choice may meet the literals. Fails if the budget is used up or memory runs out.
fn is_met_near<'h>(
    alloc: Global,
    possible: &PossibleChoices,
    literals: &[Candidate<'h>],
    cube: &Cube,
    hints: &'h [Hint],
    budget: &mut Budget,
) -> Result<bool, Unfinished>
    ensures met { IfOk result (λ met. IsTrue met → IsMet (IsPossible possible.now) literals.now) }
{
    if hints.is_empty() {
        return Ok(false);
    }
    let mut near = literals.to_vec(alloc)?;
    for hint in hints {
        if hint.fits(cube) {
            near.push(Candidate {
                cube: &hint.cube,
                wanted: true,
                named: true,
                tag: 0,
            })?;
        }
    }
    Ok(some_meeting(alloc, possible, near.as_slice(), budget)?.is_some())
}
