//! The choices that meet the literals that are named.

ghost use Rattle.std.specs.Prelude.{◌≡◌, false, ℕ, List, IfOk, IfSome, IfNone};
ghost use Rattle.std.specs.List.{find};
ghost use Rattle.am_labels.specs.Space.{all_choices, IsChoiceOf};
ghost use Rattle.am_first_sets.specs.Literals.{meets, IsMet, IsUnmet, wanted_of, unwanted_of};
ghost use Rattle.am_first_sets.specs.Meeting.{meets_cubes};
ghost use Rattle.am_first_sets.specs.PossibleChoices.{IsPossible, AreFound};
ghost use Rattle.am_first_sets.specs.PossibleSets.{possible_space};
ghost use Rattle.am_first_sets.specs.Solving.{marked};

use crate::budget::{Budget, Unfinished};
use crate::candidate::Candidate;
use crate::possible_choices::PossibleChoices;
use crate::possible_sets::PossibleSets;
use am_judged_lists::{Cube, PositionBox};
use am_universe::Choice;
use std::alloc::{AllocError, Global};

/// The cubes of literals: those that have to match, and those that must not.
#[derive(Drop)]
struct Asked<'a> {
    wanted: Vec<&'a Cube>,
    unwanted: Vec<&'a Cube>,
}

/// Returns the first choice of a space, in declared order, that meets the named literals, if there
/// is one. Fails if the budget is used up or memory runs out.
pub fn first_meeting(
    alloc: Global,
    possible: &PossibleSets<'_>,
    candidates: &[Candidate<'_>],
    budget: &mut Budget,
) -> Result<Option<Choice>, Unfinished>
    ensures first { IfOk result (λ found. found ≡ find (λ c. meets c candidates.now)
        (all_choices (possible_space possible.now))) }
    ensures possible { IfOk result (λ found.
        IfSome found (IsChoiceOf (possible_space possible.now))) }
{
    let asked = asked_by(alloc, candidates)?;
    possible.first_meeting(
        alloc,
        asked.wanted.as_slice(),
        asked.unwanted.as_slice(),
        budget,
    )
}

/// Returns a box with some choice, all of whose choices are possible and meet the named literals,
/// or `None` if no possible choice meets them. Fails if the budget is used up or memory runs out.
pub fn some_meeting(
    alloc: Global,
    possible: &PossibleChoices,
    candidates: &[Candidate<'_>],
    budget: &mut Budget,
) -> Result<Option<PositionBox>, Unfinished>
    ensures some { IfOk result (λ found. IfSome found
        (AreFound (IsPossible possible.now) (λ c. meets c candidates.now))) }
    ensures none { IfOk result (λ found. IfNone found
        (IsUnmet (IsPossible possible.now) candidates.now)) }
{
    let asked = asked_by(alloc, candidates)?;
    possible.meeting(
        alloc,
        asked.wanted.as_slice(),
        asked.unwanted.as_slice(),
        budget,
    )
}

/// Finds out which of the named literals keep a choice from being found.
///
/// Returns whether each of those that ask for no match was used, in their order: no possible choice
/// meets those that were used and all that ask for a match. Returns `None` if some possible choice
/// meets all that are named. Fails only if memory runs out.
pub(crate) fn refute_meeting(
    alloc: Global,
    possible: &PossibleChoices,
    candidates: &[Candidate<'_>],
    budget: &mut Budget,
) -> Result<Option<Vec<bool>>, Unfinished>
    ensures refuted { IfOk result (λ found. IfSome found (λ used. (c : List ℕ)
        → IsPossible possible.now c → meets_cubes (wanted_of candidates.now)
        (marked used.items (unwanted_of candidates.now)) c ≡ false)) }
    ensures met { IfOk result (λ found. IfNone found (IsMet (IsPossible possible.now)
        candidates.now)) }
{
    let asked = asked_by(alloc, candidates)?;
    possible.refute(
        alloc,
        asked.wanted.as_slice(),
        asked.unwanted.as_slice(),
        budget,
    )
}

/// Returns the cubes of the literals that are named. Fails only if memory runs out.
fn asked_by<'a>(alloc: Global, candidates: &[Candidate<'a>]) -> Result<Asked<'a>, AllocError>
    ensures wanted { IfOk result (λ asked. asked.wanted.items ≡ wanted_of candidates.now) }
    ensures unwanted { IfOk result (λ asked. asked.unwanted.items ≡ unwanted_of candidates.now) }
{
    let mut wanted = Vec::new(alloc);
    let mut unwanted = Vec::new(alloc);
    for candidate in candidates {
        if candidate.named {
            if candidate.wanted {
                wanted.push(candidate.cube)?;
            } else {
                unwanted.push(candidate.cube)?;
            }
        }
    }
    Ok(Asked { wanted, unwanted })
}
