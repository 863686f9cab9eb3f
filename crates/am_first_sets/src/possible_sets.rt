//! The label sets of a space that are possible.

ghost use Rattle.std.specs.Prelude.{◌≡◌, ◌↔◌, [], ℕ, List, None, IfOk, IfSome, IfNone};
ghost use Rattle.std.specs.Prelude.{false, slice_get, IfErr, IsTrue};
ghost use Rattle.std.specs.List.{find};
ghost use Rattle.std.proofs.Props.{props};
ghost use Rattle.am_labels.specs.Space.{all_choices, IsChoiceOf};
ghost use Rattle.am_judged_lists.specs.Boxes.{HasChoice, IsInBox};
ghost use Rattle.am_first_sets.specs.Budget.{MayEnd};
ghost use Rattle.am_first_sets.specs.Meeting.{meets_cubes};
ghost use Rattle.am_first_sets.specs.PossibleChoices.{AreChoicesOf, IsPossible};

use crate::budget::{Budget, Unfinished};
use crate::possible_choices::PossibleChoices;
use crate::solver::first_avoiding;
use am_judged_lists::{Cube, PositionBox, impossible_cubes};
use am_labels::Space;
use am_universe::Choice;
use std::alloc::{AllocError, Global};

/// Returns the first choice of a space, in declared order.
///
/// There is none if each choice of its labels is impossible. Fails only if memory runs out.
pub fn first_possible(alloc: Global, space: &Space) -> Result<Option<Choice>, AllocError>
    ensures first { IfOk result (λ found. found ≡ slice_get (all_choices space.now) 0) }
    ensures possible { IfOk result (λ found. IfSome found (IsChoiceOf space.now)) }
    ensures none { IfOk result (λ found. found ≡ None ↔ all_choices space.now ≡ []) }
{
    PossibleSets::of(alloc, space)?.first_of_all(alloc, &[], &[])
}

/// The label sets of a space that are possible, by their choices.
#[derive(Drop)]
pub struct PossibleSets<'a> {
    pub(crate) space: &'a Space,
    pub(crate) choices: PossibleChoices,
    ghost are_choices: { AreChoicesOf space.now choices } by { Prim.hlevel props },
}

impl<'a> PossibleSets<'a> {
    ghost use Rattle.am_first_sets.specs.PossibleSets.{possible_space};

    /// Makes the label sets of a space, with a cube for each of its impossible lists. Fails only if
    /// memory runs out.
    pub fn of(alloc: Global, space: &'a Space) -> Result<PossibleSets<'a>, AllocError>
        ensures space { IfOk result (λ possible. possible_space possible ≡ space.now) }
    {
        let all = PositionBox::all(alloc, space.universe())?;
        let impossible = impossible_cubes(alloc, space)?;
        let choices = PossibleChoices { all, impossible };
        Ok(PossibleSets { space, choices })
    }

    /// The choices of the space.
    pub fn choices(&self) -> &PossibleChoices
        ensures { (c : List ℕ) → IsPossible result.now c ↔ IsChoiceOf (possible_space self.now) c }
    {
        &self.choices
    }

    /// Finds some choices of the space that all wanted cubes match and none of the unwanted ones.
    ///
    /// Returns a box with some choice, all of whose choices are such, or `None` if there is no such
    /// choice. Fails if the budget is used up or memory runs out.
    pub fn some_meeting(
        &self,
        alloc: Global,
        wanted: &[&Cube],
        unwanted: &[&Cube],
        budget: &mut Budget,
    ) -> Result<Option<PositionBox>, Unfinished>
        ensures some { IfOk result (λ found. IfSome found (λ b. HasChoice b)) }
        ensures meeting { IfOk result (λ found. IfSome found (λ b. (c : List ℕ) → IsInBox b c
            → IsChoiceOf (possible_space self.now) c
            × IsTrue (meets_cubes wanted.now unwanted.now c))) }
        ensures none { IfOk result (λ found. IfNone found ((c : List ℕ)
            → IsChoiceOf (possible_space self.now) c
            → meets_cubes wanted.now unwanted.now c ≡ false)) }
    {
        self.choices.meeting(alloc, wanted, unwanted, budget)
    }

    /// Returns the first choice of the space, in declared order, that all wanted cubes match and
    /// none of the unwanted ones, if there is such a choice. Fails if the budget is used up, which
    /// must have a limit then, or if memory runs out.
    pub fn first_meeting(
        &self,
        alloc: Global,
        wanted: &[&Cube],
        unwanted: &[&Cube],
        budget: &mut Budget,
    ) -> Result<Option<Choice>, Unfinished>
        ensures first { IfOk result (λ found. found ≡ find (meets_cubes wanted.now unwanted.now)
            (all_choices (possible_space self.now))) }
        ensures possible { IfOk result (λ found.
            IfSome found (IsChoiceOf (possible_space self.now))) }
        ensures same { budget.new ≡ budget.old }
        ensures limited { IfErr result (MayEnd budget.old) }
    {
        let Some(positions) = self.choices.matched(alloc, wanted)? else {
            return Ok(None);
        };
        let cubes = self.choices.cubes_against(alloc, unwanted)?;
        first_avoiding(
            alloc,
            self.space.universe(),
            positions,
            cubes.as_slice(),
            budget,
        )
    }

    /// The same, without a limit of what is looked at. Fails only if memory runs out.
    pub(crate) fn first_of_all(
        &self,
        alloc: Global,
        wanted: &[&Cube],
        unwanted: &[&Cube],
    ) -> Result<Option<Choice>, AllocError>
        ensures first { IfOk result (λ found. found ≡ find (meets_cubes wanted.now unwanted.now)
            (all_choices (possible_space self.now))) }
        ensures possible { IfOk result (λ found.
            IfSome found (IsChoiceOf (possible_space self.now))) }
    {
        match self.first_meeting(alloc, wanted, unwanted, &mut Budget::unlimited()) {
            Ok(found) => Ok(found),
            Err(why) => Err(why.memory()),
        }
    }
}
