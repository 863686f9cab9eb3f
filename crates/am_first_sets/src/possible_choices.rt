//! The choices among which a search looks: those of a box that match none of some cubes.

ghost use Rattle.std.specs.Prelude.{◌≡◌, ◌↔◌, ℕ, List, ◌++◌, IfOk, IfSome, IfNone, false, IsTrue};
ghost use Rattle.std.specs.Borrow.{Bor};
ghost use Rattle.am_judged_lists.specs.Cube.{MaskedLabels};
ghost use Rattle.am_judged_lists.specs.Boxes.{IsInBox};
ghost use Rattle.am_first_sets.specs.Meeting.{all_match, meets_cubes, is_possible_by};
ghost use Rattle.am_first_sets.specs.Solving.{avoids, marked};

use crate::budget::{Budget, Unfinished};
use crate::solver::{refute, solve};
use am_judged_lists::{Cube, PositionBox};
use am_universe::Choice;
use std::alloc::{AllocError, Global};

/// The choices of a box that match none of some cubes.
#[derive(Drop)]
pub struct PossibleChoices {
    pub(crate) all: PositionBox,
    pub(crate) impossible: Vec<Cube>,
}

impl PossibleChoices {
    ghost use Rattle.am_first_sets.specs.PossibleChoices.{IsPossible, AreFound};

    /// Whether a choice is one of these.
    pub fn has(&self, choice: &Choice) -> bool
        ensures { IsTrue result ↔ IsPossible self.now choice.now }
    {
        self.all.has(choice) && is_possible_by(self.impossible.as_slice(), choice)
    }

    /// Finds choices that all wanted cubes match and none of the unwanted ones.
    ///
    /// Returns a box with some choice, all of whose choices are possible and meet the cubes, or
    /// `None` if no possible choice meets them. Fails if the budget is used up or memory runs out.
    pub fn meeting(
        &self,
        alloc: Global,
        wanted: &[&Cube],
        unwanted: &[&Cube],
        budget: &mut Budget,
    ) -> Result<Option<PositionBox>, Unfinished>
        ensures some { IfOk result (λ found. IfSome found
            (AreFound (IsPossible self.now) (meets_cubes wanted.now unwanted.now))) }
        ensures none { IfOk result (λ found. IfNone found ((c : List ℕ) → IsPossible self.now c
            → meets_cubes wanted.now unwanted.now c ≡ false)) }
    {
        let Some(start) = self.matched(alloc, wanted)? else {
            return Ok(None);
        };
        let cubes = self.cubes_against(alloc, unwanted)?;
        solve(alloc, start, cubes.as_slice(), budget)
    }

    /// Finds out which of the unwanted cubes keep a choice from being found.
    ///
    /// Returns for each of them whether it was used: no possible choice meets the wanted cubes and
    /// those that were used. Returns `None` if some possible choice meets all the cubes. Fails if
    /// the budget is used up or memory runs out.
    pub(crate) fn refute(
        &self,
        alloc: Global,
        wanted: &[&Cube],
        unwanted: &[&Cube],
        budget: &mut Budget,
    ) -> Result<Option<Vec<bool>>, Unfinished>
        ensures refuted { IfOk result (λ found. IfSome found (λ used. (c : List ℕ)
            → IsPossible self.now c
            → meets_cubes wanted.now (marked used.items unwanted.now) c ≡ false)) }
        ensures met { IfOk result (λ found. IfNone found ((c : List ℕ) × IsPossible self.now c
            × IsTrue (meets_cubes wanted.now unwanted.now c))) }
    {
        let Some(start) = self.matched(alloc, wanted)? else {
            return Ok(Some(Vec::new(alloc)));
        };
        let cubes = self.cubes_against(alloc, unwanted)?;
        refute(alloc, start, cubes.as_slice(), budget)
    }

    /// The choices of the box that all wanted cubes match, or `None` if there is no such choice.
    /// Fails only if memory runs out.
    pub(crate) fn matched(
        &self,
        alloc: Global,
        wanted: &[&Cube],
    ) -> Result<Option<PositionBox>, AllocError>
        ensures some { IfOk result (λ found. IfSome found (λ b. (c : List ℕ)
            → IsInBox b c ↔ IsInBox self.now.all c × IsTrue (all_match wanted.now c))) }
        ensures none { IfOk result (λ found. IfNone found ((c : List ℕ)
            → IsInBox self.now.all c → all_match wanted.now c ≡ false)) }
    {
        let mut positions = self.all.try_clone(alloc)?;
        for cube in wanted {
            if !positions.keep_matching(cube) {
                return Ok(None);
            }
        }
        Ok(Some(positions))
    }

    /// The unwanted cubes, and behind them those that no possible choice matches. Fails only if
    /// memory runs out.
    pub(crate) fn cubes_against<'b>(
        &'b self,
        alloc: Global,
        unwanted: &[&'b Cube],
    ) -> Result<Vec<&'b Cube>, AllocError>
        ensures { IfOk result (λ cubes. (more : List (Bor MaskedLabels))
            × (cubes.items ≡ unwanted.now ++ more)
            × ((c : List ℕ) → avoids more c ≡ is_possible_by self.now.impossible.items c)) }
    {
        let mut cubes = unwanted.to_vec(alloc)?;
        for cube in self.impossible.as_slice() {
            cubes.push(cube)?;
        }
        Ok(cubes)
    }
}

/// Whether a choice matches none of some cubes.
#[tactic(auto, using(crate::proofs::CubeTruth::matches_is))]
fn is_possible_by(impossible: &[Cube], choice: &Choice) -> bool
    ensures { result ≡ is_possible_by impossible.now choice.now }
{
    impossible.iter().all(|cube| !cube.must(choice))
}
