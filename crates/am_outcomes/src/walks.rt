//! Walks through the routes and the silences, and how one goes on past a step.

ghost use Rattle.std.specs.Prelude.{◌≡◌, ◌++◌, [], ◌∷◌, ℕ, List, false, IfOk, IfNone, OnOk, IsTrue};
ghost use Rattle.std.specs.Prelude.{IfSome, None, slice_index};
ghost use Rattle.std.specs.List.{find};
ghost use Rattle.am_universe.specs.Universe.{sizes};
ghost use Rattle.am_universe.specs.Choice.{IsWhole};
ghost use Rattle.am_labels.specs.Space.{Space, IsChoiceOf, all_choices};
ghost use Rattle.am_judged_lists.specs.Boxes.{IsInBox, IsOpen};
ghost use Rattle.am_judged_lists.specs.Cube.{matches, permits_position};
ghost use Rattle.am_first_sets.specs.PossibleSets.{possible_space};
ghost use Rattle.am_first_sets.specs.Meeting.{meets_cubes};
ghost use Rattle.am_outcomes.specs.Walks.{AddsBranches, AreAllOn, AreBoxesOf, IsFirstWalk};
ghost use Rattle.am_outcomes.specs.Walks.{is_on, known_box, own_or};

use crate::box_firsts::{first_in, is_in, is_within};
use crate::steps::Step;
use am_first_sets::{Budget, PossibleSets, Unfinished};
use am_judged_lists::{Cube, Matching, Part, PositionBox};
use am_universe::{Choice, Universe};
use std::alloc::{AllocError, Global};

/// A walk from step to step: what was decided so far, and the step that is next. Its choices are
/// those that match all wanted cubes and none of the unwanted ones.
#[derive(Drop)]
pub(crate) struct Walk<'a> {
    pub(crate) next: usize,
    pub(crate) wanted: Vec<&'a Cube>,
    pub(crate) unwanted: Vec<&'a Cube>,
    /// A box in which all its choices are. A cube that misses this box matches none of them, and
    /// one that covers it matches all.
    pub(crate) within: PositionBox,
    /// A box of some of its choices. Where a cube matches one of these, it need not be asked
    /// whether it matches any. `None` says that `within` has no other choices than the walk.
    pub(crate) some: Option<PositionBox>,
}

impl<'a> Walk<'a> {
    /// Returns the walk of all choices that a cube matches, at a step, or `None` if it matches no
    /// choice. Fails if the budget is used up or memory runs out.
    pub(crate) fn first(
        alloc: Global,
        universe: &Universe,
        possible: &PossibleSets<'_>,
        cube: &'a Cube,
        next: usize,
        budget: &mut Budget,
    ) -> Result<Option<Walk<'a>>, Unfinished>
        requires { universe.now ≡ (possible_space possible.now).labels }
        ensures some { IfOk result (λ found.
            IfSome found (IsFirstWalk (possible_space possible.now) cube.now next)) }
        ensures none { IfOk result (λ found. IfNone found ((c : List ℕ)
            → IsChoiceOf (possible_space possible.now) c → matches cube.now c ≡ false)) }
    {
        let wanted = vec![in alloc; cube]?;
        let Some(some) = possible.some_meeting(alloc, wanted.as_slice(), &[], budget)? else {
            return Ok(None);
        };
        let within = narrowed(PositionBox::all(alloc, universe)?, cube);
        Ok(Some(Walk {
            next,
            wanted,
            unwanted: Vec::new(alloc),
            some: unless_all(universe, &within, some),
            within,
        }))
    }

    /// The box of those of its choices that are known.
    fn known(&self) -> &PositionBox
        ensures { result.now ≡ known_box self.now }
    {
        match &self.some {
            Some(some) => some,
            None => &self.within,
        }
    }

    /// Returns its first choice, in declared order, or `None` if it has no choice. Fails if the
    /// budget is used up or memory runs out.
    ///
    /// The first choice of its box is the first of its own, if it is known to be one of them. Only
    /// if it is not, a search is needed.
    pub(crate) fn first_choice(
        &self,
        alloc: Global,
        universe: &Universe,
        possible: &PossibleSets<'_>,
        budget: &mut Budget,
    ) -> Result<Option<Choice>, Unfinished>
        ensures { IfOk result (λ found. AreBoxesOf (possible_space possible.now) self.now
            → found ≡ find (λ c. is_on c self.now) (all_choices (possible_space possible.now))) }
    {
        if let Some(first) = first_in(universe, &self.within) {
            if is_in(self.known(), &first) {
                return Ok(Some(first));
            }
        }
        let (wanted, unwanted) = (self.wanted.as_slice(), self.unwanted.as_slice());
        possible.first_meeting(alloc, wanted, unwanted, budget)
    }

    /// Adds the walks on which the choices of this one go past its next step: those that match the
    /// cube of the step, and those that do not. There is no walk without a choice. Fails if the
    /// budget is used up or memory runs out.
    pub(crate) fn push_branches(
        self,
        alloc: Global,
        possible: &PossibleSets<'_>,
        step: &'a Step,
        walks: &mut Vec<Walk<'a>>,
        budget: &mut Budget,
    ) -> Result<(), Unfinished>
        ensures { OnOk result (AddsBranches (possible_space possible.now) walks.old.items self.entry
            step.now walks.new.items) }
    {
        let next = match self.within.matching(&step.cube) {
            Matching::Misses => step.unmatched,
            Matching::Covers => step.matched,
            Matching::Opens(label, labels) => {
                if labels == 1 && self.some.is_none() {
                    return self.push_halves(alloc, step, &step.cube, label, walks);
                }
                return self.push_both(alloc, possible, step, &step.cube, walks, budget);
            }
        };
        walks.push(Walk { next, ..self })?;
        Ok(())
    }

    /// The same at a step whose cube is about one label alone of the box of the walk, if that box
    /// has no other choices than the walk. So it is with the boxes of both branches. The cube is
    /// that of the step. Fails only if memory runs out.
    fn push_halves(
        self,
        alloc: Global,
        step: &Step,
        cube: &'a Cube,
        label: usize,
        walks: &mut Vec<Walk<'a>>,
    ) -> Result<(), Unfinished>
        requires cube { cube.now ≡ step.now.cube }
        requires whole { self.some ≡ None }
        requires open { IsOpen self.within cube.now label }
        requires alone { (c : List ℕ) → IsInBox self.within c
            → matches cube.now c ≡ permits_position cube.now label (slice_index c label) }
        ensures { OnOk result ((all : Space)
            → AddsBranches all walks.old.items self.entry step.now walks.new.items) }
    {
        let (mut inside, mut outside) = (self.within.try_clone(alloc)?, self.within);
        inside.keep(cube, label, Part::Within);
        walks.push(Walk {
            next: step.matched,
            wanted: with_cube(alloc, self.wanted.as_slice(), cube)?,
            unwanted: self.unwanted.as_slice().to_vec(alloc)?,
            within: inside,
            some: None,
        })?;
        outside.keep(cube, label, Part::Outside);
        let mut unwanted = self.unwanted;
        unwanted.push(cube)?;
        walks.push(Walk {
            next: step.unmatched,
            wanted: self.wanted,
            unwanted,
            within: outside,
            some: None,
        })?;
        Ok(())
    }

    /// The same at any step whose cube some choices of the box match, and others do not. The cube
    /// is that of the step.
    fn push_both(
        self,
        alloc: Global,
        possible: &PossibleSets<'_>,
        step: &Step,
        cube: &'a Cube,
        walks: &mut Vec<Walk<'a>>,
        budget: &mut Budget,
    ) -> Result<(), Unfinished>
        requires { cube.now ≡ step.now.cube }
        ensures { OnOk result (AddsBranches (possible_space possible.now) walks.old.items self.entry
            step.now walks.new.items) }
    {
        let Some(matched) = self.some_matched(alloc, possible, cube, budget)? else {
            let next = step.unmatched;
            walks.push(Walk { next, ..self })?;
            return Ok(());
        };
        walks.push(Walk {
            next: step.matched,
            wanted: with_cube(alloc, self.wanted.as_slice(), cube)?,
            unwanted: self.unwanted.as_slice().to_vec(alloc)?,
            within: narrowed(self.within.try_clone(alloc)?, cube),
            some: Some(matched),
        })?;
        if let Some(some) = self.some_unmatched(alloc, possible, cube, budget)? {
            let mut unwanted = self.unwanted;
            unwanted.push(cube)?;
            walks.push(Walk {
                next: step.unmatched,
                wanted: self.wanted,
                unwanted,
                within: without(self.within, cube),
                some: Some(some),
            })?;
        }
        Ok(())
    }

    /// Returns a box of choices of this walk that a cube matches, or `None` if it matches none of
    /// its choices. Fails if the budget is used up or memory runs out.
    fn some_matched(
        &self,
        alloc: Global,
        possible: &PossibleSets<'_>,
        cube: &'a Cube,
        budget: &mut Budget,
    ) -> Result<Option<PositionBox>, Unfinished>
        ensures some { IfOk result (λ found. IfSome found (λ b.
            AreBoxesOf (possible_space possible.now) self.now
            → AreAllOn (possible_space possible.now) (self.now.wanted.items ++ cube.entry ∷ [])
            self.now.unwanted.items b)) }
        ensures none { IfOk result (λ found. IfNone found ((c : List ℕ)
            → IsChoiceOf (possible_space possible.now) c
            → meets_cubes (self.now.wanted.items ++ cube.entry ∷ []) self.now.unwanted.items c
            ≡ false)) }
    {
        match self.known().matching(cube) {
            Matching::Misses => {}
            _ => {
                let mut some = self.known().try_clone(alloc)?;
                if some.keep_matching(cube) {
                    return Ok(Some(some));
                }
            }
        }
        let wanted = with_cube(alloc, self.wanted.as_slice(), cube)?;
        possible.some_meeting(alloc, wanted.as_slice(), self.unwanted.as_slice(), budget)
    }

    /// Returns a box of choices of this walk that a cube does not match, or `None` if it matches
    /// all its choices. Fails if the budget is used up or memory runs out.
    fn some_unmatched(
        &self,
        alloc: Global,
        possible: &PossibleSets<'_>,
        cube: &'a Cube,
        budget: &mut Budget,
    ) -> Result<Option<PositionBox>, Unfinished>
        ensures some { IfOk result (λ found. IfSome found (λ b.
            AreBoxesOf (possible_space possible.now) self.now
            → AreAllOn (possible_space possible.now) self.now.wanted.items
            (self.now.unwanted.items ++ cube.entry ∷ []) b)) }
        ensures none { IfOk result (λ found. IfNone found ((c : List ℕ)
            → IsChoiceOf (possible_space possible.now) c
            → meets_cubes self.now.wanted.items (self.now.unwanted.items ++ cube.entry ∷ []) c
            ≡ false)) }
    {
        match self.known().matching(cube) {
            Matching::Covers => {
                let unwanted = with_cube(alloc, self.unwanted.as_slice(), cube)?;
                possible.some_meeting(alloc, self.wanted.as_slice(), unwanted.as_slice(), budget)
            }
            Matching::Misses => Ok(Some(self.known().try_clone(alloc)?)),
            Matching::Opens(label, _) => {
                let mut some = self.known().try_clone(alloc)?;
                some.keep(cube, label, Part::Outside);
                Ok(Some(some))
            }
        }
    }
}

/// Returns a box of some choices of another one, or `None` if it has them all. Those of the other
/// one must be choices of the universe.
fn unless_all(universe: &Universe, within: &PositionBox, some: PositionBox) -> Option<PositionBox>
    requires { (c : List ℕ) → IsInBox within.now c → IsWhole (sizes universe.now) c }
    ensures { (c : List ℕ) → IsInBox (own_or result within.now) c → IsInBox some c }
{
    if is_within(universe, within, &some) {
        None
    } else {
        Some(some)
    }
}

/// Returns some cubes and one more. Fails only if memory runs out.
fn with_cube<'a>(
    alloc: Global,
    cubes: &[&'a Cube],
    cube: &'a Cube,
) -> Result<Vec<&'a Cube>, AllocError>
    ensures { IfOk result (λ all. all.items ≡ cubes.now ++ cube.entry ∷ []) }
{
    let mut all = cubes.to_vec(alloc)?;
    all.push(cube)?;
    Ok(all)
}

/// Returns a box without the choices that a cube does not match. If it matches none of them, any
/// box may be returned.
fn narrowed(positions: PositionBox, cube: &Cube) -> PositionBox
    ensures matched { (c : List ℕ) → IsInBox positions c → IsTrue (matches cube.now c)
        → IsInBox result c }
    ensures others { (c : List ℕ) → IsInBox positions c → IsTrue (matches cube.now c)
        → (d : List ℕ) → IsInBox result d → IsInBox positions d × IsTrue (matches cube.now d) }
{
    let mut positions = positions;
    positions.keep_matching(cube);
    positions
}

/// Returns a box without the choices that a cube matches, if one label tells them from the others.
/// If not, the box stays as it is.
fn without(positions: PositionBox, cube: &Cube) -> PositionBox
    ensures others { (c : List ℕ) → IsInBox positions c → matches cube.now c ≡ false
        → IsInBox result c }
    ensures inside { (c : List ℕ) → IsInBox result c → IsInBox positions c }
{
    let mut positions = positions;
    if let Matching::Opens(label, 1) = positions.matching(cube) {
        positions.keep(cube, label, Part::Outside);
    }
    positions
}
