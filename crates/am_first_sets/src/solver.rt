//! The search for a choice that no cube of some matches.
//!
//! A cube that misses a box matches none of its choices, and is done with. Of the others, one that
//! covers the box leaves no choice; and of one with a single open label, the positions are taken
//! out of the box there. A pass does this with one cube after the other. If a pass takes out
//! nothing, the box is split at an open label of a cube that has the fewest. When no cube is left,
//! every choice of the box is an answer. (Davis, Logemann and Loveland, 1962: unit propagation and
//! splitting.)

ghost use Rattle.std.specs.Prelude.{◌≡◌, ℕ, ◌<◌, List, length, slice_index, Bool, IfOk, IfSome};
ghost use Rattle.std.specs.Prelude.{◌↔◌, ◌⊎◌, IfNone, IfErr, OnOk, IsTrue, Some};
ghost use Rattle.std.specs.List.{find};
ghost use Rattle.am_universe.specs.Universe.{sizes};
ghost use Rattle.am_universe.specs.Choice.{IsWhole, choices};
ghost use Rattle.am_judged_lists.specs.Boxes.{IsInBox};
ghost use Rattle.am_first_sets.specs.Budget.{MayEnd};
ghost use Rattle.am_first_sets.specs.Solving.{IsAnswer, NoneAvoids, IsNarrowed, IsStep};
ghost use Rattle.am_first_sets.specs.Solving.{IsTestOf, IsLeast, avoids, marked};

use crate::budget::{Budget, Unfinished};
use am_judged_lists::{Cube, Matching, Part, PositionBox};
use am_universe::{Choice, Position, Universe};
use std::alloc::{AllocError, Global};

/// What a pass finds of a box.
#[derive(Clone, Copy)]
enum Step {
    /// No cube matches a choice of it.
    Done,
    /// Each choice of it is matched by a cube that is marked.
    Refuted,
    /// Positions were taken out of it.
    Narrowed,
    /// Nothing was taken out of it. The cube at an index has the fewest open labels of all, and
    /// this is one of them.
    Split(usize, usize),
}

/// A cube with open labels: its index, one of them, and how many are open of how many that it has.
#[derive(Clone, Copy)]
struct Open {
    index: usize,
    label: usize,
    open: usize,
    labels: usize,
}

/// Finds choices of a box that none of some cubes matches.
///
/// Returns a box with some choice, all of whose choices are in the given box and matched by no
/// cube, or `None` if there is no such choice. Fails if the budget is used up or memory runs out.
pub(crate) fn solve(
    alloc: Global,
    start: PositionBox,
    unwanted: &[&Cube],
    budget: &mut Budget,
) -> Result<Option<PositionBox>, Unfinished>
    ensures found { IfOk result (λ found. IfSome found (IsAnswer start unwanted.now)) }
    ensures none { IfOk result (λ found. IfNone found (NoneAvoids start unwanted.now)) }
    ensures same { budget.new ≡ budget.old }
    ensures limited { IfErr result (MayEnd budget.old) }
{
    let mut used = vec![in alloc; false; unwanted.len()]?;
    search(alloc, start, unwanted, &mut used, budget)
}

/// Finds out which cubes leave no choice of a box.
///
/// Returns for each cube whether it was used: each choice is matched by one that was. Returns
/// `None` if there is a choice that no cube matches. Fails if the budget is used up or memory runs
/// out.
pub(crate) fn refute(
    alloc: Global,
    start: PositionBox,
    unwanted: &[&Cube],
    budget: &mut Budget,
) -> Result<Option<Vec<bool>>, Unfinished>
    ensures refuted { IfOk result (λ found.
        IfSome found (λ used. NoneAvoids start (marked used.items unwanted.now))) }
    ensures found { IfOk result (λ found. IfNone found ((c : List ℕ)
        × IsInBox start c × IsTrue (avoids unwanted.now c))) }
{
    let mut used = vec![in alloc; false; unwanted.len()]?;
    match search(alloc, start, unwanted, &mut used, budget)? {
        Some(_) => Ok(None),
        None => Ok(Some(used)),
    }
}

/// The search itself. It marks the cubes that it uses: those that cover a box, and those whose
/// positions are taken out of one. To split a box uses no cube, since no choice gets lost.
fn search(
    alloc: Global,
    start: PositionBox,
    unwanted: &[&Cube],
    used: &mut [bool],
    budget: &mut Budget,
) -> Result<Option<PositionBox>, Unfinished>
    requires { length used.old ≡ length unwanted.now }
    ensures found { IfOk result (λ found. IfSome found (IsAnswer start unwanted.now)) }
    ensures none { IfOk result (λ found.
        IfNone found (NoneAvoids start (marked used.new unwanted.now))) }
    ensures same { budget.new ≡ budget.old }
    ensures limited { IfErr result (MayEnd budget.old) }
{
    let looks = mask_count(unwanted);
    let mut stack = Vec::new(alloc);
    if start.has_choice() {
        stack.push(start)?;
    }
    while let Some(mut positions) = stack.pop() {
        if let Err(evidence) = budget.take(looks) {
            return Err(Unfinished::UsedUp(evidence));
        }
        match narrow(&mut positions, unwanted, used) {
            Step::Done => return Ok(Some(positions)),
            Step::Refuted => {}
            Step::Narrowed => stack.push(positions)?,
            Step::Split(index, label) => {
                let mut within = positions.try_clone(alloc)?;
                within.keep(unwanted[index], label, Part::Within);
                positions.keep(unwanted[index], label, Part::Outside);
                stack.push(within)?;
                stack.push(positions)?;
            }
        }
    }
    Ok(None)
}

/// How many masks some cubes have together, and one more.
fn mask_count(cubes: &[&Cube]) -> usize {
    let mut count = 1_usize;
    for cube in cubes {
        count = count.saturating_add(cube.mask_count());
    }
    count
}

/// Makes a pass over the cubes with a box, and marks those that it uses. Takes no memory.
fn narrow(positions: &mut PositionBox, unwanted: &[&Cube], used: &mut [bool]) -> Step
    requires { length used.old ≡ length unwanted.now }
    ensures long { length used.new ≡ length used.old }
    ensures narrowed { IsNarrowed positions.old positions.new (marked used.old unwanted.now)
        (marked used.new unwanted.now) }
    ensures step { IsStep positions.old positions.new unwanted.now (marked used.new unwanted.now)
        result }
{
    let mut simplest: Option<Open> = None;
    let mut is_narrowed = false;
    for index in 0..unwanted.len() {
        match positions.matching(unwanted[index]) {
            Matching::Misses => {}
            Matching::Covers => {
                used[index] = true;
                return Step::Refuted;
            }
            Matching::Opens(label, open) => {
                if open == 1 {
                    used[index] = true;
                    positions.keep(unwanted[index], label, Part::Outside);
                    is_narrowed = true;
                } else {
                    let labels = unwanted[index].mask_count();
                    simplest = Some(simpler_of(
                        simplest,
                        Open {
                            index,
                            label,
                            open,
                            labels,
                        },
                    ));
                }
            }
        }
    }
    let Some(found) = simplest else {
        return Step::Done;
    };
    if is_narrowed {
        Step::Narrowed
    } else {
        Step::Split(found.index, found.label)
    }
}

/// Returns which of two cubes has fewer open labels, or fewer labels if these are as many.
fn simpler_of(first: Option<Open>, second: Open) -> Open
    ensures { (first ≡ Some result) ⊎ (result ≡ second) }
{
    match first {
        Some(first) => {
            let is_first = first.open < second.open
                || (first.open == second.open && first.labels <= second.labels);
            if is_first { first } else { second }
        }
        None => second,
    }
}

/// Returns the first choice of a box, in declared order, that none of some cubes matches.
///
/// The choices of the box must be choices of the universe. Returns `None` if there is no such
/// choice. Fails if the budget is used up or memory runs out.
pub(crate) fn first_avoiding(
    alloc: Global,
    universe: &Universe,
    start: PositionBox,
    unwanted: &[&Cube],
    budget: &mut Budget,
) -> Result<Option<Choice>, Unfinished>
    requires { (c : List ℕ) → IsInBox start c → IsWhole (sizes universe.now) c }
    ensures first { IfOk result (λ found. (test : List ℕ → Bool)
        → IsTestOf (sizes universe.now) test start unwanted.now
        → found ≡ find test (choices (sizes universe.now))) }
    ensures same { budget.new ≡ budget.old }
    ensures limited { IfErr result (MayEnd budget.old) }
{
    let cubes = meeting_cubes(alloc, &start, unwanted)?;
    let found = solve(alloc, start.try_clone(alloc)?, cubes.as_slice(), budget)?;
    let Some(mut found) = found else {
        return Ok(None);
    };
    let mut left = start;
    let mut choice = Choice::empty();
    for label in 0..universe.len() {
        let size = universe.size(label);
        let position = fix_least(
            alloc,
            &mut left,
            &mut found,
            label,
            size,
            cubes.as_slice(),
            budget,
        )?;
        choice.push(position as Position);
    }
    Ok(Some(choice))
}

/// The cubes that match some choice of a box, perhaps. The others never matter. Fails only if
/// memory runs out.
fn meeting_cubes<'a>(
    alloc: Global,
    start: &PositionBox,
    unwanted: &[&'a Cube],
) -> Result<Vec<&'a Cube>, AllocError>
    ensures same { IfOk result (λ cubes. (c : List ℕ) → IsInBox start.now c
        → avoids cubes.items c ≡ avoids unwanted.now c) }
{
    let mut cubes = Vec::new(alloc);
    for cube in unwanted {
        match start.matching(cube) {
            Matching::Misses => {}
            _ => cubes.push(*cube)?,
        }
    }
    Ok(cubes)
}

/// Takes out all positions of a label but the least that some choice of `left` has which no cube
/// matches, and returns it. `found` is a box of such choices, before and after. Fails if the budget
/// is used up or memory runs out.
fn fix_least(
    alloc: Global,
    left: &mut PositionBox,
    found: &mut PositionBox,
    label: usize,
    size: usize,
    unwanted: &[&Cube],
    budget: &mut Budget,
) -> Result<usize, Unfinished>
    requires label { label < length left.old }
    requires below { (c : List ℕ) → IsInBox left.old c → slice_index c label < size }
    requires found { IsAnswer left.old unwanted.now found.old }
    ensures least { IfOk result (IsLeast left.old unwanted.now label) }
    ensures position { IfOk result (λ position. position < size) }
    ensures fixed { IfOk result (λ position. (c : List ℕ) → IsInBox left.new c
        ↔ IsInBox left.old c × (slice_index c label ≡ position)) }
    ensures found { OnOk result (IsAnswer left.new unwanted.now found.new) }
    ensures same { budget.new ≡ budget.old }
    ensures limited { IfErr result (MayEnd budget.old) }
{
    for position in 0..size {
        if found.permits(label, position) {
            left.keep_only(label, position);
            found.keep_only(label, position);
            return Ok(position);
        }
        if left.permits(label, position) {
            let mut fixed = left.try_clone(alloc)?;
            fixed.keep_only(label, position);
            if let Some(answer) = solve(alloc, fixed, unwanted, budget)? {
                left.keep_only(label, position);
                *found = answer;
                return Ok(position);
            }
        }
    }
    // Some position is that of a choice in `found`.
    unreachable!()
}
