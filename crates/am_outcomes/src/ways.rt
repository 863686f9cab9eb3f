//! The first choice of each way through the routes, and through the silences behind them.
//!
//! A space may have far too many label sets to look at each. So walks go from step to step, through
//! the routes, those of one configuration behind those of the other, and then through the silences.
//! At each step the choices of a walk that match go on with one walk, and those that do not with
//! another, each only if there is such a choice. At the end of a walk all its choices have had the
//! same answer at each step, and no other choice has: they are those that go one way. The first of
//! them is kept.

ghost use Rattle.std.specs.Prelude.{◌≡◌, List, length, IfOk, IfSome, IfNone};
ghost use Rattle.std.specs.List.Sorted.{IsSortedBy};
ghost use Rattle.am_labels.specs.Matcher.{Matcher};
ghost use Rattle.am_search.specs.Start.{comes_before};
ghost use Rattle.am_judged_lists.specs.Cube.{IsCubeOf};
ghost use Rattle.am_first_sets.specs.PossibleSets.{possible_space};
ghost use Rattle.am_outcomes.specs.Configurations.{Tried};
ghost use Rattle.am_outcomes.specs.FirstsOfWays.{AreFirstsOfWays};
ghost use Rattle.am_outcomes.specs.MatchedPart.{matched_part};
ghost use Rattle.am_outcomes.specs.Steps.{AreSteps, GoesThrough};
ghost use Rattle.am_outcomes.specs.Ways.{HaveManyWays};

use crate::limits::MAX_WAYS;
use crate::steps::Step;
use crate::walks::Walk;
use am_first_sets::{Budget, PossibleSets, Unfinished};
use am_judged_lists::Cube;
use am_labels::Matchers;
use am_universe::{Choice, Universe};
use std::alloc::Global;

/// Finds the first choice of each way through some steps, in declared order. Only those choices
/// count whose label sets match some matchers. Returns `None` if there are too many ways. Fails if
/// the budget is used up or memory runs out.
pub(crate) fn firsts_of_ways(
    alloc: Global,
    universe: &Universe,
    possible: &PossibleSets<'_>,
    steps: &[Step],
    among: &Matchers,
    budget: &mut Budget,
) -> Result<Option<Vec<Choice>>, Unfinished>
    requires labels { universe.now ≡ (possible_space possible.now).labels }
    requires steps { AreSteps steps.now }
    requires goes { (t : Tried) × GoesThrough universe.now t steps.now (length steps.now) }
    ensures firsts { IfOk result (λ found. IfSome found (λ firsts. (t : Tried)
        → GoesThrough universe.now t steps.now (length steps.now)
        → AreFirstsOfWays (matched_part (possible_space possible.now) among.now) t firsts.items)) }
    ensures sorted { IfOk result (λ found. IfSome found (λ firsts.
        IsSortedBy comes_before firsts.items)) }
    ensures many { IfOk result (λ found. IfNone found ((t : Tried)
        → GoesThrough universe.now t steps.now (length steps.now)
        → HaveManyWays (matched_part (possible_space possible.now) among.now) t)) }
{
    let cube = Cube::of(alloc, among, universe)?;
    let found = unsorted_firsts(alloc, universe, possible, steps, &cube, budget)?;
    let Some(mut firsts) = found else {
        return Ok(None);
    };
    firsts.sort_unstable_by(|one, other| one.as_slice().cmp(other.as_slice()));
    Ok(Some(firsts))
}

/// The same in any order, for the cube of the matchers. To the budget, each step of a walk is an
/// item of its own.
fn unsorted_firsts<'a>(
    alloc: Global,
    universe: &Universe,
    possible: &PossibleSets<'_>,
    steps: &'a [Step],
    cube: &'a Cube,
    budget: &mut Budget,
) -> Result<Option<Vec<Choice>>, Unfinished>
    requires labels { universe.now ≡ (possible_space possible.now).labels }
    requires steps { AreSteps steps.now }
    requires goes { (t : Tried) × GoesThrough universe.now t steps.now (length steps.now) }
    requires cube { (ms : List Matcher) × IsCubeOf universe.now ms cube.now }
    ensures firsts { IfOk result (λ found. IfSome found (λ firsts. (t : Tried) (ms : List Matcher)
        → GoesThrough universe.now t steps.now (length steps.now)
        → IsCubeOf universe.now ms cube.now
        → AreFirstsOfWays (matched_part (possible_space possible.now) ms) t firsts.items)) }
    ensures many { IfOk result (λ found. IfNone found ((t : Tried) (ms : List Matcher)
        → GoesThrough universe.now t steps.now (length steps.now)
        → IsCubeOf universe.now ms cube.now
        → HaveManyWays (matched_part (possible_space possible.now) ms) t)) }
{
    let mut walks = Vec::new(alloc);
    if let Some(start) = Walk::first(alloc, universe, possible, cube, steps.len(), budget)? {
        walks.push(start)?;
    }
    let mut firsts = Vec::new(alloc);
    while let Some(walk) = walks.pop() {
        budget.begin_item();
        if walk.next > 0 {
            let step = &steps[walk.next - 1];
            walk.push_branches(alloc, possible, step, &mut walks, budget)?;
            continue;
        }
        if let Some(first) = walk.first_choice(alloc, universe, possible, budget)? {
            if firsts.len() >= MAX_WAYS {
                return Ok(None);
            }
            firsts.push(first)?;
        }
    }
    Ok(Some(firsts))
}
