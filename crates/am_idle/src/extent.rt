//! Which of all alerts a list of matchers matches.

ghost use Rattle.std.specs.Prelude.{◌≡◌, ◌≢◌, List, [], ◌∷◌, IsTrue, IsFalse, IfOk, IfErr, OnOk};
ghost use Rattle.am_universe.specs.declared.kind.Kind.TheVariants as kinds;
ghost use Rattle.am_universe.specs.Universe.{Label};
ghost use Rattle.am_labels.specs.Matcher.{all_hold};
ghost use Rattle.am_eval.specs.Reaching.{IsSetOf};
ghost use Rattle.am_every_alert.specs.EveryAlert.{IsAlertOf};
ghost use Rattle.am_idle.specs.Lists.{StandsForLists, IsRefusalForLists};
ghost use Rattle.am_idle.specs.Extent.{MatchesOne, MatchesNone, MatchesAll, MatchesNotAll};

use crate::found::found_or_used_up;
use crate::lists::universe_for_lists;
use am_classes::Alphabet;
use am_first_sets::{Budget, PossibleSets, Unfinished, UsedUp};
use am_judged_lists::Cube;
use am_labels::{Matchers, Space};
use am_universe::{Kind, Universe};
use std::alloc::Global;

/// Whether a list of matchers matches some alert over an alphabet, among those that no impossible
/// list of a space matches. This is not known if the budget is used up. The space declares no
/// label, before and after.
///
/// Fails with `Limit`, `Unproved` and `Memory` as [`universe_for_lists`] does.
pub(crate) fn matches_some(
    alloc: Global,
    alphabet: Alphabet,
    space: &mut Space,
    matchers: &Matchers,
    budget: &mut Budget,
) -> Result<Result<bool, UsedUp>, Kind>
    requires { space.old.labels ≡ [] }
    ensures some { IfOk result (λ found. IfOk found (λ some. IsTrue some
        → MatchesOne (IsAlertOf alphabet space.old) matchers.now)) }
    ensures none { IfOk result (λ found. IfOk found (λ some. IsFalse some
        → MatchesNone (IsAlertOf alphabet space.old) matchers.now)) }
    ensures made { OnOk result ((u : List Label)
        × StandsForLists alphabet space.old (matchers.now ∷ []) u) }
    ensures refused { IfErr result (λ kind. kind ≢ kinds.Memory
        → IsRefusalForLists alphabet space.old (matchers.now ∷ []) kind) }
    ensures labels { space.new.labels ≡ [] }
    ensures impossible { space.new.impossible ≡ space.old.impossible }
{
    let universe = universe_for_lists(alloc, alphabet, space, &[matchers])?;
    space.declare(universe);
    let some = matches_some_in(alloc, space, matchers, budget);
    space.declare(Universe::empty(alloc));
    Ok(found_or_used_up(some)?)
}

/// Whether a list matches some label set of a space. Fails if the budget is used up or memory runs
/// out.
fn matches_some_in(
    alloc: Global,
    space: &Space,
    matchers: &Matchers,
    budget: &mut Budget,
) -> Result<bool, Unfinished>
    ensures some { IfOk result (λ some. IsTrue some
        → MatchesOne (IsSetOf space.now) matchers.now) }
    ensures none { IfOk result (λ some. IsFalse some
        → MatchesNone (IsSetOf space.now) matchers.now) }
{
    let possible = PossibleSets::of(alloc, space)?;
    let cube = Cube::of(alloc, matchers, space.universe())?;
    let found = possible.choices().meeting(alloc, &[&cube], &[], budget)?;
    Ok(found.is_some())
}

/// Whether a list matches all label sets of a space that another list matches. Fails if the budget
/// is used up or memory runs out.
pub(crate) fn matches_all_in(
    alloc: Global,
    space: &Space,
    matchers: &Matchers,
    among: &Matchers,
    budget: &mut Budget,
) -> Result<bool, Unfinished>
    ensures all { IfOk result (λ all. IsTrue all → MatchesAll
        (λ set. IsSetOf space.now set × IsTrue (all_hold set among.now)) matchers.now) }
    ensures not_all { IfOk result (λ all. IsFalse all → MatchesNotAll
        (λ set. IsSetOf space.now set × IsTrue (all_hold set among.now)) matchers.now) }
{
    let possible = PossibleSets::of(alloc, space)?;
    let choices = possible.choices();
    let cube = Cube::of(alloc, matchers, space.universe())?;
    let among = Cube::of(alloc, among, space.universe())?;
    let missed = choices.meeting(alloc, &[&among], &[&cube], budget)?;
    if missed.is_some() {
        return Ok(false);
    }
    let matched = choices.meeting(alloc, &[&among, &cube], &[], budget)?;
    Ok(matched.is_some())
}
