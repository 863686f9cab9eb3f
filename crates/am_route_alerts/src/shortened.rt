//! The fewest of some matchers that say the same as all of them.

ghost use Rattle.std.specs.Prelude.{◌≡◌, length, map, IfOk, IfSome};
ghost use Rattle.am_first_sets.specs.Literals.{hold_all};
ghost use Rattle.am_first_sets.specs.PossibleSets.{possible_space};
ghost use Rattle.am_first_sets.specs.Reason.{AreNamedBefore};
ghost use Rattle.am_first_sets.specs.Solving.{marked};
ghost use Rattle.am_route_alerts.specs.MatcherCubes.{AreEachCubes, IsOnlyNeeded, MeetsAll};
ghost use Rattle.am_route_alerts.specs.Shortened.{IsShortened};

use crate::hints::Hints;
use crate::implied::leave_out_implied;
use crate::matcher_cubes::KnownMatcher;
use am_first_sets::{Budget, Candidate, PossibleSets, Unfinished};
use am_labels::Matcher;
use am_universe::Choice;
use std::alloc::{AllocError, Global};

/// Returns matchers without those that follow from the others, for the label sets of a space that
/// meet given literals. Of two that say the same, the first one stays. A choice that meets these
/// literals and fails some matcher makes it shorter. Fails if the budget is used up or memory runs
/// out.
pub(crate) fn shortened<'a, 'c>(
    alloc: Global,
    possible: &PossibleSets<'_>,
    given: &[Candidate<'c>],
    matchers: &[KnownMatcher<'c, 'a>],
    choice: Option<&Choice>,
    budget: &mut Budget,
) -> Result<Vec<&'a Matcher>, Unfinished>
    requires cubes { AreEachCubes (possible_space possible.now).labels matchers.now }
    requires named { AreNamedBefore (length given.now) given.now }
    ensures shortened { IfOk result (λ kept.
        IsShortened (MeetsAll (possible_space possible.now) given.now)
        (map (λ known. known.matcher.now) matchers.now) (map (λ m. m.now) kept.items)) }
{
    if let Some(matcher) = only_needed(possible, given, matchers, choice) {
        return Ok(vec![in alloc; matcher]?);
    }
    let mut literals = given.to_vec(alloc)?;
    for known in matchers {
        literals.push(Candidate {
            cube: known.cube,
            wanted: true,
            named: true,
            tag: 0,
        })?;
    }
    leave_out_implied(
        alloc,
        possible.choices(),
        literals.as_mut_slice(),
        given.len(),
        &Hints::none(alloc),
        budget,
    )?;
    Ok(named_matchers(alloc, &literals[given.len()..], matchers)?)
}

/// Returns the matcher, if there is only one, and if a choice that meets the given literals fails
/// it. Otherwise it returns `None`, which says nothing.
fn only_needed<'a>(
    possible: &PossibleSets<'_>,
    given: &[Candidate<'_>],
    matchers: &[KnownMatcher<'_, 'a>],
    choice: Option<&Choice>,
) -> Option<&'a Matcher>
    ensures { IfSome result (λ matcher.
        IsOnlyNeeded (possible_space possible.now) given.now matchers.now matcher.now) }
{
    let (Some(choice), [known]) = (choice, matchers) else {
        return None;
    };
    if known.cube.must(choice) || !possible.choices().has(choice) || !all_hold(given, choice) {
        return None;
    }
    Some(known.matcher)
}

/// Whether all literals are true at a choice.
fn all_hold(literals: &[Candidate<'_>], choice: &Choice) -> bool
    ensures { result ≡ hold_all choice.now literals.now }
{
    literals.iter().all(|literal| literal.holds(choice))
}

/// Returns the matchers whose literals are named. Fails only if memory runs out.
fn named_matchers<'a>(
    alloc: Global,
    literals: &[Candidate<'_>],
    matchers: &[KnownMatcher<'_, 'a>],
) -> Result<Vec<&'a Matcher>, AllocError>
    ensures { IfOk result (λ kept. kept.items ≡ marked (map (λ k. k.named) literals.now)
        (map (λ known. known.matcher) matchers.now)) }
{
    let mut kept = Vec::new(alloc);
    for (literal, known) in literals.iter().zip(matchers) {
        if literal.named {
            kept.push(known.matcher)?;
        }
    }
    Ok(kept)
}
