//! Choices nearby, which show that literals are needed.
//!
//! Most lists are needed, and most of them take an alert that differs from one that ends at the
//! route only in labels that they ask about. So from a choice that meets all literals, another one
//! is made for each literal, which fails it. The literals that ask about no label where the two
//! differ are true at both, and only the others are looked at. That takes no search.

ghost use Rattle.std.specs.Prelude.{◌≡◌, ◌<◌, ℕ, length, slice_get, Some, IfOk, IfSome, IsTrue};
ghost use Rattle.std.specs.Prelude.{Contains};
ghost use Rattle.am_first_sets.specs.declared.candidate.Candidate.{Candidate};
ghost use Rattle.am_first_sets.specs.Literals.{holds_at, meets, IsMet};
ghost use Rattle.am_first_sets.specs.PossibleChoices.{IsPossible};
ghost use Rattle.am_route_alerts.specs.Implied.{negated};
ghost use Rattle.am_route_alerts.specs.Nearby.{IsNearby, ListsAsking};

use am_first_sets::{Candidate, PossibleChoices};
use am_universe::Choice;
use std::alloc::{AllocError, Global};

/// The most masks that literals may have if choices nearby are looked at. No budget counts these
/// looks, so they must be short.
const MAX_MASKS: usize = 2_048;

/// A choice that meets literals, and for each label the positions of those that ask about it.
#[derive(Drop)]
pub(crate) struct Nearby {
    choice: Choice,
    asking: Vec<Vec<usize>>,
}

impl Nearby {
    /// Makes it of a choice, or returns `None` if the choice fails a named literal or the literals
    /// have too many masks. Fails only if memory runs out.
    pub(crate) fn of(
        alloc: Global,
        choice: Choice,
        literals: &[Candidate<'_>],
    ) -> Result<Option<Nearby>, AllocError>
        ensures { IfOk result (λ found. IfSome found (IsNearby literals.now)) }
    {
        if mask_count(literals) > MAX_MASKS || !are_met(literals, &choice) {
            return Ok(None);
        }
        let mut asking = Vec::with_capacity(alloc, choice.len())?;
        for label in 0..choice.len() {
            asking.push(asking_about(alloc, literals, label)?)?;
        }
        Ok(Some(Nearby { choice, asking }))
    }

    /// The choice that meets the literals.
    pub(crate) fn choice(&self) -> &Choice {
        &self.choice
    }

    /// Whether the nearest choice that the cube of a literal matches is possible, fails the literal
    /// and meets the other named ones.
    pub(crate) fn shows_needed(
        &self,
        possible: &PossibleChoices,
        literals: &[Candidate<'_>],
        i: usize,
    ) -> bool
        requires there { i < length literals.now }
        requires nearby { IsNearby literals.now self.now }
        ensures { IsTrue result → IsMet (IsPossible possible.now) (negated i literals.now) }
    {
        let nearest = literals[i].cube.nearest(&self.choice);
        if literals[i].holds(&nearest) || !possible.has(&nearest) {
            return false;
        }
        for label in 0..self.choice.len() {
            if nearest.get(label) != self.choice.get(label)
                && !others_hold(self.asking[label].as_slice(), literals, i, &nearest)
            {
                return false;
            }
        }
        true
    }
}

/// How many masks the cubes of literals have together.
fn mask_count(literals: &[Candidate<'_>]) -> usize {
    let mut count = 0_usize;
    for literal in literals {
        count = count.saturating_add(literal.cube.mask_count());
    }
    count
}

/// Whether a choice meets the named literals.
fn are_met(literals: &[Candidate<'_>], choice: &Choice) -> bool
    ensures { result ≡ meets choice.now literals.now }
{
    literals
        .iter()
        .all(|literal| !literal.named || literal.holds(choice))
}

/// Returns the positions of the literals that ask about a label. Fails only if memory runs out.
fn asking_about(
    alloc: Global,
    literals: &[Candidate<'_>],
    label: usize,
) -> Result<Vec<usize>, AllocError>
    ensures { IfOk result (λ found. ListsAsking literals.now label found.items) }
{
    let mut found = Vec::new(alloc);
    for i in 0..literals.len() {
        if !literals[i].cube.is_free(label) {
            found.push(i)?;
        }
    }
    Ok(found)
}

/// Whether those of the literals at some positions that are named are true at a choice, but for the
/// one at `i`.
fn others_hold(places: &[usize], literals: &[Candidate<'_>], i: usize, choice: &Choice) -> bool
    ensures { IsTrue result → (j : ℕ) (k : Candidate) → Contains places.now j → (j ≡ i → ⊥)
        → slice_get literals.now j ≡ Some k → IsTrue k.named → IsTrue (holds_at choice.now k) }
{
    for j in places {
        if let Some(literal) = literals.get(*j) {
            if *j != i && literal.named && !literal.holds(choice) {
                return false;
            }
        }
    }
    true
}
