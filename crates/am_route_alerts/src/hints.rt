//! Where to look first for an alert that a list takes.
//!
//! Most lists are needed, and most of them take an alert that differs from one that ends at the
//! route only in the labels that they ask about. The first such alert is looked at without a
//! search. If it does not show that the list is needed, another one may: a hint fixes one label to
//! what such an alert has, so a search with the hints of all other labels is short. If it finds
//! nothing, a search without hints decides.

ghost use Rattle.std.specs.Prelude.{◌<◌, length, slice_index, IfOk, IfSome, IsTrue, List};
ghost use Rattle.am_universe.specs.Universe.{sizes};
ghost use Rattle.am_first_sets.specs.declared.candidate.Candidate.{Candidate};
ghost use Rattle.am_first_sets.specs.Literals.{IsMet};
ghost use Rattle.am_first_sets.specs.PossibleChoices.{IsPossible};
ghost use Rattle.am_route_alerts.specs.Implied.{negated};
ghost use Rattle.am_route_alerts.specs.Nearby.{AreHints};

use crate::nearby::Nearby;
use am_first_sets::{Candidate, PossibleChoices};
use am_judged_lists::{Cube, Matching, PositionBox};
use am_labels::Row;
use am_universe::limits::MAX_VALUES;
use am_universe::{Choice, Position, Universe};
use std::alloc::{AllocError, Global};

/// Where to look first for choices that fail one of some literals and meet the others.
#[derive(Drop)]
pub(crate) struct Hints {
    /// A choice that meets all of them, for those nearby.
    pub nearby: Option<Nearby>,
    /// The positions of such a choice.
    pub positions: Vec<Hint>,
}

impl Hints {
    /// No hints.
    pub(crate) fn none(alloc: Global) -> Hints
        ensures { (literals : List Candidate) → AreHints literals result }
    {
        Hints {
            nearby: None,
            positions: Vec::new(alloc),
        }
    }

    /// A choice that meets all literals, if one is known.
    pub(crate) fn choice(&self) -> Option<&Choice> {
        match &self.nearby {
            Some(nearby) => Some(nearby.choice()),
            None => None,
        }
    }

    /// Whether a choice nearby shows that the literal at a position is needed.
    pub(crate) fn show_needed(
        &self,
        possible: &PossibleChoices,
        literals: &[Candidate<'_>],
        i: usize,
    ) -> bool
        requires there { i < length literals.now }
        requires hints { AreHints literals.now self.now }
        ensures { IsTrue result → IsMet (IsPossible possible.now) (negated i literals.now) }
    {
        match &self.nearby {
            Some(nearby) => nearby.shows_needed(possible, literals, i),
            None => false,
        }
    }
}

/// A position of one label, as a cube that permits only that position, and as a box.
#[derive(Drop)]
pub(crate) struct Hint {
    pub cube: Cube,
    at: PositionBox,
}

impl Hint {
    /// Whether another cube permits the position too.
    pub(crate) fn fits(&self, cube: &Cube) -> bool {
        !matches!(self.at.matching(cube), Matching::Misses)
    }
}

/// Returns the hints that a box of choices gives which meet literals: its first choice, and the
/// positions of that one. Fails only if memory runs out.
pub(crate) fn hints_of(
    alloc: Global,
    universe: &Universe,
    found: &PositionBox,
    literals: &[Candidate<'_>],
) -> Result<Hints, AllocError>
    ensures { IfOk result (AreHints literals.now) }
{
    let mut choice = Choice::empty();
    let mut positions = Vec::with_capacity(alloc, universe.len())?;
    for label in 0..universe.len() {
        if let Some(position) = first_position(universe, found, label) {
            choice.push(position as Position);
            positions.push(hint_at(alloc, universe, label, position)?)?;
        }
    }
    let nearby = Nearby::of(alloc, choice, literals)?;
    Ok(Hints { nearby, positions })
}

/// The first position of a label that a box permits.
fn first_position(universe: &Universe, found: &PositionBox, label: usize) -> Option<usize>
    requires { label < length universe.now }
    ensures within { IfSome result (λ position. position < slice_index (sizes universe.now) label) }
    ensures at_most { IfSome result (λ position. position < MAX_VALUES) }
{
    for position in 0..universe.size(label) {
        if found.permits(label, position) {
            return Some(position);
        }
    }
    None
}

/// Makes the hint of a position of a label. Fails only if memory runs out.
fn hint_at(
    alloc: Global,
    universe: &Universe,
    label: usize,
    position: usize,
) -> Result<Hint, AllocError>
    requires label { label < length universe.now }
    requires position { position < slice_index (sizes universe.now) label }
{
    let text = universe.value(label, position).unwrap_or("");
    let row = Row::of_value(alloc, universe, universe.name(label), text)?;
    let cube = Cube::of_rows(alloc, universe, &[row], &[])?;
    let mut at = PositionBox::all(alloc, universe)?;
    at.keep_only(label, position);
    Ok(Hint { cube, at })
}
