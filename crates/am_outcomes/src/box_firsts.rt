//! The first choice of a box, and whether a choice, or all choices of another box, are in a box.

ghost use Rattle.std.specs.Prelude.{◌≡◌, ◌<◌, ℕ, List, false, IfSome, IsTrue};
ghost use Rattle.am_universe.specs.Universe.{sizes};
ghost use Rattle.am_universe.specs.Choice.{IsWhole};
ghost use Rattle.am_search.specs.Start.{comes_before};
ghost use Rattle.am_judged_lists.specs.Boxes.{box_permits, IsInBox};

use am_judged_lists::PositionBox;
use am_universe::{Choice, Position, Universe};

/// Returns the first choice of a box, in declared order: the one with the least position of each
/// label. Returns `None` if there is none, or if the box has other labels than the universe.
pub(crate) fn first_in(universe: &Universe, positions: &PositionBox) -> Option<Choice>
    ensures inside { IfSome result (IsInBox positions.now) }
    ensures least { IfSome result (λ first. (c : List ℕ) → IsInBox positions.now c
        → comes_before c first ≡ false) }
{
    if positions.len() != universe.len() {
        return None;
    }
    let mut choice = Choice::empty();
    for label in 0..universe.len() {
        let Some(position) = least_of(positions, label, universe.size(label)) else {
            return None;
        };
        choice.push(position as Position);
    }
    Some(choice)
}

/// Returns the least permitted position of a label, of those below a size.
fn least_of(positions: &PositionBox, label: usize, size: usize) -> Option<usize>
    ensures below { IfSome result (λ position. position < size) }
    ensures permitted { IfSome result (λ position.
        IsTrue (box_permits positions.now label position)) }
    ensures least { IfSome result (λ position. (p : ℕ) → p < position
        → box_permits positions.now label p ≡ false) }
{
    for position in 0..size {
        if positions.permits(label, position) {
            return Some(position);
        }
    }
    None
}

/// Whether a choice is in a box.
pub(crate) fn is_in(positions: &PositionBox, choice: &Choice) -> bool
    ensures { IsTrue result → IsInBox positions.now choice.now }
{
    if choice.len() != positions.len() {
        return false;
    }
    for label in 0..choice.len() {
        if !positions.permits(label, usize::from(choice.get(label))) {
            return false;
        }
    }
    true
}

/// Whether all choices of a box are in another one. They must be choices of the universe.
pub(crate) fn is_within(universe: &Universe, inner: &PositionBox, outer: &PositionBox) -> bool
    requires { (c : List ℕ) → IsInBox inner.now c → IsWhole (sizes universe.now) c }
    ensures { IsTrue result → (c : List ℕ) → IsInBox inner.now c → IsInBox outer.now c }
{
    if outer.len() != universe.len() {
        return false;
    }
    for label in 0..universe.len() {
        if !is_within_at(label, universe.size(label), inner, outer) {
            return false;
        }
    }
    true
}

/// Whether each position of a label, of those below a size, that a box permits is permitted by
/// another one.
fn is_within_at(label: usize, size: usize, inner: &PositionBox, outer: &PositionBox) -> bool
    ensures { IsTrue result → (p : ℕ) → p < size → IsTrue (box_permits inner.now label p)
        → IsTrue (box_permits outer.now label p) }
{
    for position in 0..size {
        if inner.permits(label, position) && !outer.permits(label, position) {
            return false;
        }
    }
    true
}
