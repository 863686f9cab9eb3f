//! The marked places of a text: what matters about it to a pattern with wildcards.
//!
//! A place is marked if what stands from there on, up to the end of its alternative, matches the
//! whole text. It is so for a text with one more byte before it if the place is that of the byte
//! and the next place was marked, or if `.*` stands before the place and it was marked itself. So
//! only marked places, and those before them, need to be looked at.
ghost use Rattle.std.specs.Prelude.{◌≡◌, ℕ, List, [], ◌∷◌, IfOk, OnOk};
ghost use Rattle.std.specs.List.{list_any};
ghost use Rattle.am_scan.specs.WildcardPlaces.{marked_places, push_next, is_last, is_first_at};

use crate::wildcard_place::{WildcardPlace, place_at};
use std::alloc::{AllocError, Global};

/// Returns the marked places of the empty text, from the last to the first: the ends.
pub(crate) fn first_marked(
    alloc: Global,
    places: &[WildcardPlace],
) -> Result<Vec<usize>, AllocError>
    ensures { IfOk result (λ first. first.items ≡ marked_places places.now []) }
{
    let mut first = Vec::new(alloc);
    for at in (0..places.len()).rev() {
        if places[at].byte.is_none() {
            first.push(at)?;
        }
    }
    Ok(first)
}

/// Returns the marked places of a text with one more byte before it, from those of the text.
pub(crate) fn next_marked(
    alloc: Global,
    places: &[WildcardPlace],
    marked: &[usize],
    byte: u8,
) -> Result<Vec<usize>, AllocError>
    ensures { IfOk result (λ next. (text : List ℕ) → marked.now ≡ marked_places places.now text
        → next.items ≡ marked_places places.now (byte ∷ text)) }
{
    let mut next = Vec::new(alloc);
    for at in marked {
        push_next(&mut next, places, *at, byte)?;
    }
    Ok(next)
}

/// Adds the places that are marked for the longer text because this place was marked.
fn push_next(
    next: &mut Vec<usize>,
    places: &[WildcardPlace],
    at: usize,
    byte: u8,
) -> Result<(), AllocError>
    ensures { OnOk result (next.new.items ≡ push_next places.now byte next.old.items at) }
{
    if place_at(places, at).after_any && byte != b'\n' && !is_last(next.as_slice(), at) {
        next.push(at)?;
    }
    if at > 0 && place_at(places, at - 1).is_byte(byte) {
        next.push(at - 1)?;
    }
    Ok(())
}

/// Whether a number is the last of some numbers.
#[tactic(auto, using(crate::proofs::WildcardLemmas::last_read))]
fn is_last(numbers: &[usize], number: usize) -> bool
    ensures { result ≡ is_last numbers.now number }
{
    match numbers {
        [.., last] => *last == number,
        [] => false,
    }
}

/// Whether some alternative matches the texts with these marked places.
pub(crate) fn any_matches(places: &[WildcardPlace], marked: &[usize]) -> bool
    ensures { result ≡ list_any (is_first_at places.now) marked.now }
{
    marked.iter().any(|at| place_at(places, *at).first)
}
