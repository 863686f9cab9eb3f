//! The states of the texts of a pattern with wildcards, and the table that leads to them.
ghost use Rattle.std.specs.Prelude.{◌≡◌, ◌<◌, ◌≤◌, ◌+◌, ◌^◌, ℕ, List, IfOk, IfSome, IfNone, OnOk};
ghost use Rattle.std.specs.Prelude.{length};
ghost use Rattle.std.specs.Global.{Vec};
ghost use Rattle.std.specs.List.{IsDistinct};
ghost use Rattle.am_scan.specs.Automaton.{Grows};
ghost use Rattle.am_scan.specs.WildcardPlaces.{marked_places, AreReached, AreStates};
ghost use Rattle.am_scan.specs.WildcardPlaces.{IsRowOf, same_state};
ghost use Rattle.am_scan.specs.declared.limits.TheConstants.{MAX_TEXT_STATES};

use crate::limits::MAX_TEXT_STATES;
use crate::row::Row;
use crate::wildcard_marks::{any_matches, first_marked, next_marked};
use crate::wildcard_place::WildcardPlace;
use indexmap::IndexSet;
use std::alloc::{AllocError, Global};

/// Returns a row for each state to which a text leads. The first row is that of the empty text.
/// Returns `None` if there are too many states.
pub(crate) fn wildcard_rows(
    alloc: Global,
    places: &[WildcardPlace],
    symbols: &[u8],
) -> Result<Option<Vec<Row>>, AllocError>
    requires { length symbols.now ≤ 256 }
    ensures some { IfOk result (λ found. IfSome found (λ rows. (states : List (Vec ℕ))
        × AreStates places.now symbols.now rows.items states)) }
    ensures none { IfOk result (λ found. IfNone found ((states : List (Vec ℕ))
        × (MAX_TEXT_STATES < length states) × AreReached places.now states
        × IsDistinct same_state states)) }
{
    // No two states are the same, since the set takes each once.
    let mut states = IndexSet::new(alloc);
    states.insert(first_marked(alloc, places)?)?;
    let mut rows = Vec::new(alloc);
    for at in 0..=MAX_TEXT_STATES {
        if at == states.len() {
            return Ok(Some(rows));
        }
        let state = states[at].clone()?;
        rows.push(row(alloc, places, symbols, state.as_slice(), &mut states)?)?;
        if states.len() > MAX_TEXT_STATES {
            return Ok(None);
        }
    }
    // In the last turn there was no further state, or there were too many.
    unreachable!()
}

/// Returns the row of a state, and adds the states to which it leads.
fn row(
    alloc: Global,
    places: &[WildcardPlace],
    symbols: &[u8],
    state: &[usize],
    states: &mut IndexSet<Vec<usize>>,
) -> Result<Row, AllocError>
    requires few { length states.old.keys + length symbols.now < 2 ^ 32 }
    requires of_text { (text : List ℕ) × (state.now ≡ marked_places places.now text) }
    requires reached { AreReached places.now states.old.keys }
    ensures grows { OnOk result (Grows states.old.keys states.new.keys) }
    ensures reached { OnOk result (AreReached places.now states.new.keys) }
    ensures row { IfOk result (λ row.
        IsRowOf places.now symbols.now states.new.keys state.now row) }
{
    let found = any_matches(places, state);
    let mut next = Vec::with_capacity(alloc, symbols.len())?;
    for symbol in symbols {
        let marked = next_marked(alloc, places, state, *symbol)?;
        let (number, _) = states.insert_full(marked)?;
        next.push(number as u32)?;
    }
    Ok(Row { next, found })
}
