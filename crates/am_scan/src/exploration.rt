ghost use Rattle.std.specs.Prelude.{◌≡◌, ◌<◌, ℕ, List, Some, IfOk, IfSome};
ghost use Rattle.std.specs.Prelude.{length, slice_get, vec_len};
ghost use Rattle.am_scan.specs.declared.pattern_state.PatternState.{PatternState};
ghost use Rattle.am_scan.specs.Automaton.{Grows, AreNumbers, IsIndexed, IsRow, AreRows};

use crate::columns::Columns;
use crate::limits::MAX_TEXT_STATES;
use crate::pattern_scan::PatternScan;
use crate::pattern_state::PatternState;
use crate::row::Row;
use indexmap::IndexSet;
use std::alloc::{AllocError, Global};

/// Returns a row for each state to which a text leads. The first row is that of the empty text.
/// Returns `None` if there are too many states, or a closure is not found.
pub(crate) fn explored(
    alloc: Global,
    scan: &PatternScan,
    columns: &Columns,
) -> Result<Option<Vec<Row>>, AllocError>
    requires { IsIndexed scan.now.nfa columns.now }
    ensures { IfOk result (λ found. IfSome found (λ rows. (states : List PatternState)
        × AreRows scan.now columns.now.columns.items states rows.items)) }
{
    let mut states = IndexSet::new(alloc);
    states.insert(scan.end(alloc))?;
    let mut rows = Vec::new(alloc);
    for at in 0..=MAX_TEXT_STATES {
        if at == states.len() {
            return Ok(Some(rows));
        }
        let Some(row) = row(alloc, scan, columns, &mut states, at)? else {
            return Ok(None);
        };
        rows.push(row)?;
    }
    Ok(None)
}

/// Returns the row of the state at `at`, and adds the states to which it leads. Returns `None` if
/// there are too many states, or a closure is not found.
fn row(
    alloc: Global,
    scan: &PatternScan,
    columns: &Columns,
    states: &mut IndexSet<PatternState>,
    at: usize,
) -> Result<Option<Row>, AllocError>
    requires at { at < length states.old.keys }
    requires index { IsIndexed scan.now.nfa columns.now }
    ensures grows { IfOk result (λ found. IfSome found
        (λ _. Grows states.old.keys states.new.keys)) }
    ensures row { IfOk result (λ found. IfSome found (λ row. (state : PatternState)
        → slice_get states.old.keys at ≡ Some state
        → IsRow scan.now columns.now.columns.items states.new.keys state row)) }
{
    let state = &states[at];
    let Some(found) = scan.finds(alloc, state)? else {
        return Ok(None);
    };
    let Some(nexts) = scan.next_states(alloc, state, columns)? else {
        return Ok(None);
    };
    let Some(next) = numbers_of(alloc, states, nexts)? else {
        return Ok(None);
    };
    Ok(Some(Row { next, found }))
}

/// Returns the numbers of some states, and adds each state that is not there yet. Returns `None` if
/// there are too many.
fn numbers_of(
    alloc: Global,
    states: &mut IndexSet<PatternState>,
    others: Vec<PatternState>,
) -> Result<Option<Vec<u32>>, AllocError>
    ensures grows { IfOk result (λ found. IfSome found
        (λ _. Grows states.old.keys states.new.keys)) }
    ensures count { IfOk result (λ found. IfSome found
        (λ numbers. vec_len numbers ≡ vec_len others)) }
    ensures each { IfOk result (λ found. IfSome found
        (λ numbers. AreNumbers states.new.keys others.items numbers.items)) }
{
    let mut numbers = Vec::with_capacity(alloc, others.len())?;
    for other in others {
        let (number, _) = states.insert_full(other)?;
        if number >= MAX_TEXT_STATES {
            return Ok(None);
        }
        numbers.push(number as u32)?;
    }
    Ok(Some(numbers))
}
