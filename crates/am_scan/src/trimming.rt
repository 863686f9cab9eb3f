//! A compiled pattern without the states that no scanned text reaches.
//!
//! A class such as `\w` is compiled to states for the bytes of all its characters. If few bytes are
//! scanned, few of these states are reached, and all else that is made of the pattern grows with
//! the number of its states.
ghost use Rattle.std.specs.Prelude.{◌≡◌, List, ℕ, IfOk, length};
ghost use Rattle.am_labels.specs.PatternView.{IsSearchFor};
ghost use Rattle.am_scan.specs.Trimming.{IsScannedSearch};

use crate::byte_set::ByteSet;
use crate::renaming::{name_of, rename_state, rename_steps};
use crate::trim_check::is_trimmed;
use regex_nfa::{BuildError, Nfa, State, StateId};
use std::alloc::{AllocError, Global};

/// The most states of a pattern that is left as it is, since it takes little time to follow it.
const MAX_WHOLE_STATES: usize = 256;

/// Returns a compiled pattern that finds the same texts of these bytes. If the pattern has many
/// states, only those are left that such texts reach.
pub(crate) fn trim(alloc: Global, nfa: Nfa, bytes: ByteSet) -> Result<Nfa, AllocError>
    ensures { IfOk result (λ trimmed. (p : List ℕ)
        → IsSearchFor nfa p → IsScannedSearch bytes trimmed p) }
{
    if nfa.states.len() <= MAX_WHOLE_STATES {
        return Ok(nfa);
    }
    let origins = reached_states(alloc, &nfa, bytes)?;
    let Some(trimmed) = trimmed_of(alloc, &nfa, origins.as_slice())? else {
        return Ok(nfa);
    };
    // What was made is looked at, so it does not matter how it was made.
    if is_trimmed(&trimmed, &nfa, origins.as_slice(), bytes) {
        Ok(trimmed)
    } else {
        Ok(nfa)
    }
}

/// Returns the states that texts of these bytes reach, in order, and the two in front of the start.
fn reached_states(alloc: Global, nfa: &Nfa, bytes: ByteSet) -> Result<Vec<StateId>, AllocError> {
    let mut marks = vec![in alloc; false; nfa.states.len()]?;
    let mut reached = Vec::new(alloc);
    add_state(nfa.unanchored, marks.as_mut_slice(), &mut reached)?;
    add_state(nfa.unanchored + 1, marks.as_mut_slice(), &mut reached)?;
    for at in 0..nfa.states.len() {
        let Some(&id) = reached.get(at) else {
            break;
        };
        add_targets(nfa, id, bytes, marks.as_mut_slice(), &mut reached)?;
    }
    reached.as_mut_slice().sort_unstable();
    Ok(reached)
}

/// Adds the states to which a state leads.
fn add_targets(
    nfa: &Nfa,
    id: StateId,
    bytes: ByteSet,
    marks: &mut [bool],
    reached: &mut Vec<StateId>,
) -> Result<(), AllocError>
    ensures { length marks.new ≡ length marks.old }
{
    if id as usize >= nfa.states.len() {
        return Ok(());
    }
    let state = nfa.state(id);
    match state {
        State::Split { first, second } => {
            add_state(first, marks, reached)?;
            add_state(second, marks, reached)
        }
        State::Save { next, .. } | State::Look { next, .. } => add_state(next, marks, reached),
        _ => {
            for byte in 0..=u8::MAX {
                if bytes.has(byte) {
                    if let Some(next) = nfa.next_on(state, byte) {
                        add_state(next, marks, reached)?;
                    }
                }
            }
            Ok(())
        }
    }
}

/// Adds a state, unless it was added before.
fn add_state(id: StateId, marks: &mut [bool], reached: &mut Vec<StateId>) -> Result<(), AllocError>
    ensures { length marks.new ≡ length marks.old }
{
    if (id as usize) < marks.len() && !marks[id as usize] {
        marks[id as usize] = true;
        reached.push(id)?;
    }
    Ok(())
}

/// Makes a compiled pattern of some states. Returns `None` if they do not make one.
fn trimmed_of(alloc: Global, nfa: &Nfa, origins: &[StateId]) -> Result<Option<Nfa>, AllocError> {
    let numbers = numbers_of(alloc, nfa, origins)?;
    let numbers = numbers.as_slice();
    let mut states = Vec::with_capacity(alloc, origins.len())?;
    for id in origins {
        if let Some(state) = nfa.states.get(*id as usize) {
            states.push(rename_state(*state, numbers))?;
        }
    }
    let transitions = rename_steps(alloc, nfa.transitions.as_slice(), numbers)?;
    let start = name_of(numbers, nfa.start);
    let unanchored = name_of(numbers, nfa.unanchored);
    match Nfa::new(
        alloc,
        states,
        transitions,
        start,
        unanchored,
        nfa.slot_count,
    ) {
        Ok(trimmed) => Ok(Some(trimmed)),
        Err(BuildError::Malformed) => Ok(None),
        Err(BuildError::OutOfMemory) => Err(AllocError),
    }
}

/// Returns for each state its position among some states, or 0 if it is none of them.
fn numbers_of(alloc: Global, nfa: &Nfa, origins: &[StateId]) -> Result<Vec<StateId>, AllocError> {
    let mut numbers: Vec<StateId> = vec![in alloc; 0; nfa.states.len()]?;
    for number in 0..nfa.states.len() {
        let Some(id) = origins.get(number) else {
            break;
        };
        if (*id as usize) < numbers.len() {
            numbers[*id as usize] = number as u32;
        }
    }
    Ok(numbers)
}
