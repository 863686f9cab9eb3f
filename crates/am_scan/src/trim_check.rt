//! Whether a compiled pattern does the same as a larger one. Each of its states stands for a state
//! of the larger one, its origin.
ghost use Rattle.std.specs.Prelude.{◌≡◌, ◌<◌, ℕ, IsTrue, option_map, slice_index, vec_len};
ghost use Rattle.regex_nfa.specs.declared.state.State.TheVariants.{Fail};
ghost use Rattle.am_scan.specs.Trimming.{DoesSame, IsTrimmed, idle_form};

use crate::byte_set::ByteSet;
use crate::renaming::{name_of, rename_state};
use regex_nfa::{Nfa, State, StateId};

/// Whether each state does the same as its origin in texts of these bytes. Only `true` promises
/// something.
pub(crate) fn is_trimmed(trimmed: &Nfa, nfa: &Nfa, origins: &[StateId], bytes: ByteSet) -> bool
    ensures { IsTrue result → IsTrimmed bytes trimmed.now nfa.now origins.now }
{
    if name_of(origins, trimmed.start) != nfa.start {
        return false;
    }
    for id in 0..trimmed.states.len() {
        if !does_same(trimmed, id as u32, nfa, origins, bytes) {
            return false;
        }
    }
    true
}

/// Whether a state does the same as its origin.
fn does_same(trimmed: &Nfa, id: StateId, nfa: &Nfa, origins: &[StateId], bytes: ByteSet) -> bool
    requires { id < vec_len trimmed.now.states }
    ensures { IsTrue result → DoesSame bytes trimmed.now nfa.now origins.now id }
{
    let origin = name_of(origins, id);
    if origin as usize >= nfa.states.len() {
        return false;
    }
    let state = trimmed.state(id);
    let whole = nfa.state(origin);
    if !has_same_steps(state, whole, origins) {
        return false;
    }
    for byte in 0..=u8::MAX {
        if bytes.has(byte)
            && !is_same_target(
                trimmed.next_on(state, byte),
                nfa.next_on(whole, byte),
                origins,
            )
        {
            return false;
        }
    }
    true
}

/// Whether a state takes the same steps as another one without reading a byte.
fn has_same_steps(state: State, whole: State, origins: &[StateId]) -> bool
    ensures { IsTrue result
        → idle_form (slice_index origins.now) state ≡ idle_form (λ q. q) whole }
{
    takes_no_step(state) && takes_no_step(whole) || rename_state(state, origins) == whole
}

/// Whether a state takes no step without reading a byte, and is no match.
fn takes_no_step(state: State) -> bool
    ensures { IsTrue result → (name : ℕ → ℕ) → idle_form name state ≡ Fail }
{
    matches!(
        state,
        State::ByteRange(_) | State::Sparse { .. } | State::Fail
    )
}

/// Whether a byte leads to the origin of a state, or nowhere, as it should.
fn is_same_target(target: Option<StateId>, whole: Option<StateId>, origins: &[StateId]) -> bool
    ensures { IsTrue result → option_map (slice_index origins.now) target ≡ whole }
{
    match (target, whole) {
        (Some(id), Some(other)) => name_of(origins, id) == other,
        (None, None) => true,
        _ => false,
    }
}
