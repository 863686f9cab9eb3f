ghost use Rattle.std.specs.Prelude.{◌≡◌, slice_index};
ghost use Rattle.am_scan.specs.Trimming.{idle_form};

use regex_nfa::{State, StateId, Transition};
use std::alloc::{AllocError, Global};

/// Returns the name of a state; past the end it is 0.
#[tactic(auto, using(std::proofs::lemmas::Option::slice_get_read, std::proofs::lemmas::Option::slice_get_past, std::proofs::lemmas::Option::get_or_from_slice_get))]
pub(crate) fn name_of(names: &[StateId], id: StateId) -> StateId
    ensures { result ≡ slice_index names.now id }
{
    match names.get(id as usize) {
        Some(name) => *name,
        None => 0,
    }
}

/// Returns a state with other names for those to which it leads.
pub(crate) fn rename_state(state: State, names: &[StateId]) -> State
    ensures { idle_form (slice_index names.now) state ≡ idle_form (λ q. q) result }
{
    match state {
        State::ByteRange(step) => State::ByteRange(rename_step(step, names)),
        State::Split { first, second } => State::Split {
            first: name_of(names, first),
            second: name_of(names, second),
        },
        State::Save { slot, next } => State::Save {
            slot,
            next: name_of(names, next),
        },
        State::Look { look, next } => State::Look {
            look,
            next: name_of(names, next),
        },
        State::Sparse { .. } | State::Match | State::Fail => state,
    }
}

/// Returns steps with other names for the states to which they lead.
pub(crate) fn rename_steps(
    alloc: Global,
    steps: &[Transition],
    names: &[StateId],
) -> Result<Vec<Transition>, AllocError> {
    let mut renamed = Vec::with_capacity(alloc, steps.len())?;
    for step in steps {
        renamed.push(rename_step(*step, names))?;
    }
    Ok(renamed)
}

/// Returns a step with another name for the state to which it leads.
fn rename_step(step: Transition, names: &[StateId]) -> Transition {
    Transition {
        start: step.start,
        end: step.end,
        next: name_of(names, step.next),
    }
}
