ghost use Rattle.std.specs.Prelude.{◌≡◌, ℕ, Some, IfOk};
ghost use Rattle.am_scan.specs.Automaton.{IsNextBy};

use crate::pattern_state::PatternState;
use regex_nfa::StateId;
use std::alloc::{AllocError, Global};

/// What bytes of one kind make of a text before which they stand.
#[derive(Drop)]
pub(crate) struct Steps {
    /// The kind.
    pub(crate) kind: u8,
    /// For each class of bytes, the states that lead to a match by reading one of it.
    pub(crate) reads: Vec<Vec<StateId>>,
    /// Whether a match begins at a character after the byte.
    pub(crate) later: bool,
}

impl Steps {
    /// Returns the state of the text with a byte of a class before it. `starts` says whether a
    /// character begins with the byte.
    pub(crate) fn next(
        &self,
        alloc: Global,
        class: usize,
        starts: bool,
    ) -> Result<PatternState, AllocError>
        ensures { IfOk result (λ next. IsNextBy self.now class starts next) }
    {
        let mut reads = match self.reads.get(class) {
            Some(reads) => reads.clone()?,
            None => Vec::new(alloc),
        };
        // Equal sets of states must be equal lists.
        reads.as_mut_slice().sort_unstable();
        Ok(PatternState {
            first: Some(self.kind),
            starts,
            reads,
            later: self.later,
        })
    }
}
