//! Outcomes that were found.

ghost use Rattle.std.specs.Prelude.{◌≡◌, ◌<◌, Some, length, slice_get};
ghost use Rattle.am_outcomes.specs.OutcomesView.{lists_view};

use am_universe::Choice;
use indexmap::IndexMap;
use std::marker::Model;

/// The outcomes of the choices of a space, each once, in the order of their first choices.
#[derive(Drop)]
pub struct Outcomes {
    /// An `IndexMap` keeps the order in which the outcomes came.
    pub(crate) firsts: IndexMap<Vec<Vec<usize>>, Choice>,
}

impl Model for Outcomes {
    ghost use Rattle.std.specs.Prelude.{List, ℕ, map};
    ghost use Rattle.am_outcomes.specs.OutcomesView.{entry_view};

    ghost Value = { List (List (List ℕ) × List ℕ) };

    ghost view = { λ o. map entry_view o.firsts.entries };
}

impl Outcomes {
    /// Returns the number of outcomes.
    pub fn len(&self) -> usize
        ensures len { result ≡ length self.now }
    {
        self.firsts.len()
    }

    /// Returns the outcome at a position, and the first choice that has it. The position must be
    /// less than [`Outcomes::len`].
    pub fn get(&self, i: usize) -> (&[Vec<usize>], &Choice)
        requires { i < length self.now }
        ensures outcome { slice_get self.now i ≡ Some (lists_view result.0.now, result.1.now) }
    {
        match self.firsts.get_index(i) {
            Some((lists, first)) => (lists.as_slice(), first),
            None => unreachable!(),
        }
    }
}
