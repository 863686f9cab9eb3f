ghost use Rattle.std.specs.Prelude.{◌≡◌, ◌==◌, ◌<◌, ◌≤◌, List, [], ◌∷◌, ◌++◌, length};
ghost use Rattle.std.specs.Prelude.{slice_index, IfSome, IfNone};

use crate::limits::MAX_POSITIONS;
use std::marker::Model;

/// A position among the values of a label, or among the children of a route. Positions count from
/// 0.
pub type Position = u16;

/// A list of at most [`MAX_POSITIONS`] positions.
///
/// A choice is such a list, and so is a path of `am_config`. So how positions are stored is proved
/// once. The price is that a path takes twice the room that its steps need.
#[derive(Clone, Copy, Debug)]
pub struct Positions {
    positions: [Position; MAX_POSITIONS],
    len: usize,
}

impl Model for Positions {
    ghost use Rattle.std.specs.Prelude.{List, ℕ};
    ghost use Rattle.am_universe.specs.PositionsView.{view_of, IsStored, stored_form, stored_again};

    ghost Value = { List ℕ };

    ghost view = { view_of };

    ghost invariant = { IsStored };

    ghost inverse = { stored_form };

    ghost inverse_ok = { stored_again };
}

impl Positions {
    /// The empty list.
    pub fn empty() -> Positions
        ensures no_position { result ≡ [] }
    {
        Positions {
            positions: [0; MAX_POSITIONS],
            len: 0,
        }
    }

    /// How many positions there are, at most [`MAX_POSITIONS`].
    pub fn len(&self) -> usize
        ensures len { result ≡ length self.now }
        ensures at_most { result ≤ MAX_POSITIONS }
    {
        self.len
    }

    /// Whether there is no position.
    pub fn is_empty(&self) -> bool
        ensures empty { result ≡ (length self.now == 0) }
    {
        self.len() == 0
    }

    /// The position at `i`.
    pub fn get(&self, i: usize) -> Position
        requires { i < length self.now }
        ensures position { result ≡ slice_index self.now i }
    {
        // The contract of `len` tells the proof that `i` is within the array.
        prove!(self.len() <= MAX_POSITIONS);
        self.positions[i]
    }

    /// The positions as a slice.
    pub fn as_slice(&self) -> &[Position]
        ensures positions { result.now ≡ self.now }
    {
        &self.positions[..self.len]
    }

    /// Adds a position at the end. The list must have fewer than [`MAX_POSITIONS`].
    pub fn push(&mut self, position: Position)
        requires { length self.old < MAX_POSITIONS }
        ensures added { self.new ≡ self.old ++ position ∷ [] }
    {
        self.positions[self.len] = position;
        self.len += 1;
    }

    /// Removes the last position and returns it; `None` if there is none, and then nothing changes.
    pub fn pop(&mut self) -> Option<Position>
        ensures last { IfSome result (λ position. self.old ≡ self.new ++ position ∷ []) }
        ensures none { IfNone result ((self.old ≡ []) × (self.new ≡ [])) }
    {
        if self.len == 0 {
            return None;
        }
        self.len -= 1;
        let position = self.positions[self.len];
        self.positions[self.len] = 0;
        Some(position)
    }
}

// Two lists are equal if they have the same positions in the same order.
impl PartialEq for Positions {
    ghost use Rattle.std.specs.Cmp.{partial_equiv_from_equiv};
    ghost use Rattle.std.specs.Cmp.Lexicographic.{nat_list_eq_equiv};
    ghost use Rattle.am_universe.specs.Text.{same_text};

    ghost eq = { same_text };

    ghost laws = { partial_equiv_from_equiv nat_list_eq_equiv };

    fn eq(&self, other: &Positions) -> bool {
        self.as_slice() == other.as_slice()
    }
}

impl Eq for Positions {
    ghost use Rattle.std.specs.Cmp.Lexicographic.{nat_list_eq_equiv};

    ghost laws = { nat_list_eq_equiv };
}

/// A whole choice, which has one position for each label of a universe, or a prefix of one.
pub type Choice = Positions;
