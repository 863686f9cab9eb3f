//! Sets of a few lists.

ghost use Rattle.std.specs.Prelude.{◌≡◌, ◌↔◌, ◌==◌, ◌||◌, ◌&&◌, ℕ, ◌<◌, ◌≤◌, IfSome, IfNone};
ghost use Rattle.std.specs.Prelude.{IsTrue, false, not};
ghost use Rattle.am_judged_lists.specs.ListSetView.{has};

/// How many lists a set has room for. A set is one number of 128 bits, the widest that there is.
/// With 64 bits a table would have twice as many blocks, and read twice as many numbers at each
/// prefix.
pub(crate) const ROOM: usize = 128;

/// A set of lists, by their indices. Only this file knows how it is stored.
#[derive(Clone, Copy, Drop)]
pub(crate) struct ListSet {
    bits: u128,
}

impl ListSet {
    /// The empty set.
    #[tactic(auto, using(crate::proofs::WordLemmas::none_set))]
    pub(crate) fn none() -> ListSet
        ensures none { (k : ℕ) → has result k ≡ false }
    {
        ListSet { bits: 0 }
    }

    /// The set of all lists that there is room for.
    #[tactic(auto, using(crate::proofs::SetLemmas::in_all))]
    pub(crate) fn all() -> ListSet
        ensures all { (k : ℕ) → k < ROOM → IsTrue (has result k) }
    {
        ListSet { bits: u128::MAX }
    }

    /// Adds the list at an index, if it is chosen.
    #[tactic(auto, using(crate::proofs::SetLemmas::inserted))]
    pub(crate) fn insert_if(&mut self, place: usize, chosen: bool)
        requires { place < ROOM }
        ensures inserted { (k : ℕ) → has self.new k ≡ (has self.old k || (k == place && chosen)) }
    {
        if chosen {
            self.bits |= 1u128 << place;
        }
    }

    /// Removes the list at an index, unless it is to be kept.
    #[tactic(auto, using(crate::proofs::SetLemmas::removed))]
    pub(crate) fn keep_if(&mut self, place: usize, kept: bool)
        requires { place < ROOM }
        ensures kept { (k : ℕ) → k < ROOM
            → has self.new k ≡ (has self.old k && (not (k == place) || kept)) }
    {
        if !kept {
            self.bits &= !(1u128 << place);
        }
    }

    /// Whether the list at an index is in the set.
    #[tactic(auto, using(crate::proofs::SetLemmas::is_there))]
    pub(crate) fn contains(self, place: usize) -> bool
        requires { place < ROOM }
        ensures there { result ≡ has self place }
    {
        (self.bits >> place) & 1 == 1
    }

    /// The lists that are in both sets.
    #[tactic(auto, using(crate::proofs::WordLemmas::set_and))]
    pub(crate) fn and(self, other: ListSet) -> ListSet
        ensures both { (k : ℕ) → has result k ≡ (has self k && has other k) }
    {
        ListSet {
            bits: self.bits & other.bits,
        }
    }

    /// The lists that are in this set and not in the other one.
    #[tactic(auto, using(crate::proofs::SetLemmas::in_first))]
    pub(crate) fn without(self, other: ListSet) -> ListSet
        ensures first { (k : ℕ) → k < ROOM → has result k ≡ (has self k && not (has other k)) }
    {
        ListSet {
            bits: self.bits & !other.bits,
        }
    }

    /// Whether no list is in the set.
    pub(crate) fn is_empty(self) -> bool
        ensures empty { IsTrue result ↔ ((k : ℕ) → k < ROOM → has self k ≡ false) }
    {
        self.bits == 0
    }

    /// The first index, from the index `from` on, at which a list is in the set.
    pub(crate) fn first_from(self, from: usize) -> Option<usize>
        requires { from < ROOM }
        ensures some { IfSome result (λ place. (from ≤ place) × (place < ROOM)) }
        ensures found { IfSome result (λ place. IsTrue (has self place)) }
        ensures before { IfSome result (λ place. (k : ℕ) → from ≤ k → k < place
            → has self k ≡ false) }
        ensures none { IfNone result ((k : ℕ) → from ≤ k → k < ROOM → has self k ≡ false) }
    {
        let bits = self.bits & (u128::MAX << from);
        if bits == 0 {
            return None;
        }
        Some(bits.trailing_zeros() as usize)
    }
}
