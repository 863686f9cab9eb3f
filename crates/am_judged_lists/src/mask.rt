ghost use Rattle.std.specs.Prelude.{◌≡◌, ℕ, ◌*◌, ◌/◌, ◌%◌, ◌<◌, ◌≤◌, ◌++◌, ◌&&◌, ◌||◌, ◌==◌};
ghost use Rattle.std.specs.Prelude.{false, not, length, slice_index_or, nat_lt, Some};
ghost use Rattle.std.specs.Prelude.{IfOk, IfSome, IsTrue, All};
ghost use Rattle.am_judged_lists.specs.Rows.{all_allow};
ghost use Rattle.am_judged_lists.specs.CubeView.{permits_none, permits_all};
ghost use Rattle.am_judged_lists.specs.MaskView.{is_set};
ghost use Rattle.am_judged_lists.specs.Boxes.{is_in_part};

use am_labels::Row;
use am_universe::Position;
use std::alloc::{AllocError, Global};
use std::marker::Model;

/// How many positions a word has room for.
const WORD: usize = 64;

/// One of the two parts into which a mask divides the positions of its label.
#[derive(Clone, Copy)]
pub enum Part {
    /// The positions that the mask permits.
    Within,
    /// The positions that it does not permit.
    Outside,
}

impl Part {
    /// The bits that are in this part. `mask` is a word of the mask.
    fn of_word(self, mask: u64) -> u64
        ensures { (k : ℕ) → k < WORD → is_set result k ≡ is_in_part self (is_set mask k) }
    {
        match self {
            Part::Within => mask,
            Part::Outside => !mask,
        }
    }
}

/// Which positions of a label are permitted. Only this file knows how they are stored.
#[derive(Drop)]
pub(crate) struct Mask {
    /// The bits of the first positions. They are kept in the mask itself, because most labels have
    /// no more: such a mask takes no memory, and is read at once.
    first: u64,
    /// The words after the first one, as many as the label's size needs.
    more: Vec<u64>,
}

impl Model for Mask {
    ghost use Rattle.std.specs.Prelude.{List, ◌∷◌, Bool};
    ghost use Rattle.am_judged_lists.specs.MaskView.{permitted_of};

    ghost Value = { List Bool };

    ghost view = { λ m. permitted_of (m.first ∷ m.more.items) };
}

impl Mask {
    /// Makes the mask of the positions of a label of this size at which each row of that label, in
    /// `rows` and in `more`, is true. Rows of other labels have no effect. Fails only if memory
    /// runs out.
    pub(crate) fn of_rows(
        alloc: Global,
        rows: &[Row],
        more: &[Row],
        label: usize,
        size: usize,
    ) -> Result<Mask, AllocError>
        requires rows { All (λ row. row.label ≡ Some label → length row.truths ≡ size) rows.now }
        requires more { All (λ row. row.label ≡ Some label → length row.truths ≡ size) more.now }
        ensures permitted { IfOk result (λ mask. (j : ℕ) → j < size
            → slice_index_or mask j false ≡ all_allow (rows.now ++ more.now) label j) }
    {
        let mut mask = Mask::full(alloc, size)?;
        for j in 0..size {
            mask.keep_if(j, all_allow(rows, label, j) && all_allow(more, label, j));
        }
        Ok(mask)
    }

    /// Makes the mask of all positions of a label of this size. Fails only if memory runs out.
    pub(crate) fn full(alloc: Global, size: usize) -> Result<Mask, AllocError>
        ensures { IfOk result (λ mask. (j : ℕ) → slice_index_or mask j false ≡ nat_lt j size) }
    {
        let more = vec![in alloc; u64::MAX; size.saturating_sub(1) / WORD]?;
        let mut mask = Mask {
            first: u64::MAX,
            more,
        };
        mask.keep_bits(size / WORD, (1u64 << (size % WORD)) - 1);
        Ok(mask)
    }

    /// Takes out a position, unless it is to be kept.
    fn keep_if(&mut self, j: usize, kept: bool)
        ensures { (k : ℕ) → slice_index_or self.new k false
            ≡ (slice_index_or self.old k false && (not (k == j) || kept)) }
    {
        if !kept {
            self.keep_bits(j / WORD, !(1u64 << (j % WORD)));
        }
    }

    /// Takes out the positions that are not in a part, by another mask.
    pub(crate) fn keep(&mut self, part: Part, other: &Mask)
        ensures same { length self.new ≡ length self.old }
        ensures kept { (j : ℕ) → slice_index_or self.new j false ≡ (slice_index_or self.old j false
            && is_in_part part (slice_index_or other.now j false)) }
    {
        for i in 0..self.words() {
            self.keep_bits(i, part.of_word(other.word(i)));
        }
    }

    /// Takes out all positions but one.
    pub(crate) fn keep_only(&mut self, position: usize)
        ensures same { length self.new ≡ length self.old }
        ensures kept { (j : ℕ) → slice_index_or self.new j false
            ≡ (slice_index_or self.old j false && j == position) }
    {
        for i in 0..self.words() {
            self.keep_bits(i, word_of_one(position, i));
        }
    }

    /// Whether some position is permitted and in a part, by another mask.
    pub(crate) fn any_in(&self, part: Part, other: &Mask) -> bool
        ensures some { IsTrue result → ((j : ℕ) → (slice_index_or self.now j false
            && is_in_part part (slice_index_or other.now j false)) ≡ false) → ⊥ }
        ensures none { result ≡ false → (j : ℕ) → (slice_index_or self.now j false
            && is_in_part part (slice_index_or other.now j false)) ≡ false }
    {
        for i in 0..self.words() {
            if self.word(i) & part.of_word(other.word(i)) != 0 {
                return true;
            }
        }
        false
    }

    /// Makes a copy. Fails only if memory runs out.
    pub(crate) fn try_clone(&self, alloc: Global) -> Result<Mask, AllocError>
        ensures same { IfOk result (λ mask. mask ≡ self.now) }
    {
        Ok(Mask {
            first: self.first,
            more: self.more.as_slice().to_vec(alloc)?,
        })
    }

    /// Whether a position is permitted.
    pub(crate) fn permits(&self, position: Position) -> bool
        ensures permitted { result ≡ slice_index_or self.now position false }
    {
        self.contains(usize::from(position))
    }

    /// The first permitted position, if there is one that a label can have.
    pub(crate) fn first(&self) -> Option<Position> {
        for i in 0..self.words() {
            let word = self.word(i);
            if word != 0 {
                let before = i.saturating_mul(WORD);
                let first = before.saturating_add(word.trailing_zeros() as usize);
                return Position::try_from(first).ok();
            }
        }
        None
    }

    /// Whether two masks permit the same positions.
    pub(crate) fn is_same(&self, other: &Mask) -> bool
        ensures same { IsTrue result → self.now ≡ other.now }
    {
        self.first == other.first && self.more == other.more
    }

    /// Whether no position of a label of this size is permitted.
    pub(crate) fn is_empty(&self, size: usize) -> bool
        ensures none { result ≡ permits_none size self.now }
    {
        (0..size).all(|j| !self.contains(j))
    }

    /// Whether all positions of a label of this size are permitted.
    pub(crate) fn is_full(&self, size: usize) -> bool
        ensures all { result ≡ permits_all size self.now }
    {
        (0..size).all(|j| self.contains(j))
    }

    /// Whether the position `j` is permitted. A position without a word is not permitted.
    pub(crate) fn contains(&self, j: usize) -> bool
        ensures { result ≡ slice_index_or self.now j false }
    {
        (self.word(j / WORD) >> (j % WORD)) & 1 == 1
    }

    /// The number of words.
    fn words(&self) -> usize
        ensures { WORD * result ≡ length self.now }
    {
        self.more.len() + 1
    }

    /// The word at `i`, or 0 after the last word.
    fn word(&self, i: usize) -> u64
        ensures { (j : ℕ) → j / WORD ≡ i
            → is_set result (j % WORD) ≡ slice_index_or self.now j false }
    {
        if i == 0 {
            return self.first;
        }
        match self.more.get(i - 1) {
            Some(word) => *word,
            None => 0,
        }
    }

    /// Takes out the positions of the word at `i` whose bits are not in `bits`.
    fn keep_bits(&mut self, i: usize, bits: u64)
        ensures same { length self.new ≡ length self.old }
        ensures kept { (j : ℕ) → slice_index_or self.new j false ≡ (slice_index_or self.old j false
            && (not (j / WORD == i) || is_set bits (j % WORD))) }
    {
        if i == 0 {
            self.first &= bits;
        } else if i <= self.more.len() {
            self.more[i - 1] &= bits;
        }
    }
}

/// The word at `i` of a mask that permits one position only.
fn word_of_one(position: usize, i: usize) -> u64
    ensures { (j : ℕ) → j / WORD ≡ i → is_set result (j % WORD) ≡ (j == position) }
{
    if position / WORD == i {
        1u64 << (position % WORD)
    } else {
        0
    }
}

/// Whether each row of a label, among some rows, is true at a position of the label.
fn all_allow(rows: &[Row], label: usize, position: usize) -> bool
    requires { All (λ row. row.label ≡ Some label → position < length row.truths) rows.now }
    ensures { result ≡ all_allow rows.now label position }
{
    for row in rows {
        if row.label() == Some(label) && !row.holds(position) {
            return false;
        }
    }
    true
}
