ghost use Rattle.std.specs.Prelude.{◌≡◌, ◌<◌, ◌≤◌, ℕ, List, map, false, not, IfOk, IfErr, OnOk};
ghost use Rattle.std.specs.Prelude.{OnErr, slice_index_or, IfSome, IfNone, IsTrue, length, ◌*◌, []};
ghost use Rattle.std.specs.Prelude.{◌++◌, ◌==◌};
ghost use Rattle.std.specs.List.{list_all, list_any, AllByRecursion};
ghost use Rattle.am_labels.specs.Matcher.{Matcher};
ghost use Rattle.am_labels.specs.Row.{row_of};
ghost use Rattle.am_judged_lists.specs.Rows.{is_never_true, is_any_of};
ghost use Rattle.am_judged_lists.specs.Cube.{IsCubeOf, matches, verdict_at, permits_position};
ghost use Rattle.am_search.specs.Judge.{is_yes, is_no};
ghost use Rattle.am_judged_lists.specs.CubeView.{restricted, with_mask, AscendByLabel};
ghost use Rattle.am_judged_lists.specs.Pairs.{seen};
ghost use Rattle.am_judged_lists.specs.BlockView.{is_within};

use crate::mask::Mask;
use crate::pairs::{Side, place_of};
use crate::rows::rows_of;
use am_labels::{Matchers, Row};
use am_search::Verdict;
use am_universe::limits::MAX_LABELS;
use am_universe::{Choice, Position, Universe};
use std::alloc::{AllocError, Global};
use std::marker::Model;

/// The permitted positions of one label.
#[derive(Drop)]
pub(crate) struct LabelMask {
    pub label: usize,
    pub mask: Mask,
}

impl LabelMask {
    ghost use Rattle.std.specs.Prelude.{◌||◌};
    ghost use Rattle.am_judged_lists.specs.Cube.{reaches, permits_at};

    /// Whether a prefix has no position that the mask forbids.
    fn fits(&self, prefix: &Choice) -> bool
        ensures { result ≡ (not (reaches prefix.now self.now) || permits_at prefix.now self.now) }
    {
        self.label >= prefix.len() || self.mask.permits(prefix.get(self.label))
    }

    /// Whether two masks are of the same label and permit the same positions.
    fn is_same(&self, other: &LabelMask) -> bool
        ensures { IsTrue result → self.now ≡ other.now }
    {
        self.label == other.label && self.mask.is_same(&other.mask)
    }
}

/// Which positions of each label a list of matchers permits.
///
/// The label set of a whole choice matches the list exactly if each of its positions is permitted.
#[derive(Drop)]
pub struct Cube {
    /// No choice is permitted.
    empty: bool,
    /// The labels with some permitted positions and some forbidden ones, ascending. Every other
    /// label permits all its positions, unless no choice is permitted.
    masks: Vec<LabelMask>,
    /// One more than the last label that has a mask, or 0 if no label has one.
    reach: usize,
}

impl Model for Cube {
    ghost use Rattle.am_judged_lists.specs.Cube.{MaskedLabels};
    ghost use Rattle.am_judged_lists.specs.CubeView.{IsKept};

    ghost Value = { MaskedLabels };

    ghost view = { λ a. record { empty = a.empty; masks = a.masks.items } };

    ghost invariant = { λ a. IsKept a.masks.items a.reach };
}

impl Cube {
    /// Makes the cube of a list of matchers, over a universe. Fails only if memory runs out.
    ///
    /// A matcher of a label that the universe does not declare has the same truth at every choice.
    /// If it is false, no choice is permitted; if it is true, it has no effect.
    pub fn of(alloc: Global, matchers: &Matchers, universe: &Universe) -> Result<Cube, AllocError>
        ensures exact { IfOk result (λ cube. IsCubeOf universe.now matchers.now cube) }
    {
        let rows = rows_of(alloc, universe, matchers)?;
        Cube::of_rows(alloc, universe, rows.as_slice(), &[])
    }

    /// Makes the cube of the matchers that have these rows: those of `rows`, and then those of
    /// `more`.
    ///
    /// They must be the rows of some list of matchers. There are two slices for the pairs of a
    /// rule: the rows of its target side, which are made once for the rule, and those of the values
    /// of one alert. Fails only if memory runs out.
    pub fn of_rows(
        alloc: Global,
        universe: &Universe,
        rows: &[Row],
        more: &[Row],
    ) -> Result<Cube, AllocError>
        requires rows { (ms : List Matcher)
            × (rows.now ++ more.now ≡ map (row_of universe.now) ms) }
        ensures exact { IfOk result (λ cube. (ms : List Matcher)
            → rows.now ++ more.now ≡ map (row_of universe.now) ms
            → IsCubeOf universe.now ms cube) }
    {
        // The contract of `len` tells the proof that each label has some value.
        prove!(universe.len() <= MAX_LABELS);
        let never = is_any_never_true(rows) || is_any_never_true(more);
        let mut cube = Cube::without_masks(alloc, never);
        for label in 0..universe.len() {
            // A label without a row permits all its positions.
            if is_any_of(rows, label) || is_any_of(more, label) {
                let size = universe.size(label);
                let mask = Mask::of_rows(alloc, rows, more, label, size)?;
                cube.restrict(label, mask, size)?;
            }
        }
        Ok(cube)
    }

    /// Makes the cube that permits all choices, or none.
    fn without_masks(alloc: Global, empty: bool) -> Cube
        ensures { result ≡ record { empty = empty; masks = [] } }
    {
        Cube {
            empty,
            masks: Vec::new(alloc),
            reach: 0,
        }
    }

    /// Permits only the positions of a mask. The label must come after those that have a mask. If
    /// it fails, nothing has changed.
    fn restrict(&mut self, label: usize, mask: Mask, size: usize) -> Result<(), AllocError>
        requires label { label < MAX_LABELS }
        requires last { AllByRecursion (λ m. m.label < label) self.old.masks }
        ensures restricted { OnOk result (self.new ≡ restricted self.old label mask size) }
        ensures err { OnErr result (self.new ≡ self.old) }
    {
        if mask.is_full(size) {
            return Ok(());
        }
        if mask.is_empty(size) {
            self.empty = true;
            return Ok(());
        }
        self.push(label, mask)
    }

    /// Adds the mask of a label. The label must come after those that have a mask. If it fails,
    /// nothing has changed.
    fn push(&mut self, label: usize, mask: Mask) -> Result<(), AllocError>
        requires label { label < 2 * MAX_LABELS }
        requires last { AllByRecursion (λ m. m.label < label) self.old.masks }
        ensures pushed { OnOk result (self.new ≡ with_mask self.old label mask) }
        ensures err { OnErr result (self.new ≡ self.old) }
    {
        self.masks.push(LabelMask { label, mask })?;
        self.reach = label + 1;
        Ok(())
    }

    /// Makes the cube that matches a pair of choices over this number of labels exactly if this
    /// cube matches one side of it. Fails only if memory runs out.
    ///
    /// The mask of a label becomes that of its place. If a label has a mask but no side has the
    /// label, the cube permits no choice.
    pub fn through(
        &self,
        alloc: Global,
        side: Side,
        shared: &[usize],
        labels: usize,
    ) -> Result<Cube, AllocError>
        requires { labels ≤ MAX_LABELS }
        ensures { IfOk result (λ cube. (e : List ℕ) → length e ≡ 2 * labels
            → matches cube e ≡ matches self.now (seen side shared.now labels e)) }
    {
        if self.empty || !self.is_within(labels) {
            return Ok(Cube::without_masks(alloc, true));
        }
        let mut cube = Cube::without_masks(alloc, false);
        for m in &self.masks {
            let mask = m.mask.try_clone(alloc)?;
            cube.push(place_of(side, shared, m.label), mask)?;
        }
        Ok(cube)
    }

    /// Whether two cubes are known to permit the same choices. `false` says nothing.
    pub fn is_same(&self, other: &Cube) -> bool
        ensures { IsTrue result → self.now ≡ other.now }
    {
        if self.empty != other.empty || self.masks.len() != other.masks.len() {
            return false;
        }
        for i in 0..self.masks.len() {
            if !self.masks[i].is_same(&other.masks[i]) {
                return false;
            }
        }
        true
    }

    /// Whether no choice is permitted.
    pub fn is_empty(&self) -> bool
        ensures { result ≡ self.now.empty }
    {
        self.empty
    }

    /// Whether all masks are of the first `len` labels.
    pub(crate) fn is_within(&self, len: usize) -> bool
        ensures { result ≡ is_within self.now len }
    {
        self.reach <= len
    }

    /// The masks, in ascending order of their labels.
    pub(crate) fn masks(&self) -> &[LabelMask]
        ensures masks { result.now ≡ self.now.masks }
        ensures ascend { AscendByLabel result.now }
    {
        self.masks.as_slice()
    }

    /// The mask of a label, if it has one. It permits the positions that the cube permits. Without
    /// a mask, the cube permits each position.
    pub(crate) fn mask_of(&self, label: usize) -> Option<&Mask>
        ensures some { IfSome result (λ mask. (position : ℕ)
            → permits_position self.now label position ≡ slice_index_or mask.now position false) }
        ensures none { IfNone result ((position : ℕ)
            → IsTrue (permits_position self.now label position)) }
    {
        for m in &self.masks {
            if m.label == label {
                return Some(&m.mask);
            }
        }
        None
    }

    /// The number of labels that have a mask.
    pub fn mask_count(&self) -> usize {
        self.masks.len()
    }

    /// Whether a label has no mask.
    pub fn is_free(&self, label: usize) -> bool
        ensures free { result ≡ list_all (λ m. not (m.label == label)) self.now.masks }
    {
        self.masks.iter().all(|m| m.label != label)
    }

    /// The verdict of the list at a prefix: whether the label sets of its completions match the
    /// list.
    ///
    /// `Yes`: all do; `No`: none does; `Open`: only some do. This holds at each prefix that the
    /// universe admits. Takes no memory, and looks at no label after the prefix.
    pub fn judge(&self, prefix: &Choice) -> Verdict
        ensures verdict { result ≡ verdict_at self.now prefix.now }
    {
        if !self.may(prefix) {
            Verdict::No
        } else if self.is_within(prefix.len()) {
            Verdict::Yes
        } else {
            Verdict::Open
        }
    }

    /// Whether the verdict at a prefix is not `No`: the list matches some completion.
    pub fn may(&self, prefix: &Choice) -> bool
        ensures verdict { result ≡ not (is_no (verdict_at self.now prefix.now)) }
    {
        if self.empty {
            return false;
        }
        for i in (0..self.masks.len()).rev() {
            if !self.masks[i].fits(prefix) {
                return false;
            }
        }
        true
    }

    /// Returns the choice that has the positions of another one where they are permitted, and the
    /// first permitted ones elsewhere. So the cube matches it, if it matches any choice.
    pub fn nearest(&self, choice: &Choice) -> Choice
        ensures long { length result ≡ length choice.now }
    {
        let mut nearest = Choice::empty();
        for label in 0..choice.len() {
            nearest.push(self.nearest_position(label, choice.get(label)));
        }
        nearest
    }

    /// Returns a position of a label, or the first permitted one if it is not permitted.
    fn nearest_position(&self, label: usize, position: Position) -> Position {
        match self.mask_of(label) {
            Some(mask) if !mask.permits(position) => mask.first().unwrap_or(position),
            _ => position,
        }
    }

    /// Whether the verdict at a prefix is `Yes`: the list matches every completion.
    pub fn must(&self, prefix: &Choice) -> bool
        ensures verdict { result ≡ is_yes (verdict_at self.now prefix.now) }
    {
        self.is_within(prefix.len()) && self.may(prefix)
    }
}

/// Whether one of the rows is of the label at a position.
fn is_any_of(rows: &[Row], label: usize) -> bool
    ensures { result ≡ is_any_of rows.now label }
{
    rows.iter().any(|row| row.label() == Some(label))
}

/// Whether one of the rows is true at no choice.
fn is_any_never_true(rows: &[Row]) -> bool
    ensures { result ≡ list_any is_never_true rows.now }
{
    rows.iter().any(is_never_true)
}

/// Whether a row is true at no choice: it is of a label that is not declared, and false.
fn is_never_true(row: &Row) -> bool
    ensures { result ≡ is_never_true row.now }
{
    match row.label() {
        Some(_) => false,
        None => !row.holds(0),
    }
}
