//! A few cubes, with sets that show at once which of the cubes pass.

ghost use Rattle.std.specs.Prelude.{◌≡◌, ◌&&◌, ◌||◌, ◌==◌, not, ℕ, ◌<◌, ◌≤◌, ◌+◌, List, length};
ghost use Rattle.std.specs.Prelude.{slice_get, slice_index_or, Some, IfOk, IfSome, IsTrue, false};
ghost use Rattle.std.specs.List.{list_all};
ghost use Rattle.am_judged_lists.specs.ListSetView.{has};
ghost use Rattle.am_judged_lists.specs.declared.list_set.ListSet.{ListSet};
ghost use Rattle.am_judged_lists.specs.declared.block.LabelRows.{LabelRows};
ghost use Rattle.am_judged_lists.specs.declared.certainty.Certainty.TheVariants.{Must};
ghost use Rattle.am_judged_lists.specs.Certainty.{passes};
ghost use Rattle.am_judged_lists.specs.Cube.{MaskedLabels, verdict_at};
ghost use Rattle.am_judged_lists.specs.BlockView.{can_pass, fits_label, fits_masks, fit_rows};
ghost use Rattle.am_judged_lists.specs.BlockView.{row_at, IsSetOf, IsInRows, IsBlockOf};

use crate::certainty::Certainty;
use crate::cube::Cube;
use crate::list_set::{ListSet, ROOM};
use crate::mask::Mask;
use am_universe::limits::MAX_LABELS;
use am_universe::{Choice, Universe};
use std::alloc::{AllocError, Global};

/// For each position of a label, which cubes permit it.
#[derive(Drop)]
struct LabelRows {
    label: usize,
    rows: Vec<ListSet>,
}

impl LabelRows {
    /// Makes the rows of a label of this size. Fails only if memory runs out.
    ///
    /// A cube without a mask of the label stays in each row, so only the masks are looked at.
    fn of(alloc: Global, cubes: &[Cube], label: usize, size: usize) -> Result<LabelRows, AllocError>
        requires { length cubes.now ≤ ROOM }
        ensures label { IfOk result (λ rows. rows.label ≡ label) }
        ensures rows { IfOk result (λ rows. (k : ℕ) (cube : MaskedLabels)
            → slice_get cubes.now k ≡ Some cube → IsInRows k cube rows) }
    {
        let mut rows = vec![in alloc; ListSet::all(); size]?;
        for k in 0..cubes.len() {
            if let Some(mask) = cubes[k].mask_of(label) {
                take_out(&mut rows, k, mask);
            }
        }
        Ok(LabelRows { label, rows })
    }

    /// Returns the cubes of `left` that permit the prefix's position of the label: all of them if
    /// the prefix has no such position, and `None` if there is no row for it.
    fn narrow(&self, left: ListSet, prefix: &Choice) -> Option<ListSet>
        ensures permitting { IfSome result (λ set. (k : ℕ) (cube : MaskedLabels)
            → IsInRows k cube self.now
            → has set k ≡ (has left k && fits_label prefix.now self.now.label cube)) }
        ensures fewer { IfSome result (λ set. (k : ℕ) → has left k ≡ false → has set k ≡ false) }
    {
        if self.label >= prefix.len() {
            return Some(left);
        }
        let row = self.rows.get(usize::from(prefix.get(self.label)))?;
        Some(left.and(*row))
    }
}

/// Sets of cubes, for at most as many cubes as a set has room for.
#[derive(Drop)]
pub(crate) struct Block {
    /// The cubes that permit some choice.
    all: ListSet,
    /// Those of them whose masks are all of the first labels, by the number of these labels.
    within: Vec<ListSet>,
    /// The rows of each label for which some cube has a mask.
    labels: Vec<LabelRows>,
}

impl Block {
    /// Makes the block of some cubes. Fails only if memory runs out.
    pub(crate) fn of(
        alloc: Global,
        universe: &Universe,
        cubes: &[Cube],
    ) -> Result<Block, AllocError>
        requires { length cubes.now ≤ ROOM }
        ensures { IfOk result (IsBlockOf cubes.now) }
    {
        let within = sets_within(alloc, cubes, universe.len())?;
        let labels = rows_of_labels(alloc, universe, cubes)?;
        Ok(Block {
            all: cubes_that_can_pass(cubes, Certainty::May, 0),
            within,
            labels,
        })
    }

    /// Which of its cubes pass at a prefix.
    pub(crate) fn passing(&self, cubes: &[Cube], certainty: Certainty, prefix: &Choice) -> ListSet
        requires { IsBlockOf cubes.now self.now }
        ensures { IsSetOf (λ cube. passes certainty (verdict_at cube prefix.now)) cubes.now result }
    {
        let Some(mut left) = self.start(certainty, prefix.len()) else {
            return asked_one_by_one(cubes, certainty, prefix);
        };
        for rows in &self.labels {
            if left.is_empty() {
                return left;
            }
            let Some(next) = rows.narrow(left, prefix) else {
                return asked_one_by_one(cubes, certainty, prefix);
            };
            left = next;
        }
        left
    }

    /// The cubes that can pass at some prefix of this length; `None` if no choice is that long.
    fn start(&self, certainty: Certainty, len: usize) -> Option<ListSet>
        ensures within { IfSome result (λ set. len < length self.now.within.items) }
        ensures start { IfSome result (λ set. (cubes : List MaskedLabels)
            → IsBlockOf cubes self.now → IsSetOf (can_pass certainty len) cubes set) }
    {
        let within = self.within.get(len)?;
        match certainty {
            Certainty::May => Some(self.all),
            Certainty::Must => Some(*within),
        }
    }
}

/// Asks each cube whether it passes at a prefix. A block does this only at a prefix that its
/// universe does not admit.
fn asked_one_by_one(cubes: &[Cube], certainty: Certainty, prefix: &Choice) -> ListSet
    requires { length cubes.now ≤ ROOM }
    ensures { IsSetOf (λ cube. passes certainty (verdict_at cube prefix.now)) cubes.now result }
{
    let mut set = ListSet::none();
    for k in 0..cubes.len() {
        set.insert_if(k, certainty.holds(&cubes[k], prefix));
    }
    set
}

/// The cubes that can pass at some prefix of this length.
fn cubes_that_can_pass(cubes: &[Cube], certainty: Certainty, len: usize) -> ListSet
    requires { length cubes.now ≤ ROOM }
    ensures { IsSetOf (can_pass certainty len) cubes.now result }
{
    let mut set = ListSet::none();
    for k in 0..cubes.len() {
        set.insert_if(k, can_pass(&cubes[k], certainty, len));
    }
    set
}

/// Whether a cube passes at some prefix of this length, as far as the positions are not looked at.
fn can_pass(cube: &Cube, certainty: Certainty, len: usize) -> bool
    ensures { result ≡ can_pass certainty len cube.now }
{
    match certainty {
        Certainty::May => !cube.is_empty(),
        Certainty::Must => !cube.is_empty() && cube.is_within(len),
    }
}

/// For each number of first labels, up to `labels`, the cubes that have masks of these labels only.
/// Fails only if memory runs out.
fn sets_within(alloc: Global, cubes: &[Cube], labels: usize) -> Result<Vec<ListSet>, AllocError>
    requires few { length cubes.now ≤ ROOM }
    requires labels { labels ≤ MAX_LABELS }
    ensures count { IfOk result (λ sets. length sets.items ≡ labels + 1) }
    ensures sets { IfOk result (λ sets. (len : ℕ) (set : ListSet)
        → slice_get sets.items len ≡ Some set → IsSetOf (can_pass Must len) cubes.now set) }
{
    let mut sets = Vec::with_capacity(alloc, labels + 1)?;
    for len in 0..labels + 1 {
        sets.push(cubes_that_can_pass(cubes, Certainty::Must, len))?;
    }
    Ok(sets)
}

/// The rows of each label for which some cube has a mask. Fails only if memory runs out.
fn rows_of_labels(
    alloc: Global,
    universe: &Universe,
    cubes: &[Cube],
) -> Result<Vec<LabelRows>, AllocError>
    requires { length cubes.now ≤ ROOM }
    ensures rows { IfOk result (λ labels. (k : ℕ) (cube : MaskedLabels) (i : ℕ) (rows : LabelRows)
        → slice_get cubes.now k ≡ Some cube → slice_get labels.items i ≡ Some rows
        → IsInRows k cube rows) }
    ensures covered { IfOk result (λ labels. (k : ℕ) (cube : MaskedLabels) (prefix : List ℕ)
        → slice_get cubes.now k ≡ Some cube → length prefix ≤ length universe.now
        → fit_rows prefix labels.items cube ≡ fits_masks prefix cube) }
{
    let mut labels = Vec::new(alloc);
    for label in 0..universe.len() {
        if !are_free(cubes, label) {
            labels.push(LabelRows::of(alloc, cubes, label, universe.size(label))?)?;
        }
    }
    Ok(labels)
}

/// Whether no cube has a mask of a label.
fn are_free(cubes: &[Cube], label: usize) -> bool
    ensures { result
        ≡ list_all (λ cube. list_all (λ m. not (m.label == label)) cube.masks) cubes.now }
{
    cubes.iter().all(|cube| cube.is_free(label))
}

/// Removes the cube at the index `place` from the rows of the positions that its mask does not
/// permit.
fn take_out(rows: &mut Vec<ListSet>, place: usize, mask: &Mask)
    requires { place < ROOM }
    ensures count { length rows.new.items ≡ length rows.old.items }
    ensures taken { (position k : ℕ) → k < ROOM → position < length rows.old.items
        → has (row_at rows.new.items position) k ≡ (has (row_at rows.old.items position) k
        && (not (k == place) || slice_index_or mask.now position false)) }
{
    for position in 0..rows.len() {
        rows[position].keep_if(place, mask.contains(position));
    }
}
