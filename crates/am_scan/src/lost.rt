//! The numbers of a table whose texts are lost: the pattern finds none of them, whatever comes
//! before them.

ghost use Rattle.std.specs.Prelude.{◌≡◌, ◌<◌, ℕ, IfOk, IsTrue, true, false, length};
ghost use Rattle.std.specs.Prelude.{slice_index, slice_index_or};
ghost use Rattle.am_scan.specs.Lost.{AreLost, AreUnfound, LeadsToMarked};

use crate::row::Row;
use std::alloc::{AllocError, Global};

/// How often all numbers are looked at. Most tables need two rounds.
const MAX_ROUNDS: usize = 8;

/// Returns for each number whether its texts are lost, or marks no number if it takes too long to
/// find out.
pub(crate) fn lost_numbers(
    alloc: Global,
    rows: &[Row],
    classes: &[u8],
) -> Result<Vec<bool>, AllocError>
    ensures { IfOk result (λ lost. AreLost rows.now classes.now lost.items) }
{
    let count = class_count(classes);
    let mut lost = unfound(alloc, rows)?;
    for _ in 0..MAX_ROUNDS {
        if !take_off(rows, classes, count, lost.as_mut_slice()) {
            return Ok(lost);
        }
    }
    Ok(Vec::new(alloc))
}

/// Returns a number that is greater than each class.
fn class_count(classes: &[u8]) -> usize
    ensures { (b : ℕ) → slice_index classes.now b < result }
{
    let mut count = 1;
    for class in classes {
        count = count.max(usize::from(*class) + 1);
    }
    count
}

/// Marks the numbers whose texts are not found.
fn unfound(alloc: Global, rows: &[Row]) -> Result<Vec<bool>, AllocError>
    ensures { IfOk result (λ marks. AreUnfound rows.now marks.items) }
{
    let mut marks = Vec::with_capacity(alloc, rows.len())?;
    for row in rows {
        marks.push(!row.found)?;
    }
    Ok(marks)
}

/// Looks once at each number, the last one first, and takes the mark off it if a byte leads to a
/// number without one. Returns whether something has changed. `count` is greater than each class.
fn take_off(rows: &[Row], classes: &[u8], count: usize, marks: &mut [bool]) -> bool
    requires count { (b : ℕ) → slice_index classes.now b < count }
    requires unfound { AreUnfound rows.now marks.old }
    ensures unfound { AreUnfound rows.now marks.new }
    ensures lost { result ≡ false → AreLost rows.now classes.now marks.new }
{
    let mut changed = false;
    for i in (0..marks.len()).rev() {
        if marks[i] && !leads_to_marked(rows, classes, count, marks, i) {
            marks[i] = false;
            changed = true;
        }
    }
    changed
}

/// Whether each byte leads from a number to one with a mark. Only `true` promises something.
fn leads_to_marked(
    rows: &[Row],
    classes: &[u8],
    count: usize,
    marks: &[bool],
    number: usize,
) -> bool
    requires { (b : ℕ) → slice_index classes.now b < count }
    ensures { IsTrue result → LeadsToMarked rows.now classes.now marks.now number }
{
    match rows.get(number) {
        Some(row) => row.next.len() >= count && are_marked(marks, row.next.as_slice()),
        None => false,
    }
}

/// Whether each of some numbers is marked.
fn are_marked(marks: &[bool], numbers: &[u32]) -> bool
    ensures { IsTrue result → (k : ℕ) → k < length numbers.now
        → slice_index_or marks.now (slice_index numbers.now k) false ≡ true }
{
    for number in numbers {
        if !is_marked(marks, *number) {
            return false;
        }
    }
    true
}

/// Whether a number is marked.
pub(crate) fn is_marked(marks: &[bool], number: u32) -> bool
    ensures { result ≡ slice_index_or marks.now number false }
{
    match marks.get(number as usize) {
        Some(mark) => *mark,
        None => false,
    }
}
