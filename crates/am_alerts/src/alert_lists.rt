//! A list for each alert.

ghost use Rattle.std.specs.Prelude.{◌≡◌, ℕ, ◌++◌, ◌∷◌, [], length, IfOk, OnOk, if◌then◌else◌};
ghost use Rattle.std.specs.Prelude.{replicate, map};
ghost use Rattle.std.specs.Prelude.{◌&&◌, not};
ghost use Rattle.am_alerts.specs.AlertLabels.{flag};
ghost use Rattle.am_alerts.specs.AlertLists.{list_at};

use std::alloc::{AllocError, Global};

/// Returns an empty list for each of so many alerts. Fails only if memory runs out.
pub(crate) fn empty_lists<T: Drop>(alloc: Global, count: usize) -> Result<Vec<Vec<T>>, AllocError>
    ensures { IfOk result (λ lists. map (λ v. v.items) lists.items ≡ replicate count []) }
{
    let mut lists = Vec::with_capacity(alloc, count)?;
    for _ in 0..count {
        lists.push(Vec::new(alloc))?;
    }
    Ok(lists)
}

/// Adds an item to the list of each of some alerts.
pub(crate) fn push_where<T: Copy + Drop>(
    among: &[bool],
    item: T,
    lists: &mut [Vec<T>],
) -> Result<(), AllocError>
    requires { length among.now ≡ length lists.old }
    ensures pushed { OnOk result ((i : ℕ) → list_at lists.new i
        ≡ (if flag among.now i then list_at lists.old i ++ item ∷ [] else list_at lists.old i)) }
{
    for (i, list) in lists.iter_mut().enumerate() {
        if among[i] {
            list.push(item)?;
        }
    }
    Ok(())
}

/// Returns those of some alerts that are not among others. Fails only if memory runs out.
pub(crate) fn without(
    alloc: Global,
    among: &[bool],
    others: &[bool],
) -> Result<Vec<bool>, AllocError>
    requires { length among.now ≡ length others.now }
    ensures count { IfOk result (λ rest. length rest.items ≡ length among.now) }
    ensures rest { IfOk result (λ rest.
        (i : ℕ) → flag rest.items i ≡ (flag among.now i && not (flag others.now i))) }
{
    let mut rest = Vec::with_capacity(alloc, among.len())?;
    for (i, flag) in among.iter().enumerate() {
        rest.push(*flag && !others[i])?;
    }
    Ok(rest)
}
