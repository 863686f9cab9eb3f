//! Which texts a label may have, by the impossible lists that ask about this label alone.

ghost use Rattle.std.specs.Prelude.{◌≡◌, IfOk, OnOk, map, string_bytes};
ghost use Rattle.std.specs.FinMap.{empty};
ghost use Rattle.std.specs.List.{filter, list_any};
ghost use Rattle.am_universe.specs.LabelSet.{with_value};
ghost use Rattle.am_labels.specs.Matcher.{all_hold};
ghost use Rattle.am_complete.specs.Complete.{asks_only_of, may_have};

use am_labels::{Matchers, PreparedMatchers};
use am_universe::LabelSet;
use std::alloc::{AllocError, Global};

/// Returns those of some texts that the label of this name may have, in their order.
pub(crate) fn possible_texts(
    alloc: Global,
    impossible: &[Matchers],
    name: &str,
    texts: Vec<String>,
) -> Result<Vec<String>, AllocError>
    ensures { IfOk result (λ kept. map string_bytes kept.items
        ≡ filter (may_have impossible.now name.now) (map string_bytes texts.items)) }
{
    let mut lists = lists_about(alloc, impossible, name)?;
    let mut kept = Vec::new(alloc);
    for text in texts {
        let set = one_label(alloc, name, text.as_str())?;
        if !matches_one(alloc, &mut lists, &set)? {
            kept.push(text)?;
        }
    }
    Ok(kept)
}

/// Prepares those of some lists that ask about the label of this name alone.
fn lists_about<'m>(
    alloc: Global,
    impossible: &'m [Matchers],
    name: &str,
) -> Result<Vec<PreparedMatchers<'m>>, AllocError>
    ensures { IfOk result (λ lists. lists.items
        ≡ filter (asks_only_of name.now) impossible.now) }
{
    let mut lists = Vec::new(alloc);
    for list in impossible {
        if asks_only_of(list, name) {
            lists.push(list.prepare(alloc))?;
        }
    }
    Ok(lists)
}

/// Returns the label set that has this text under this name, and no other label. The empty text is
/// absence.
fn one_label(alloc: Global, name: &str, text: &str) -> Result<LabelSet, AllocError>
    ensures { IfOk result (λ set. set ≡ with_value empty name.now text.now) }
{
    let mut set = LabelSet::empty(alloc);
    set.put(
        String::from_str(alloc, name)?,
        String::from_str(alloc, text)?,
    )?;
    Ok(set)
}

/// Whether one of some lists matches a label set.
fn matches_one(
    alloc: Global,
    lists: &mut Vec<PreparedMatchers<'_>>,
    set: &LabelSet,
) -> Result<bool, AllocError>
    ensures matched { IfOk result (λ matched.
        matched ≡ list_any (all_hold set.now) lists.old.items) }
    ensures same { OnOk result (lists.new.items ≡ lists.old.items) }
{
    for i in 0..lists.len() {
        if lists[i].matches(alloc, set)? {
            return Ok(true);
        }
    }
    Ok(false)
}

/// Whether each matcher of a list is on the label of this name.
fn asks_only_of(list: &Matchers, name: &str) -> bool
    ensures { result ≡ asks_only_of name.now list.now }
{
    for i in 0..list.len() {
        if list.get(i).name() != name {
            return false;
        }
    }
    true
}
