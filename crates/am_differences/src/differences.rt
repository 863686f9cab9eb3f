//! Which parts differ between an old and a new file.

ghost use Rattle.std.specs.Prelude.{◌≡◌, ◌++◌, map, fold, IfOk, OnOk};
ghost use Rattle.serde_json.specs.View.{view};
ghost use Rattle.am_report_texts.specs.EachOnce.{each_once, with_text};
ghost use Rattle.am_differences.specs.Differences.{differences, differ, has_name, has_value};
ghost use Rattle.am_differences.specs.Differences.{has_values, presence_of, values_of};
ghost use Rattle.am_differences.specs.PartsView.{difference_view, parts_view};

use crate::parts::Part;
use crate::same_value;
use am_report_texts::push_new;
use serde_json::Value;
use std::alloc::{AllocError, Global};

/// In which of two files a name stands.
#[derive(Clone, Copy, PartialEq, Eq, Drop)]
pub(crate) enum Presence {
    OnlyInOld,
    OnlyInNew,
    InBoth,
}

/// A name of which the parts differ.
#[derive(Clone, Copy, Drop)]
pub(crate) struct Difference<'a> {
    pub name: &'a str,
    pub presence: Presence,
}

/// Returns the names of which the parts differ, each once. Fails only if memory runs out.
pub(crate) fn differences<'a>(
    alloc: Global,
    old: &[Part<'a>],
    new: &[Part<'a>],
) -> Result<Vec<Difference<'a>>, AllocError>
    ensures { IfOk result (λ found. map difference_view found.items
        ≡ differences (parts_view old.now) (parts_view new.now)) }
{
    let names = names_of(alloc, old, new)?;
    let mut found = Vec::new(alloc);
    for name in names.as_slice() {
        if differ(old, new, name) {
            found.push(Difference {
                name: *name,
                presence: presence_of(old, new, name),
            })?;
        }
    }
    Ok(found)
}

/// The names of parts, each once: those of the old file, and then those of the new file alone.
fn names_of<'a>(
    alloc: Global,
    old: &[Part<'a>],
    new: &[Part<'a>],
) -> Result<Vec<&'a str>, AllocError>
    ensures { IfOk result (λ names. map (λ n. n.now) names.items
        ≡ each_once (map (λ p. p.0) (parts_view old.now ++ parts_view new.now))) }
{
    let mut names = Vec::new(alloc);
    push_names(old, &mut names)?;
    push_names(new, &mut names)?;
    Ok(names)
}

fn push_names<'a>(parts: &[Part<'a>], names: &mut Vec<&'a str>) -> Result<(), AllocError>
    ensures { OnOk result (map (λ n. n.now) names.new.items
        ≡ fold with_text (map (λ n. n.now) names.old.items)
        (map (λ p. p.0) (parts_view parts.now))) }
{
    for part in parts {
        push_new(part.name, names)?;
    }
    Ok(())
}

/// Whether the parts of a name differ.
fn differ(old: &[Part<'_>], new: &[Part<'_>], name: &str) -> bool
    ensures { result ≡ differ (parts_view old.now) (parts_view new.now) name.now }
{
    !(has_values(new, old, name) && has_values(old, new, name))
}

/// Whether each part of a name has the same value as some other part of this name.
fn has_values(others: &[Part<'_>], parts: &[Part<'_>], name: &str) -> bool
    ensures { result ≡ has_values (values_of name.now (parts_view others.now))
        (values_of name.now (parts_view parts.now)) }
{
    parts.iter().all(|part| part.name != name || has_value(others, name, part.value))
}

/// Whether some part of a name has this value.
fn has_value(parts: &[Part<'_>], name: &str, value: &Value) -> bool
    ensures { result
        ≡ has_value (values_of name.now (parts_view parts.now)) (view value.now) }
{
    parts
        .iter()
        .any(|part| part.name == name && same_value(value, part.value))
}

fn presence_of(old: &[Part<'_>], new: &[Part<'_>], name: &str) -> Presence
    ensures { result ≡ presence_of (parts_view old.now) (parts_view new.now) name.now }
{
    if !has_name(new, name) {
        Presence::OnlyInOld
    } else if !has_name(old, name) {
        Presence::OnlyInNew
    } else {
        Presence::InBoth
    }
}

fn has_name(parts: &[Part<'_>], name: &str) -> bool
    ensures { result ≡ has_name (parts_view parts.now) name.now }
{
    parts.iter().any(|part| part.name == name)
}
