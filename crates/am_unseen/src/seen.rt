//! The names and the values that label sets have: those of firing alerts, and those that alerting
//! rules fix.

ghost use Rattle.std.specs.Prelude.{◌≡◌, ◌++◌, ◌∷◌, [], fold, IfOk, OnOk};
ghost use Rattle.std.specs.List.{flat_map};
ghost use Rattle.std.specs.FinMap.{keys};
ghost use Rattle.am_report_texts.specs.EachOnce.{with_text};
ghost use Rattle.am_unseen.specs.Unseen.{all_values, seen_values};
ghost use Rattle.am_unseen.specs.UnseenNames.{seen_names};
ghost use Rattle.am_unseen.specs.Search.{texts_of};

use am_list_files::Alerts;
use am_universe::LabelSet;
use indexmap::IndexSet;
use std::alloc::{AllocError, Global};

/// Returns the values that alerts and rules have for a label, each once, in the order in which they
/// come first.
pub(crate) fn values_of<'w>(
    alloc: Global,
    alerts: &'w Alerts,
    rules: &'w [LabelSet],
    name: &str,
) -> Result<IndexSet<&'w str>, AllocError>
    ensures { IfOk result (λ values.
        texts_of values ≡ seen_values (alerts.now ++ rules.now) name.now) }
{
    let mut values = IndexSet::new(alloc);
    add_values(&mut values, alerts, name)?;
    for set in rules {
        add_value(&mut values, set, name)?;
    }
    Ok(values)
}

/// Adds the values that alerts have for a label to those that are there.
fn add_values<'w>(
    values: &mut IndexSet<&'w str>,
    alerts: &'w Alerts,
    name: &str,
) -> Result<(), AllocError>
    ensures { OnOk result (texts_of values.new
        ≡ fold with_text (texts_of values.old) (all_values alerts.now name.now)) }
{
    for i in 0..alerts.len() {
        add_value(values, alerts.get(i), name)?;
    }
    Ok(())
}

/// Adds the value that a label set has for a label, if it has the label, to those that are there.
fn add_value<'w>(
    values: &mut IndexSet<&'w str>,
    set: &'w LabelSet,
    name: &str,
) -> Result<(), AllocError>
    ensures { OnOk result (texts_of values.new
        ≡ fold with_text (texts_of values.old) (all_values (set.now ∷ []) name.now)) }
{
    let value = set.get(name);
    if !value.is_empty() {
        values.insert(value)?;
    }
    Ok(())
}

/// Returns the names of the labels that alerts and rules have, each once, in the order in which
/// they come first.
pub(crate) fn names_of<'w>(
    alloc: Global,
    alerts: &'w Alerts,
    rules: &'w [LabelSet],
) -> Result<IndexSet<&'w str>, AllocError>
    ensures { IfOk result (λ names. texts_of names ≡ seen_names (alerts.now ++ rules.now)) }
{
    let mut names = IndexSet::new(alloc);
    add_all_names(&mut names, alerts)?;
    for set in rules {
        add_names(&mut names, set)?;
    }
    Ok(names)
}

/// Adds the names of the labels that alerts have to those that are there.
fn add_all_names<'w>(names: &mut IndexSet<&'w str>, alerts: &'w Alerts) -> Result<(), AllocError>
    ensures { OnOk result (texts_of names.new
        ≡ fold with_text (texts_of names.old) (flat_map keys alerts.now)) }
{
    for i in 0..alerts.len() {
        add_names(names, alerts.get(i))?;
    }
    Ok(())
}

/// Adds the names of the labels of a label set to those that are there.
fn add_names<'w>(names: &mut IndexSet<&'w str>, set: &'w LabelSet) -> Result<(), AllocError>
    ensures { OnOk result (texts_of names.new
        ≡ fold with_text (texts_of names.old) (keys set.now)) }
{
    for (name, _) in set.values() {
        names.insert(name.as_str())?;
    }
    Ok(())
}
