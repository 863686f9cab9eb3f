//! The label set that is shown for some alerts of a rule.

ghost use Rattle.std.specs.Prelude.{◌≡◌, IfOk};
ghost use Rattle.am_universe.specs.Universe.{sizes};
ghost use Rattle.am_universe.specs.Choice.{IsWhole};
ghost use Rattle.am_universe.specs.LabelSet.{label_pairs};
ghost use Rattle.am_alerting_rules.specs.RuleView.{pairs_view};
ghost use Rattle.am_rule_outcomes.specs.ShownLabels.{fixed_shown, shown_labels, has_name};

use am_report_texts::{Shown, label_set};
use am_universe::{Choice, Universe};
use std::alloc::{AllocError, Global};

/// Returns the labels that an alert of a rule has for certain, each with its text, and then the
/// other labels of a choice. Fails only if memory runs out.
pub(crate) fn shown_labels<'a>(
    alloc: Global,
    fixed: &[(&'a str, &'a str)],
    universe: &'a Universe,
    choice: &Choice,
) -> Result<Vec<(&'a str, &'a str)>, AllocError>
    requires { IsWhole (sizes universe.now) choice.now }
    ensures { IfOk result (λ labels. pairs_view labels.items
        ≡ shown_labels (pairs_view fixed.now) universe.now choice.now) }
{
    let mut labels = fixed_shown(alloc, fixed)?;
    let picked = picked_labels(alloc, universe, choice)?;
    for label in &picked {
        if !has_name(fixed, label.0) {
            labels.push(*label)?;
        }
    }
    Ok(labels)
}

/// Returns the labels for which a choice picks a text. Fails only if memory runs out.
fn picked_labels<'a>(
    alloc: Global,
    universe: &'a Universe,
    choice: &Choice,
) -> Result<Vec<(&'a str, &'a str)>, AllocError>
    requires { IsWhole (sizes universe.now) choice.now }
    ensures { IfOk result (λ labels.
        pairs_view labels.items ≡ label_pairs universe.now choice.now) }
{
    match label_set(alloc, universe, choice)? {
        Shown::Labels(labels) => Ok(labels),
        _ => unreachable!(),
    }
}

/// Returns the labels that an alert of a rule has for certain. The empty text means that the alert
/// lacks the label. Fails only if memory runs out.
pub(crate) fn fixed_shown<'a>(
    alloc: Global,
    fixed: &[(&'a str, &'a str)],
) -> Result<Vec<(&'a str, &'a str)>, AllocError>
    ensures { IfOk result (λ labels. pairs_view labels.items ≡ fixed_shown (pairs_view fixed.now)) }
{
    let mut labels = Vec::with_capacity(alloc, fixed.len())?;
    for label in fixed {
        if !label.1.is_empty() {
            labels.push(*label)?;
        }
    }
    Ok(labels)
}

/// Whether one of some labels has a name.
fn has_name(labels: &[(&str, &str)], name: &str) -> bool
    ensures { result ≡ has_name (pairs_view labels.now) name.now }
{
    labels.iter().any(|label| label.0 == name)
}
