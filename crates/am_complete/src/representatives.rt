//! Which text stands for each class of a label's texts.

ghost use Rattle.std.specs.Prelude.{◌≡◌, List, [], IfOk, map, Bool, Contains, option_map};
ghost use Rattle.std.specs.Prelude.{string_bytes};
ghost use Rattle.std.specs.List.{find, AllByRecursion};
ghost use Rattle.std.specs.Option.{option_map_or};
ghost use Rattle.am_labels.specs.Matcher.{Matcher};
ghost use Rattle.am_classes.specs.declared.alphabet.Alphabet.{Alphabet};
ghost use Rattle.am_classes.specs.LabelTests.{IsTestsOf};
ghost use Rattle.am_complete.specs.Covering.{AreClasses};
ghost use Rattle.am_classes.specs.Truths.{has_same_hits};
ghost use Rattle.am_complete.specs.Chosen.{AreChosenEach, IsChosen};
ghost use Rattle.am_complete.specs.Representatives.{IsUsual, GainsOnly};

use crate::AskedLabel;
use crate::usual_texts::usual_texts;
use am_classes::{Alphabet, LabelTests, Tested};
use am_labels::Matcher;
use am_list_files::Alerts;
use am_universe::limits::MAX_VALUES;
use std::alloc::{AllocError, Global};
use std::collections::HashSet;

/// Returns texts that stand for the classes of a label's texts, as these texts do. They are chosen
/// and put in order for a reader: absence comes first, and texts with a line feed come last.
pub(crate) fn representatives(
    alloc: Global,
    alphabet: Alphabet,
    label: &AskedLabel<'_>,
    alerts: Option<&Alerts>,
    tests: &LabelTests<'_>,
    texts: Vec<String>,
) -> Result<Vec<String>, AllocError>
    ensures classes { IfOk result (λ chosen. (all : Bool) → IsTestsOf label.now.matchers tests.now
        → AreClasses alphabet label.now.matchers (map string_bytes texts.items) all
        → AreClasses alphabet label.now.matchers (map string_bytes chosen.items) all) }
    ensures from { IfOk result (λ chosen. GainsOnly
        (IsUsual (option_map_or (λ a. a.now) alerts.entry []) label.now.name)
        (map string_bytes texts.items) (map string_bytes chosen.items)) }
{
    let mut chosen = usual_where_alike(alloc, alphabet, label, alerts, tests, texts)?;
    put_in_order(&mut chosen)?;
    Ok(chosen)
}

/// Replaces texts that no matcher names, unless they are absence, by usual texts that are alike to
/// them: the text that most of the alerts have, or else `other`. If there are more texts than a
/// label may have values, they stay.
fn usual_where_alike(
    alloc: Global,
    alphabet: Alphabet,
    label: &AskedLabel<'_>,
    alerts: Option<&Alerts>,
    tests: &LabelTests<'_>,
    texts: Vec<String>,
) -> Result<Vec<String>, AllocError>
    ensures classes { IfOk result (λ chosen. (all : Bool) → IsTestsOf label.now.matchers tests.now
        → AreClasses alphabet label.now.matchers (map string_bytes texts.items) all
        → AreClasses alphabet label.now.matchers (map string_bytes chosen.items) all) }
    ensures from { IfOk result (λ chosen. GainsOnly
        (IsUsual (option_map_or (λ a. a.now) alerts.entry []) label.now.name)
        (map string_bytes texts.items) (map string_bytes chosen.items)) }
{
    if texts.len() > MAX_VALUES {
        return Ok(texts);
    }
    let usual = usual_texts(alloc, alphabet, alerts, label.name())?;
    let usual = tests.tested(alloc, usual)?;
    let wanted = tests.tested(alloc, texts)?;
    chosen_texts(alloc, label.matchers(), usual.as_slice(), wanted.as_slice())
}

/// Returns a text for each of the wanted texts, alike to it.
fn chosen_texts(
    alloc: Global,
    matchers: &[&Matcher],
    usual: &[Tested],
    wanted: &[Tested],
) -> Result<Vec<String>, AllocError>
    ensures { IfOk result (λ chosen.
        AreChosenEach usual.now wanted.now (map string_bytes chosen.items)) }
{
    let named = named_texts(alloc, matchers)?;
    let mut chosen = Vec::with_capacity(alloc, wanted.len())?;
    for text in wanted {
        let like = chosen_text(&named, usual, text);
        chosen.push(String::from_str(alloc, like)?)?;
    }
    Ok(chosen)
}

/// Returns the texts that matchers name: those that they ask for, alone or as the only exception.
fn named_texts<'m>(
    alloc: Global,
    matchers: &[&'m Matcher],
) -> Result<HashSet<&'m str>, AllocError> {
    let mut named = HashSet::new(alloc);
    for matcher in matchers {
        if !matcher.op().takes_pattern() {
            named.insert(matcher.value())?;
        }
    }
    Ok(named)
}

/// Returns a text that is alike to a wanted one: that text itself if it is absence or a matcher
/// names it, or else the first of the usual texts, if one is.
fn chosen_text<'t>(named: &HashSet<&str>, usual: &'t [Tested], wanted: &'t Tested) -> &'t str
    ensures { IsChosen usual.now wanted.now result.now }
{
    let text = wanted.text.as_str();
    if text.is_empty() || named.contains(text) {
        return text;
    }
    match first_alike(usual, wanted) {
        Some(other) => other.text.as_str(),
        None => text,
    }
}

/// Returns the first text that has the same hits as a wanted one, if there is one.
fn first_alike<'t>(usual: &'t [Tested], wanted: &Tested) -> Option<&'t Tested>
    ensures { option_map (λ t. t.now) result ≡ find (has_same_hits wanted.now) usual.now }
{
    usual.iter().find(|other| other.hits == wanted.hits)
}

/// Puts the texts of a label in order: absence first, and texts with a line feed last.
pub(crate) fn put_in_order(texts: &mut Vec<String>) -> Result<(), AllocError>
    ensures classes { (a : Alphabet) (ms : List Matcher) (all : Bool)
        → AreClasses a ms (map string_bytes texts.old.items) all
        → AreClasses a ms (map string_bytes texts.new.items) all }
    ensures from { AllByRecursion (Contains (map string_bytes texts.old.items))
        (map string_bytes texts.new.items) }
{
    texts.sort_by_key(|text| rank_of(text.as_str()))
}

/// Returns the rank of a text among those of its label. Texts of a lower rank come first.
fn rank_of(text: &str) -> u8 {
    if text.is_empty() {
        0
    } else if text.contains('\n') {
        2
    } else {
        1
    }
}
