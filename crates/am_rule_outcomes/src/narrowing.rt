//! Which values of a universe the alerts of a rule may have.

ghost use Rattle.std.specs.Prelude.{◌≡◌, List, [], map, option_map, IfOk, OnOk};
ghost use Rattle.std.specs.List.{list_all};
ghost use Rattle.am_universe.specs.Universe.{Label};
ghost use Rattle.am_labels.specs.Matcher.{Matcher};
ghost use Rattle.am_classes.specs.Truths.{alike};
ghost use Rattle.am_complete.specs.AskedLabel.{AskedLabel};
ghost use Rattle.am_complete.specs.LabelState.{is_declared};
ghost use Rattle.am_alerting_rules.specs.RuleView.{pairs_view};
ghost use Rattle.am_rule_outcomes.specs.Narrowing.{absence_stands, are_over, fixed_text};
ghost use Rattle.am_rule_outcomes.specs.Narrowing.{matchers_on, narrowing, narrowing_at};
ghost use Rattle.am_rule_outcomes.specs.Narrowing.{rule_narrowing};
ghost use Rattle.am_rule_outcomes.specs.NarrowingView.{AreLabelTexts, IsLabelTexts};
ghost use Rattle.am_rule_outcomes.specs.NarrowingView.{narrowing_view};

use crate::label_texts::LabelTexts;
use am_alerting_rules::AlertingRule;
use am_classes::{Alphabet, LabelTests};
use am_complete::AskedLabel;
use am_labels::Matcher;
use am_universe::Universe;
use std::alloc::{AllocError, Global};

/// For each label of a universe, in order, the position of the one value that stands for the text
/// of the label in each alert of a rule, or `None` if the alerts may have any of its texts.
pub type Narrowing = Vec<Option<usize>>;

/// Returns how a universe is narrowed to the alerts of each rule, or `None` for a rule that has no
/// alert over the alphabet whose texts the universe stands for. The labels that are asked about
/// must be those for which the universe was made. Fails only if memory runs out.
pub fn narrowings(
    alloc: Global,
    alphabet: Alphabet,
    universe: &Universe,
    asked: &[AskedLabel<'_>],
    rules: &[AlertingRule],
) -> Result<Vec<Option<Narrowing>>, AllocError>
    ensures narrowings { IfOk result (λ found. map narrowing_view found.items
        ≡ map (rule_narrowing alphabet asked.now universe.now) rules.now) }
{
    let mut labels = label_texts(alloc, universe, asked)?;
    let mut found = Vec::with_capacity(alloc, rules.len())?;
    for rule in rules {
        found.push(rule_narrowing(alloc, alphabet, asked, &mut labels, rule)?)?;
    }
    Ok(found)
}

/// Returns the texts of each label of a universe, with the matchers that ask about the label.
fn label_texts<'a, 'm>(
    alloc: Global,
    universe: &'a Universe,
    asked: &[AskedLabel<'m>],
) -> Result<Vec<LabelTexts<'a, 'm>>, AllocError>
    ensures { IfOk result (λ labels. AreLabelTexts asked.now universe.now labels.items) }
{
    let mut labels = Vec::with_capacity(alloc, universe.len())?;
    for i in 0..universe.len() {
        let matchers = matchers_on(asked, universe.name(i));
        labels.push(LabelTexts::of(alloc, universe, i, matchers)?)?;
    }
    Ok(labels)
}

/// The matchers that ask about the label of this name.
fn matchers_on<'a, 'm>(asked: &'a [AskedLabel<'m>], name: &str) -> &'a [&'m Matcher]
    ensures { map (λ m. m.now) result.now ≡ matchers_on asked.now name.now }
{
    for label in asked {
        if label.name() == name {
            return label.matchers();
        }
    }
    &[]
}

/// Returns how the labels are narrowed to the alerts of a rule.
fn rule_narrowing(
    alloc: Global,
    alphabet: Alphabet,
    asked: &[AskedLabel<'_>],
    labels: &mut Vec<LabelTexts<'_, '_>>,
    rule: &AlertingRule,
) -> Result<Option<Narrowing>, AllocError>
    ensures narrowing { IfOk result (λ found. (u : List Label)
        → AreLabelTexts asked.now u labels.old.items
        → narrowing_view found ≡ rule_narrowing alphabet asked.now u rule.now) }
    ensures same { OnOk result ((u : List Label)
        → AreLabelTexts asked.now u labels.old.items
        → AreLabelTexts asked.now u labels.new.items) }
{
    let fixed = rule.fixed_labels(alloc)?;
    let fixed = fixed.as_slice();
    if !are_over(alphabet, fixed) || !absence_stands(alloc, asked, labels.as_slice(), fixed)? {
        return Ok(None);
    }
    narrowing(alloc, labels, fixed)
}

/// Whether absence stands for the text of each label that the universe does not declare.
fn absence_stands(
    alloc: Global,
    asked: &[AskedLabel<'_>],
    labels: &[LabelTexts<'_, '_>],
    fixed: &[(&str, &str)],
) -> Result<bool, AllocError>
    ensures { IfOk result (λ stands. (u : List Label) → AreLabelTexts asked.now u labels.now
        → stands ≡ list_all (absence_stands asked.now u) (pairs_view fixed.now)) }
{
    for label in fixed {
        if !absence_stands_for(alloc, asked, labels, label.0, label.1)? {
            return Ok(false);
        }
    }
    Ok(true)
}

/// Whether absence stands for a text of the label with a name, or the universe declares the label.
fn absence_stands_for(
    alloc: Global,
    asked: &[AskedLabel<'_>],
    labels: &[LabelTexts<'_, '_>],
    name: &str,
    text: &str,
) -> Result<bool, AllocError>
    ensures { IfOk result (λ stands. (u : List Label) → AreLabelTexts asked.now u labels.now
        → stands ≡ absence_stands asked.now u (name.now, text.now)) }
{
    if is_declared(labels, name) {
        return Ok(true);
    }
    is_like_absence(alloc, matchers_on(asked, name), text)
}

/// Whether one of the labels has a name.
fn is_declared(labels: &[LabelTexts<'_, '_>], name: &str) -> bool
    ensures { (asked : List AskedLabel) (u : List Label) → AreLabelTexts asked u labels.now
        → result ≡ is_declared u name.now }
{
    labels.iter().any(|label| label.name() == name)
}

/// Whether matchers cannot tell a text from the empty one, which stands for absence.
fn is_like_absence(alloc: Global, matchers: &[&Matcher], text: &str) -> Result<bool, AllocError>
    ensures { IfOk result (λ like. like ≡ alike (map (λ m. m.now) matchers.now) [] text.now) }
{
    if matchers.is_empty() {
        return Ok(true);
    }
    let texts = vec![in alloc; String::new(alloc), String::from_str(alloc, text)?]?;
    let tests = LabelTests::of(alloc, matchers)?;
    let tested = tests.tested(alloc, texts)?;
    Ok(tested[0].hits.as_slice() == tested[1].hits.as_slice())
}

/// Whether the texts of some labels are over an alphabet.
fn are_over(alphabet: Alphabet, fixed: &[(&str, &str)]) -> bool
    ensures { result ≡ are_over alphabet (pairs_view fixed.now) }
{
    fixed.iter().all(|label| alphabet.has(label.1))
}

/// Returns how the labels are narrowed to the alerts that have these texts, or `None` if no value
/// of a label is alike to its text.
fn narrowing<'t>(
    alloc: Global,
    labels: &mut Vec<LabelTexts<'_, '_>>,
    fixed: &[(&'t str, &'t str)],
) -> Result<Option<Narrowing>, AllocError>
    ensures narrowing { IfOk result (λ found. (asked : List AskedLabel) (u : List Label)
        → AreLabelTexts asked u labels.old.items
        → narrowing_view found ≡ narrowing asked (pairs_view fixed.now) u) }
    ensures same { OnOk result ((asked : List AskedLabel) (u : List Label)
        → AreLabelTexts asked u labels.old.items → AreLabelTexts asked u labels.new.items) }
{
    let mut kept = Vec::with_capacity(alloc, labels.len())?;
    for i in 0..labels.len() {
        let found = narrowing_at(alloc, &mut labels[i], fixed)?;
        match found {
            Some(one) => kept.push(one)?,
            None => return Ok(None),
        }
    }
    Ok(Some(kept))
}

/// Returns how a label is narrowed to the alerts that have these texts, or `None` if no value of it
/// is alike to its text.
fn narrowing_at<'t>(
    alloc: Global,
    label: &mut LabelTexts<'_, '_>,
    fixed: &[(&'t str, &'t str)],
) -> Result<Option<Option<usize>>, AllocError>
    ensures narrowing { IfOk result (λ found. (ms : List Matcher) (l : Label)
        → IsLabelTexts ms l label.old
        → found ≡ narrowing_at ms (fixed_text (pairs_view fixed.now) l.name) l) }
    ensures same { OnOk result ((ms : List Matcher) (l : Label)
        → IsLabelTexts ms l label.old → IsLabelTexts ms l label.new) }
{
    let Some(text) = fixed_text(fixed, label.name()) else {
        return Ok(Some(None));
    };
    match label.alike_position(alloc, text)? {
        Some(position) => Ok(Some(Some(position))),
        None => Ok(None),
    }
}

/// The text that some labels have under a name, if one of them has it.
fn fixed_text<'a>(fixed: &[(&'a str, &'a str)], name: &str) -> Option<&'a str>
    ensures { option_map (λ t. t.now) result ≡ fixed_text (pairs_view fixed.now) name.now }
{
    for label in fixed {
        if label.0 == name {
            return Some(label.1);
        }
    }
    None
}
