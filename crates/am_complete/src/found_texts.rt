//! Texts of a label whose classes could not be computed.
//!
//! With `--open` such a label is declared with these texts. Without them it would be missing in
//! every label set, and `dead` would call each route dead that asks for a value of it. The words of
//! a pattern follow a simple rule. A better search would find more, and could promise no more.

ghost use Rattle.std.specs.Prelude.{◌≡◌, ◌≤◌, [], IfOk, true, false, map, length, string_bytes};
ghost use Rattle.std.specs.List.{AllByRecursion};
ghost use Rattle.std.specs.Option.{option_map_or};
ghost use Rattle.am_classes.specs.Alphabet.{IsOver, AreOver};
ghost use Rattle.am_complete.specs.Complete.{AreAmong};
ghost use Rattle.am_complete.specs.Representatives.{AreFoundTexts, IsRepresentative, GainsOnly};

use crate::AskedLabel;
use crate::representatives::put_in_order;
use crate::usual_texts::{push_new, usual_texts};
use am_classes::{Alphabet, ClassTexts, LabelTests, new_texts};
use am_labels::{Matcher, is_alternation};
use am_list_files::Alerts;
use am_universe::limits::MAX_VALUES;
use std::alloc::{AllocError, Global};
use std::collections::HashSet;

/// Finds some texts of a label, no two of which are alike to its matchers. It tries the texts that
/// matchers name, absence, the usual texts, and the words of patterns, and keeps each text that is
/// alike to none before it. Of many patterns only the first are asked whether texts are alike. The
/// texts are in the order of a label's values. They need not stand for all texts.
pub(crate) fn found_texts<'m>(
    alloc: Global,
    alphabet: Alphabet,
    label: &AskedLabel<'m>,
    alerts: Option<&Alerts>,
) -> Result<ClassTexts<'m>, AllocError>
    ensures all { IfOk result (λ found. found.all ≡ false) }
    ensures found { IfOk result (AreFoundTexts alphabet (option_map_or (λ a. a.now) alerts.entry [])
        label.now) }
{
    let matchers = some_matchers(alloc, label.matchers())?;
    let tests = LabelTests::of(alloc, matchers.as_slice())?;
    let texts = texts_to_try(alloc, alphabet, label, alerts)?;
    let tried = tests.tested(alloc, texts)?;
    let mut texts = new_texts(alloc, Vec::new(alloc), tried)?;
    put_in_order(&mut texts)?;
    Ok(ClassTexts {
        texts,
        all: false,
        tests,
    })
}

/// Returns the matchers that compare with texts or with alternations of plain texts, and as many of
/// the others as a label may have values. A search for any other pattern is slow.
fn some_matchers<'m>(
    alloc: Global,
    matchers: &[&'m Matcher],
) -> Result<Vec<&'m Matcher>, AllocError>
    ensures { IfOk result (λ some.
        AreAmong (map (λ m. m.now) some.items) (map (λ m. m.now) matchers.now)) }
{
    let mut some = Vec::new(alloc);
    let mut room = MAX_VALUES;
    for matcher in matchers {
        if matcher.op().takes_pattern() && !is_alternation(matcher.value()) {
            if room == 0 {
                continue;
            }
            room -= 1;
        }
        some.push(*matcher)?;
    }
    Ok(some)
}

/// Returns the texts to try that are over the alphabet.
fn texts_to_try(
    alloc: Global,
    alphabet: Alphabet,
    label: &AskedLabel<'_>,
    alerts: Option<&Alerts>,
) -> Result<Vec<String>, AllocError>
    ensures over { IfOk result (λ texts. AreOver alphabet (map string_bytes texts.items)) }
    ensures representatives { IfOk result (λ texts. AllByRecursion
        (IsRepresentative true alphabet (option_map_or (λ a. a.now) alerts.entry [])
        label.now.name label.now.matchers) (map string_bytes texts.items)) }
{
    let usual = usual_texts(alloc, alphabet, alerts, label.name())?;
    let mut seen = HashSet::new(alloc);
    let mut texts = Vec::new(alloc);
    for matcher in label.matchers() {
        if !matcher.op().takes_pattern() {
            push_new(alloc, alphabet, &mut seen, &mut texts, matcher.value())?;
        }
    }
    push_new(alloc, alphabet, &mut seen, &mut texts, "")?;
    for text in &usual {
        push_new(alloc, alphabet, &mut seen, &mut texts, text.as_str())?;
    }
    for matcher in label.matchers() {
        if matcher.op().takes_pattern() {
            push_words(alloc, alphabet, &mut seen, &mut texts, matcher.value())?;
        }
    }
    Ok(texts)
}

/// Adds the words of a pattern: runs of letters, digits, `_` and `-`. A character after a backslash
/// is part of no word.
fn push_words<'t>(
    alloc: Global,
    alphabet: Alphabet,
    seen: &mut HashSet<&'t str>,
    texts: &mut Vec<String>,
    pattern: &'t str,
) -> Result<(), AllocError>
    ensures { GainsOnly (λ text. IsOver alphabet text × (length text ≤ length pattern.now))
        (map string_bytes texts.old.items) (map string_bytes texts.new.items) }
{
    let mut escaped = false;
    for piece in pattern.split('\\') {
        let piece = if escaped { behind_first(piece) } else { piece };
        push_runs(alloc, alphabet, seen, texts, piece)?;
        escaped = true;
    }
    Ok(())
}

/// Adds the runs of letters, digits, `_` and `-` of a text.
fn push_runs<'t>(
    alloc: Global,
    alphabet: Alphabet,
    seen: &mut HashSet<&'t str>,
    texts: &mut Vec<String>,
    piece: &'t str,
) -> Result<(), AllocError>
    ensures { GainsOnly (λ text. IsOver alphabet text × (length text ≤ length piece.now))
        (map string_bytes texts.old.items) (map string_bytes texts.new.items) }
{
    for word in piece.split(|c: char| !is_of_word(c)) {
        if !word.is_empty() {
            push_new(alloc, alphabet, seen, texts, word)?;
        }
    }
    Ok(())
}

/// Returns a text without its first character.
fn behind_first(text: &str) -> &str
    ensures { length result.now ≤ length text.now }
{
    let mut characters = text.chars();
    characters.next();
    characters.as_str()
}

fn is_of_word(c: char) -> bool {
    c.is_alphanumeric() || c == '_' || c == '-'
}
