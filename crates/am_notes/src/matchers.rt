//! Notes on matchers that a person has typed.

ghost use Rattle.std.specs.Prelude.{◌<◌, length};

use crate::notes::Notes;
use crate::sentences::{run_together, undeclared_label, undeclared_value};
use am_labels::{Matcher, Matchers, Op};
use am_universe::Universe;
use std::alloc::{AllocError, Global};

/// Adds the notes on the matchers of a label set, which was read from a text.
pub(crate) fn add_set_matchers(
    alloc: Global,
    notes: &mut Notes,
    matchers: &Matchers,
    text: &str,
) -> Result<(), AllocError> {
    for i in 0..matchers.len() {
        let matcher = matchers.get(i);
        if is_run_together(alloc, matcher, text)? {
            notes.add(run_together(alloc, matcher.name(), matcher.value())?)?;
        }
    }
    Ok(())
}

/// Adds the notes on the matchers of a list, which was read from a part of a question.
pub(crate) fn add_question_matchers(
    alloc: Global,
    notes: &mut Notes,
    matchers: &Matchers,
    question: &str,
    universe: Option<&Universe>,
) -> Result<(), AllocError> {
    for i in 0..matchers.len() {
        if let Some(note) = question_note(alloc, matchers.get(i), question, universe)? {
            notes.add(note)?;
        }
    }
    Ok(())
}

/// The note on a matcher of a question, if there is one: that it looks like two matchers, or else
/// that the universe, if there is one, does not declare its label or its value.
fn question_note(
    alloc: Global,
    matcher: &Matcher,
    question: &str,
    universe: Option<&Universe>,
) -> Result<Option<String>, AllocError> {
    let (name, value) = (matcher.name(), matcher.value());
    if is_run_together(alloc, matcher, question)? {
        return Ok(Some(run_together(alloc, name, value)?));
    }
    let Some(universe) = universe else {
        return Ok(None);
    };
    let Some(label) = universe.position(name) else {
        return Ok(Some(undeclared_label(alloc, name)?));
    };
    if matcher.op() == Op::Equal && !has_value(universe, label, value) {
        return Ok(Some(undeclared_value(alloc, name, value)?));
    }
    Ok(None)
}

/// Whether the label at `label` may have a text; the empty text stands for absence.
fn has_value(universe: &Universe, label: usize, text: &str) -> bool
    requires { label < length universe.now }
{
    for j in 0..universe.size(label) {
        if universe.value(label, j).unwrap_or("") == text {
            return true;
        }
    }
    false
}

/// Whether a matcher that was read from a text looks like two: its value has a blank and an `=`
/// after it, and is in the text without quotes.
fn is_run_together(alloc: Global, matcher: &Matcher, text: &str) -> Result<bool, AllocError> {
    match matcher.value().split_once(' ') {
        Some((_, behind)) if behind.contains('=') => is_unquoted(alloc, text, matcher.value()),
        _ => Ok(false),
    }
}

/// Whether a value is in a text without quotes. If it is there with quotes as well, or with
/// escapes, it counts as quoted: a person who quotes means one value.
fn is_unquoted(alloc: Global, text: &str, value: &str) -> Result<bool, AllocError> {
    let quoted = format!(in alloc; "\"{value}\"")?;
    Ok(text.contains(value) && !text.contains(quoted.as_str()))
}
