//! Classes of texts that a list of matchers cannot tell apart.

use crate::texts::Refusal;
use am_classes::{Alphabet, SpareAutomata, classes};
use am_labels::{Matcher, parse_matchers};
use std::alloc::{AllocError, Global};

/// Returns for each class of texts over an alphabet, by one text that stands for it, which of the
/// matchers are true. The names of the matchers are ignored. Returns `unproved` if the classes
/// cannot be computed, and `many` if there are too many.
pub fn of_classes(alloc: Global, alphabet: Alphabet, text: &str) -> Result<Vec<u8>, Refusal> {
    let list = parse_matchers(alloc, text)?;
    let mut matchers = Vec::new(alloc);
    for i in 0..list.len() {
        matchers.push(list.get(i))?;
    }
    classes_text(alloc, alphabet, matchers.as_slice())
}

fn classes_text(
    alloc: Global,
    alphabet: Alphabet,
    matchers: &[&Matcher],
) -> Result<Vec<u8>, Refusal> {
    let mut spare = SpareAutomata::none(alloc);
    let Some(found) = classes(alloc, alphabet, matchers, &mut spare)? else {
        return Ok(Vec::from_slice(alloc, b"unproved")?);
    };
    if !found.all {
        return Ok(Vec::from_slice(alloc, b"many")?);
    }
    truths_text(alloc, alphabet, matchers, found.texts.as_slice())
}

fn truths_text(
    alloc: Global,
    alphabet: Alphabet,
    matchers: &[&Matcher],
    texts: &[String],
) -> Result<Vec<u8>, Refusal> {
    let mut truths = Vec::new(alloc);
    for text in texts {
        if !alphabet.has(text.as_str()) {
            return Err(Refusal::wrong(alloc, "a text that is not over the alphabet"));
        }
        truths.push(truths_on(alloc, matchers, text.as_str())?)?;
    }
    truths.sort()?;
    let mut text = String::from_str(alloc, "ok:")?;
    for one in &truths {
        text.push(' ')?;
        text.push_str(one.as_str())?;
    }
    Ok(text.into_bytes())
}

/// For each matcher, `1` if it is true of a text, and otherwise `0`.
fn truths_on(alloc: Global, matchers: &[&Matcher], text: &str) -> Result<String, AllocError> {
    let mut truths = String::new(alloc);
    for matcher in matchers {
        let mut prepared = matcher.prepare(alloc)?;
        truths.push(if prepared.holds(text) { '1' } else { '0' })?;
    }
    Ok(truths)
}
