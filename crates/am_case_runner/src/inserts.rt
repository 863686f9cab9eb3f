//! Inserts: `«..»` stands for a named text, for copies of a text, or for bytes.

use crate::lines::{number, number_between, replaced, split_at_first, split_at_last, utf8};
use crate::problem::Problem;
use std::alloc::Global;

const OPENING: &[u8] = b"\xc2\xab"; // «

const CLOSING: &[u8] = b"\xc2\xbb"; // »

/// More inserts than one text may have.
const MOST: usize = 10_000;

/// A text with a name: one that inserts may name, or a file.
#[derive(Drop)]
pub struct Named {
    pub name: Vec<u8>,
    pub text: Vec<u8>,
}

/// Returns the text with this name, or the last of several.
pub fn text_named<'n>(texts: &'n [Named], name: &[u8]) -> Option<&'n [u8]> {
    let found = texts.iter().rev().find(|one| one.name.as_slice() == name)?;
    Some(found.text.as_slice())
}

/// Returns a text with each insert replaced by what it stands for, the innermost and the leftmost
/// first. Fails if an insert is wrong, or if there are too many.
pub fn filled(alloc: Global, texts: &[Named], raw: &[u8]) -> Result<Vec<u8>, Problem> {
    let mut text = Vec::from_slice(alloc, raw)?;
    for _ in 0..MOST {
        match filled_once(alloc, texts, text.as_slice())? {
            Some(more) => text = more,
            None => return Ok(text),
        }
    }
    Err(Problem::about(alloc, "too many inserts", raw))
}

fn filled_once(alloc: Global, texts: &[Named], text: &[u8]) -> Result<Option<Vec<u8>>, Problem> {
    let Some((front, behind)) = split_at_first(text, CLOSING) else {
        return Ok(None);
    };
    let Some((before, words)) = split_at_last(front, OPENING) else {
        return Err(Problem::about(alloc, "a closing » alone", text));
    };
    let mut more = Vec::from_slice(alloc, before)?;
    insert(alloc, texts, words, &mut more)?;
    more.extend_from_slice(behind)?;
    Ok(Some(more))
}

/// Adds what the insert with these words stands for.
fn insert(alloc: Global, texts: &[Named], words: &[u8], text: &mut Vec<u8>) -> Result<(), Problem> {
    if words.is_empty() {
        return Ok(());
    }
    if let Some(digits) = words.strip_prefix(b"bytes ") {
        return add_bytes(alloc, digits, text);
    }
    if let Some(length) = number_between(words, b"padded to ", b" bytes") {
        if length < text.len() {
            return Err(Problem::about(alloc, "the text is longer already", words));
        }
        return Ok(text.resize(length, b' ')?);
    }
    if let Some((count, copied)) = split_at_first(words, b" times ")
        && let Some(count) = number(count)
    {
        return add_copies(alloc, count, copied, text);
    }
    match text_named(texts, words) {
        Some(found) => Ok(text.extend_from_slice(found)?),
        None => Err(Problem::about(alloc, "no text has this name", words)),
    }
}

/// Adds the bytes that are written as pairs of hexadecimal digits.
fn add_bytes(alloc: Global, digits: &[u8], text: &mut Vec<u8>) -> Result<(), Problem> {
    for pair in digits.split(|byte| *byte == b' ') {
        let byte = u8::from_str_radix(utf8(alloc, pair)?, 16);
        text.push(byte.map_err(|_| Problem::about(alloc, "no byte in hexadecimal", pair))?)?;
    }
    Ok(())
}

/// Adds copies, each with its number in place of each `#`, and with the text after ` joined by `
/// between them, if there is one.
fn add_copies(
    alloc: Global,
    count: usize,
    copied: &[u8],
    text: &mut Vec<u8>,
) -> Result<(), Problem> {
    let (copied, between) = split_at_last(copied, b" joined by ").unwrap_or((copied, b""));
    for i in 0..count {
        if i > 0 {
            text.extend_from_slice(between)?;
        }
        let number = format!(in alloc; "{i}")?;
        let copy = replaced(alloc, copied, b"#", number.as_bytes())?;
        text.extend_from_slice(copy.as_slice())?;
    }
    Ok(())
}
