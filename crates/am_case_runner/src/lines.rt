//! The lines of a file of cases: those that begin at the left, and the indented lines below each.

use crate::problem::Problem;
use std::alloc::{AllocError, Global};

/// A line, and its number in the file, from 1.
#[derive(Clone, Copy)]
pub struct Line<'a> {
    pub number: usize,
    pub text: &'a [u8],
}

/// A line that begins at the left, and the indented lines below it, without the two blanks before
/// each.
#[derive(Drop)]
pub struct Item<'a> {
    pub head: Line<'a>,
    pub body: Vec<Line<'a>>,
}

/// Returns the items of a file, without its comments and blank lines. Fails if an indented line
/// comes first.
pub fn items(alloc: Global, file: &[u8]) -> Result<Vec<Item<'_>>, Problem> {
    let mut items = Vec::new(alloc);
    for (index, text) in file.split(|byte| *byte == b'\n').enumerate() {
        let number = index.saturating_add(1);
        add(alloc, &mut items, Line { number, text })?;
    }
    Ok(items)
}

fn add<'a>(alloc: Global, items: &mut Vec<Item<'a>>, line: Line<'a>) -> Result<(), Problem> {
    if let Some(text) = line.text.strip_prefix(b"  ") {
        let number = line.number;
        return match items.last_mut() {
            Some(item) => Ok(item.body.push(Line { number, text })?),
            None => Err(Problem::said(alloc, "an indented line below nothing")),
        };
    }
    if !line.text.is_empty() && !line.text.starts_with(b"#") {
        items.push(Item {
            head: line,
            body: Vec::new(alloc),
        })?;
    }
    Ok(())
}

/// Returns what is before the last `mark` in a text, and what is after it.
pub fn split_at_last<'a>(text: &'a [u8], mark: &[u8]) -> Option<(&'a [u8], &'a [u8])> {
    let mut places = (0..text.len()).rev();
    places.find_map(|at| split_at(text, mark, at))
}

/// Returns what is before the first `mark` in a text, and what is after it.
pub fn split_at_first<'a>(text: &'a [u8], mark: &[u8]) -> Option<(&'a [u8], &'a [u8])> {
    (0..text.len()).find_map(|at| split_at(text, mark, at))
}

fn split_at<'a>(text: &'a [u8], mark: &[u8], at: usize) -> Option<(&'a [u8], &'a [u8])> {
    Some((text.get(..at)?, text.get(at..)?.strip_prefix(mark)?))
}

/// Reads a number in decimal. Returns `None` if the text is not such a number.
pub fn number(text: &[u8]) -> Option<usize> {
    std::str::from_utf8(text).ok()?.parse::<usize>().ok()
}

/// Reads a number that stands between these words.
pub fn number_between(text: &[u8], before: &[u8], behind: &[u8]) -> Option<usize> {
    number(text.strip_prefix(before)?.strip_suffix(behind)?)
}

/// Reads a text, which must be UTF-8.
pub fn utf8(alloc: Global, text: &[u8]) -> Result<&str, Problem> {
    std::str::from_utf8(text).map_err(|_| Problem::about(alloc, "this has to be UTF-8", text))
}

/// Returns a text with `other` in place of each copy of `part`.
pub fn replaced(
    alloc: Global,
    text: &[u8],
    part: &[u8],
    other: &[u8],
) -> Result<Vec<u8>, AllocError> {
    let mut done = Vec::new(alloc);
    let mut rest = text;
    for _ in 0..text.len() {
        let Some((before, behind)) = split_at_first(rest, part) else {
            break;
        };
        done.extend_from_slice(before)?;
        done.extend_from_slice(other)?;
        rest = behind;
    }
    done.extend_from_slice(rest)?;
    Ok(done)
}
