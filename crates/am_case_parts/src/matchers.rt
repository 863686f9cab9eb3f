//! Matchers, as they are read, and what they match; and label sets.

ghost use Rattle.std.specs.Prelude.{◌≡◌, Some, IfSome, length, slice_get};
ghost use Rattle.am_universe.specs.Universe.{sizes};

use crate::asked::read_file;
use crate::texts::{Refusal, begun, word};
use am_labels::{Matcher, Matchers, Op, Row, parse_matchers, parse_set};
use am_list_files::read_universe;
use am_universe::{Kind, LabelSet, Out, Universe, put_str, write_map, write_text};
use std::alloc::{AllocError, Global};
use std::rt::Files;

/// Returns the list of matchers that a text spells.
pub fn of_matchers(alloc: Global, text: &str) -> Result<Vec<u8>, Refusal> {
    let list = parse_matchers(alloc, text)?;
    let mut out = begun(alloc, "ok: ")?;
    write_matchers(&list, &mut out)?;
    Ok(out.into_inner())
}

/// Writes a list of matchers in braces, with the values in quotes.
pub fn write_matchers(list: &Matchers, out: &mut Out<Vec<u8>>) -> Result<(), Kind> {
    put_str(out, "{")?;
    for i in 0..list.len() {
        if i > 0 {
            put_str(out, ",")?;
        }
        write_matcher(list.get(i), out)?;
    }
    put_str(out, "}")
}

fn write_matcher(matcher: &Matcher, out: &mut Out<Vec<u8>>) -> Result<(), Kind> {
    put_str(out, matcher.name())?;
    put_str(out, matcher.op().text())?;
    write_text(out, matcher.value())
}

/// Returns the matcher of a name, an operator and a value.
pub fn of_matcher(alloc: Global, name: &str, op: &str, value: &str) -> Result<Vec<u8>, Refusal> {
    let Some(op) = Op::ALL.iter().find(|it| it.text() == op) else {
        return Err(Refusal::wrong(alloc, "a name, an operator and a value are wanted"));
    };
    let name = String::from_str(alloc, name)?;
    let value = String::from_str(alloc, value)?;
    let matcher = Matcher::new(alloc, name, *op, value)?;
    let mut out = begun(alloc, "ok: ")?;
    write_matcher(&matcher, &mut out)?;
    Ok(out.into_inner())
}

/// Returns whether a list of matchers matches a label set.
pub fn of_match(alloc: Global, list: &str, set: &str) -> Result<Vec<u8>, Refusal> {
    let (list, set) = (parse_matchers(alloc, list)?, parse_set(alloc, set)?);
    let words = yes_or_no(list.matches(alloc, &set)?);
    Ok(Vec::from_slice(alloc, words.as_bytes())?)
}

/// Puts values into a label set, each under the name before it. Returns the label set, and the
/// value of the last name in it.
pub fn of_put(alloc: Global, words: &[String]) -> Result<Vec<u8>, Refusal> {
    let mut set = LabelSet::empty(alloc);
    for pair in words.get(1..).unwrap_or(&[]).chunks(2) {
        if let [name, value] = pair {
            set.put(name.clone()?, value.clone()?)?;
        }
    }
    let mut out = begun(alloc, "ok: ")?;
    write_map(&set, &mut out)?;
    put_str(&mut out, " ")?;
    let last = word(words, words.len().saturating_sub(1));
    write_text(&mut out, set.get(last))?;
    Ok(out.into_inner())
}

fn yes_or_no(truth: bool) -> &'static str {
    if truth { "yes" } else { "no" }
}

/// Returns the row of one matcher over a universe: its truth on each value of its label.
pub fn of_row<R: Files + AllocGlobal>(
    files: &R,
    universe: &str,
    text: &str,
) -> Result<Vec<u8>, Refusal> {
    let alloc = files.alloc();
    let space = read_universe(alloc, read_file(files, universe)?.as_slice())?;
    let list = parse_matchers(alloc, text)?;
    if list.len() != 1 {
        return Err(Refusal::wrong(alloc, "one matcher is wanted"));
    }
    let row = list.get(0).row(alloc, space.universe())?;
    Ok(row_text(alloc, space.universe(), &row)?)
}

fn row_text(alloc: Global, universe: &Universe, row: &Row) -> Result<Vec<u8>, AllocError>
    requires { IfSome row.now.label
        (λ i. slice_get (sizes universe.now) i ≡ Some (length row.now.truths)) }
{
    let (mut text, count) = match row.label() {
        Some(label) if label < universe.len() => {
            let text = format!(in alloc; "label {label}:")?;
            (text, universe.size(label))
        }
        _ => (String::from_str(alloc, "no label:")?, 1),
    };
    for j in 0..count {
        text.push(' ')?;
        text.push_str(yes_or_no(row.holds(j)))?;
    }
    Ok(text.into_bytes())
}
