//! The sentences of notes that name a label, a value, a file or a place, each written only here.

use am_command_line::STANDARD_INPUT;
use am_report_texts::{gap_before, push_name, push_quoted};
use std::alloc::{AllocError, Global};
use std::io;
use std::io::ErrorKind;

/// The command that shows what a universe leaves out.
const CHECK: &str = "see amcover universe --routes --check UNIVERSE --config FILE";

/// A question asks about a label that no label set of the universe has.
pub(crate) fn undeclared_label(alloc: Global, name: &str) -> Result<String, AllocError> {
    let name = named(alloc, name)?;
    format!(in alloc;
        "the universe does not declare {name}: it counts as missing in every label set"
    )
}

/// A question asks for a value of a label that no label set of the universe has. The empty value is
/// that of a missing label.
pub(crate) fn undeclared_value(
    alloc: Global,
    name: &str,
    value: &str,
) -> Result<String, AllocError> {
    let name = named(alloc, name)?;
    if value.is_empty() {
        return format!(in alloc;
            "the universe does not declare null for {name}: no label set is without it"
        );
    }
    let value = quoted(alloc, value)?;
    format!(in alloc; "the universe does not declare {name}={value}: no label set has it")
}

/// What looks like several matchers is one matcher.
pub(crate) fn run_together(alloc: Global, name: &str, value: &str) -> Result<String, AllocError> {
    let (name, value) = (named(alloc, name)?, quoted(alloc, value)?);
    format!(in alloc; "the value of {name} is {value}: a comma separates matchers")
}

/// The universe stands for no alert that has this text as its label; the empty text is that of a
/// missing label.
pub(crate) fn left_out(alloc: Global, name: &str, text: &str) -> Result<String, AllocError> {
    let name = named(alloc, name)?;
    if text.is_empty() {
        return format!(in alloc; "the universe leaves out alerts without {name}; {CHECK}");
    }
    let text = quoted(alloc, text)?;
    format!(in alloc; "the universe leaves out alerts such as those with {name}={text}; {CHECK}")
}

/// The universe stands for no alert that has this label.
pub(crate) fn undeclarable(alloc: Global, name: &str) -> Result<String, AllocError> {
    let name = quoted(alloc, name)?;
    format!(in alloc; "no universe can declare {name}: alerts that have it are left out; {CHECK}")
}

/// It is not proved whether the universe stands for all alerts with this label.
pub(crate) fn unproved(alloc: Global, name: &str) -> Result<String, AllocError> {
    let name = named(alloc, name)?;
    format!(in alloc; "whether the universe leaves out values of {name} is not proved; {CHECK}")
}

/// A file could not be read.
pub(crate) fn unread_file(
    alloc: Global,
    path: &str,
    error: &io::Error,
) -> Result<String, AllocError> {
    let file = if path == STANDARD_INPUT {
        String::from_str(alloc, "standard input")?
    } else {
        let path = quoted(alloc, path)?;
        format!(in alloc; "the file {path}")?
    };
    let why = match error.kind() {
        ErrorKind::NotFound => "there is no such file",
        ErrorKind::IsADirectory => "it is a folder",
        ErrorKind::PermissionDenied => "it is not permitted",
        _ => return format!(in alloc; "{file} cannot be read: {error}"),
    };
    format!(in alloc; "{file} cannot be read: {why}")
}

/// A file is not JSON from a place on.
pub(crate) fn not_json_at(
    alloc: Global,
    line: usize,
    column: usize,
    remedy: Option<&str>,
) -> Result<String, AllocError> {
    let place = format!(in alloc; "the file is not JSON at line {line}, column {column}")?;
    with_remedy(place, remedy)
}

/// A text is no question from a word on.
pub(crate) fn stray_word(
    alloc: Global,
    position: usize,
    word: &str,
    remedy: &str,
) -> Result<String, AllocError> {
    let word = quoted(alloc, word)?;
    let place = format!(in alloc; "word {position} of the question, {word}, cannot stand there")?;
    with_remedy(place, Some(remedy))
}

/// A text is the front of a question.
pub(crate) fn ends_early(alloc: Global, remedy: &str) -> Result<String, AllocError> {
    with_remedy(
        String::from_str(alloc, "the question ends too early")?,
        Some(remedy),
    )
}

/// A part of a text is not what it is to be: a byte of the text cannot stand in it, or it is too
/// short.
pub(crate) fn stray_byte(
    alloc: Global,
    part: &str,
    noun: &str,
    byte: Option<usize>,
    remedy: Option<&str>,
) -> Result<String, AllocError> {
    let part = quoted(alloc, part)?;
    let wrong = match byte {
        Some(byte) => format!(in alloc;
            "{part} is no {noun}: byte {byte} of the text cannot stand there"
        )?,
        None => format!(in alloc; "{part} is no {noun}: it ends too early")?,
    };
    with_remedy(wrong, remedy)
}

/// What is wrong, and then what to type.
fn with_remedy(wrong: String, remedy: Option<&str>) -> Result<String, AllocError> {
    let mut note = wrong;
    if let Some(remedy) = remedy {
        note.push_str("; ")?;
        note.push_str(remedy)?;
    }
    Ok(note)
}

/// No receiver has a name, but some have similar ones.
pub(crate) fn unknown_receiver(
    alloc: Global,
    name: &str,
    similar: &[&str],
) -> Result<String, AllocError> {
    let mut names = String::new(alloc);
    for (i, other) in similar.iter().enumerate() {
        names.push_str(gap_before(i, "", ","))?;
        push_quoted(&mut names, other)?;
    }
    let name = quoted(alloc, name)?;
    format!(in alloc; "no receiver is named {name}; similar: {names}")
}

/// What is given as one file looks like another.
pub(crate) fn looks_like(alloc: Global, place: &str, likeness: &str) -> Result<String, AllocError> {
    format!(in alloc; "the file given as {place} looks like {likeness}")
}

/// The name of a label, in quotes if no list of matchers may have it.
fn named(alloc: Global, name: &str) -> Result<String, AllocError> {
    let mut named = String::new(alloc);
    push_name(&mut named, name)?;
    Ok(named)
}

/// A text between quotes, with `\` as `\\`, `"` as `\"` and a line feed as `\n`.
fn quoted(alloc: Global, text: &str) -> Result<String, AllocError> {
    let mut quoted = String::new(alloc);
    push_quoted(&mut quoted, text)?;
    Ok(quoted)
}
