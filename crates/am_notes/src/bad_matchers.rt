//! Notes on a text that spells no matchers: where it does not, and how they are written.

use crate::notes::Notes;
use crate::question_words::{question_at, words_of};
use crate::stray_bytes::{Written, add_stray_byte};
use am_command_line::{Call, Request};
use am_json::read_json;
use am_universe::Fault;
use serde_json::Value;
use std::alloc::{AllocError, Global};

/// Adds a note on the text of a file to which a pointer leads.
pub(crate) fn add_bad_text(
    alloc: Global,
    notes: &mut Notes,
    bytes: &[u8],
    pointer: &str,
) -> Result<(), AllocError> {
    let value = read_json(alloc, bytes).map_err(|_| AllocError)?;
    match value.pointer(pointer).and_then(Value::as_str) {
        Some(text) => add_bad_list(alloc, notes, text, Written::List, None),
        None => Ok(()),
    }
}

/// Adds a note on the label set, or else on the question, of a command line.
pub(crate) fn add_bad_words(
    alloc: Global,
    notes: &mut Notes,
    call: &Call<'_>,
    fault: &Fault,
) -> Result<(), AllocError> {
    if let Request::Explain { set } = &call.request {
        return add_bad_set(alloc, notes, set.as_slice());
    }
    let question = question_at(call, fault.pointer.as_str()).unwrap_or("");
    let remedy = "matchers are written as {team=\"db\",severity=~\"crit.*\"}";
    for word in &words_of(alloc, question)? {
        if word.text.starts_with('{') {
            add_bad_list(alloc, notes, word.text, Written::List, Some(remedy))?;
        }
    }
    Ok(())
}

/// Adds a note on a label set. One word is a list, and each of several words is one label.
fn add_bad_set(alloc: Global, notes: &mut Notes, words: &[&str]) -> Result<(), AllocError> {
    let remedy = "a label set is written as team=\"db\",severity=\"warning\"";
    for word in words {
        let written = match words.len() {
            1 => Written::Set,
            _ => Written::Label,
        };
        add_bad_list(alloc, notes, word, written, Some(remedy))?;
    }
    Ok(())
}

/// Adds a note on a text, unless it can be read, or there is a note already.
fn add_bad_list(
    alloc: Global,
    notes: &mut Notes,
    text: &str,
    written: Written,
    remedy: Option<&str>,
) -> Result<(), AllocError> {
    if !notes.is_empty() {
        return Ok(());
    }
    if has_quoted_name(text) {
        let quoted = "a label name stands without quotes, as in team=\"db\"";
        return add_stray_byte(alloc, notes, text, written, Some(quoted));
    }
    add_stray_byte(alloc, notes, text, written, remedy)
}

/// Whether there is a quote where a name would begin: at the start, or after a brace or a comma and
/// at most one blank.
fn has_quoted_name(text: &str) -> bool {
    text.starts_with('"')
        || text.contains("{\"")
        || text.contains("{ \"")
        || text.contains(",\"")
        || text.contains(", \"")
}
