//! The parts of `amcover` that tables call, by their names.

use crate::classes::of_classes;
use crate::labels::of_label;
use crate::matchers::{of_match, of_matcher, of_matchers, of_put, of_row};
use crate::readers::{of_config, of_instant, of_silences};
use crate::search::{of_boxes, of_count, of_judge};
use crate::texts::{Refusal, word};
use crate::whole::of_whole;
use am_case_runner::Problem;
use am_classes::Alphabet;
use std::rt::Files;

/// Calls the part that the first word names, with the other words. Returns a text that begins with
/// `ok:` if the input is accepted, or the fault. Returns `None` if no part has this name.
pub fn call<R: Files + AllocGlobal>(
    files: &R,
    words: &[String],
) -> Result<Option<Vec<u8>>, Problem> {
    let (name, one) = (word(words, 0), word(words, 1));
    let (two, three) = (word(words, 2), word(words, 3));
    let alloc = files.alloc();
    let found = match name {
        "config" => of_config(files, one),
        "silences" => of_silences(files, one),
        "instant" => of_instant(alloc, one),
        "matchers" => of_matchers(alloc, one),
        "matcher" => of_matcher(alloc, one, two, three),
        "match" => of_match(alloc, one, two),
        "label" => of_label(alloc, words),
        "put" => of_put(alloc, words),
        "row" => of_row(files, one, two),
        "classes" => of_classes(alloc, Alphabet::Unicode, one),
        "classes-ascii" => of_classes(alloc, Alphabet::Ascii, one),
        "boxes" => of_boxes(files, one),
        "judge" => of_judge(files, words),
        "count" => of_count(files, words),
        "whole" => of_whole(files, words),
        _ => return Ok(None),
    };
    match found {
        Ok(text) => Ok(Some(text)),
        Err(refusal) => Ok(Some(refusal.text(alloc)?)),
    }
}
