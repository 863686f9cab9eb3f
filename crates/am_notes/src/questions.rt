//! Notes on a question that is answered.

use crate::matchers::add_question_matchers;
use crate::notes::Notes;
use am_command_line::Call;
use am_eval::Question;
use am_universe::Universe;
use std::alloc::{AllocError, Global};

const NO_SILENCES: &str = "without --silences nothing is silenced";

const NO_ALERTS: &str = "without --alerts nothing is inhibited";

/// Adds the notes on each part of a question, from left to right. `text` is the text of the whole
/// question. Without a universe, no label counts as undeclared.
pub(crate) fn add_question(
    alloc: Global,
    notes: &mut Notes,
    call: &Call<'_>,
    text: &str,
    universe: Option<&Universe>,
    question: &Question,
) -> Result<(), AllocError> {
    match question {
        Question::Silenced => add_unless(alloc, notes, &call.silences, NO_SILENCES),
        Question::Inhibited => add_unless(alloc, notes, &call.alerts, NO_ALERTS),
        Question::Braces(list) => add_question_matchers(alloc, notes, list, text, universe),
        Question::Not(question) => add_question(alloc, notes, call, text, universe, question),
        Question::And(left, right) | Question::Or(left, right) => {
            add_question(alloc, notes, call, text, universe, left)?;
            add_question(alloc, notes, call, text, universe, right)
        }
        _ => Ok(()),
    }
}

/// Adds a note, unless there is a file.
fn add_unless(
    alloc: Global,
    notes: &mut Notes,
    file: &Option<Vec<u8>>,
    note: &str,
) -> Result<(), AllocError> {
    if file.is_some() {
        return Ok(());
    }
    notes.add_str(alloc, note)
}

/// Whether a question asks about routes, and so about every label that routes ask about.
pub(crate) fn asks_of_routes(question: &Question) -> bool {
    match question {
        Question::Receiver(_) | Question::Ends(_) | Question::Enters(_) => true,
        Question::Not(question) => asks_of_routes(question),
        Question::And(left, right) | Question::Or(left, right) => {
            asks_of_routes(left) || asks_of_routes(right)
        }
        _ => false,
    }
}
