//! Notes on a text that is no question: the word at which it can no longer be one.

use crate::answers::config_of;
use crate::notes::Notes;
use crate::question_words::{Word, question_at, words_of};
use crate::sentences::{ends_early, stray_word};
use am_command_line::Call;
use am_config::Config;
use am_questions::parse_question;
use am_universe::{Fault, Kind};
use std::alloc::{AllocError, Global};

/// The most words of a question that are looked at. With what completes each front of it, a
/// question of so many words has at most 256 lexemes.
const MOST_WORDS: usize = 120;

/// What a front of a question may lack, beside closing parentheses: nothing, a question, a name or
/// a path.
const LACKING: [&str; 4] = ["", "any", "x", "/"];

/// Adds a note on a text that is no question.
pub(crate) fn add_question_syntax(
    alloc: Global,
    notes: &mut Notes,
    call: &Call<'_>,
    fault: &Fault,
) -> Result<(), AllocError> {
    let Some(question) = question_at(call, fault.pointer.as_str()) else {
        return Ok(());
    };
    let words = words_of(alloc, question)?;
    if words.len() > MOST_WORDS {
        return notes.add_str(alloc, remedy(question));
    }
    let note = match first_stray(alloc, question, words.as_slice())? {
        Some((position, word)) => stray_word(alloc, position, word.text, remedy(question))?,
        None => ends_early(alloc, remedy(question))?,
    };
    notes.add(note)
}

/// The first word up to which a text is the front of no question, and its position, from 1.
fn first_stray<'a>(
    alloc: Global,
    question: &str,
    words: &[Word<'a>],
) -> Result<Option<(usize, Word<'a>)>, AllocError> {
    let config = config_of(alloc, None)?;
    let mut open = 0usize;
    for (i, word) in words.iter().enumerate() {
        match word.text {
            "(" => open = open.saturating_add(1),
            ")" => open = open.saturating_sub(1),
            _ => {}
        }
        if !is_front(alloc, question, *word, open, &config)? {
            return Ok(Some((i.saturating_add(1), *word)));
        }
    }
    Ok(None)
}

/// Whether a text up to this word is the front of a question in which so many parentheses are open.
fn is_front(
    alloc: Global,
    question: &str,
    word: Word<'_>,
    open: usize,
    config: &Config,
) -> Result<bool, AllocError> {
    let before = question.get(..word.start).unwrap_or("");
    let text = match word.text.as_bytes() {
        [b'{', ..] if word.is_open() => "{}",
        [b'"', ..] if word.is_open() => "\"\"",
        _ => word.text,
    };
    let closing = ")".repeat(alloc, open)?;
    for lacking in &LACKING {
        // If this is a question, its first receiver is refused, before anything else is read: in a
        // call without a configuration, no receiver has the empty name.
        let whole = format!(in alloc; "receiver \"\" or {before}{text} {lacking} {closing}")?;
        match parse_question(alloc, whole.as_str(), config) {
            Err(Kind::UnknownReceiver) => return Ok(true),
            Err(Kind::Memory) => return Err(AllocError),
            _ => {}
        }
    }
    Ok(false)
}

/// How a question is written.
fn remedy(question: &str) -> &'static str {
    if question.contains('=') && !question.contains('{') {
        return "matchers stand in braces, as in {team=\"db\"}";
    }
    "amcover ask --help lists the forms; a name with a blank stands in quotes: receiver \"on call\""
}
