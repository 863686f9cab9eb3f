//! The words of a question, each as it is typed. A text in quotes is one word, and so is a list in
//! braces.

use am_command_line::{Call, Request};
use am_labels::{brace_len, parse_matchers};
use am_universe::Kind;
use std::alloc::{AllocError, Global};

/// A word of a text, and where it begins.
#[derive(Clone, Copy)]
pub(crate) struct Word<'a> {
    pub(crate) start: usize,
    pub(crate) text: &'a str,
}

impl<'a> Word<'a> {
    /// Whether nothing closes the word, which is then a list in braces or a text in quotes, up to
    /// the end.
    pub(crate) fn is_open(self) -> bool {
        match self.text.as_bytes() {
            [b'{', ..] => brace_len(self.text).is_none(),
            [b'"', ..] => quoted_len(self.text).is_none(),
            _ => false,
        }
    }

    /// What the word stands for as a name.
    pub(crate) fn name(self, alloc: Global) -> Result<String, AllocError> {
        if !self.text.starts_with('"') {
            return String::from_str(alloc, self.text);
        }
        // In quotes, the value of a matcher has the same escapes.
        let matcher = format!(in alloc; "name={}", self.text)?;
        match parse_matchers(alloc, matcher.as_str()) {
            Ok(matchers) if matchers.len() == 1 => {
                String::from_str(alloc, matchers.get(0).value())
            }
            Err(Kind::Memory) => Err(AllocError),
            _ => String::from_str(alloc, self.text),
        }
    }
}

/// The question at fault: the only one, or the one of several to which the pointer leads.
pub(crate) fn question_at<'a>(call: &Call<'a>, pointer: &str) -> Option<&'a str> {
    match &call.request {
        Request::Ask { question, .. } => Some(question),
        Request::Alerts { question } => *question,
        Request::Universe { questions, .. } | Request::CheckUniverse { questions, .. } => {
            let position = pointer.strip_prefix('/')?.parse::<usize>().ok()?;
            questions.get(position).copied()
        }
        _ => None,
    }
}

/// The words of a question.
pub(crate) fn words_of(alloc: Global, question: &str) -> Result<Vec<Word<'_>>, AllocError> {
    let mut words = Vec::new(alloc);
    let mut rest = question.trim_ascii_start();
    for _ in 0..question.len() {
        let Some((text, behind)) = rest.split_at_checked(word_len(rest)) else {
            break;
        };
        if text.is_empty() {
            break;
        }
        let start = question.len().saturating_sub(rest.len());
        words.push(Word { start, text })?;
        rest = behind.trim_ascii_start();
    }
    Ok(words)
}

fn word_len(text: &str) -> usize {
    match text.as_bytes() {
        [b'(' | b')', ..] => 1,
        [b'{', ..] => brace_len(text).unwrap_or(text.len()),
        [b'"', ..] => quoted_len(text).unwrap_or(text.len()),
        bytes => bytes.iter().take_while(|byte| is_plain(**byte)).count(),
    }
}

fn is_plain(byte: u8) -> bool {
    !(byte.is_ascii_whitespace() || matches!(byte, b'(' | b')' | b'{' | b'"'))
}

/// The length of a text in quotes, if a quote that is not escaped ends it.
fn quoted_len(text: &str) -> Option<usize> {
    let mut is_escaped = false;
    for (i, byte) in text.as_bytes().iter().enumerate().skip(1) {
        if *byte == b'"' && !is_escaped {
            return Some(i.saturating_add(1));
        }
        is_escaped = *byte == b'\\' && !is_escaped;
    }
    None
}
