//! The words of a command line, as a shell cuts them.

use crate::inserts::{Named, filled};
use crate::problem::Problem;
use std::alloc::Global;

/// A command line that is being cut.
#[derive(Drop)]
struct Cutting {
    words: Vec<Vec<u8>>,
    /// The word that has begun, though it may be empty.
    word: Option<Vec<u8>>,
    /// The quote that is open.
    quote: Option<u8>,
    /// Whether the next byte stands for itself.
    escaped: bool,
}

impl Cutting {
    fn take(&mut self, alloc: Global, byte: u8) -> Result<(), Problem> {
        if byte == b' ' && self.quote.is_none() && !self.escaped {
            if let Some(word) = self.word.take() {
                self.words.push(word)?;
            }
            return Ok(());
        }
        let mut word = self.word.take().unwrap_or(Vec::new(alloc));
        if self.escaped {
            self.escaped = false;
            word.push(byte)?;
        } else if byte == b'\\' && self.quote != Some(b'\'') {
            self.escaped = true;
        } else if self.quote == Some(byte) {
            self.quote = None;
        } else if self.quote.is_none() && (byte == b'\'' || byte == b'"') {
            self.quote = Some(byte);
        } else {
            word.push(byte)?;
        }
        self.word = Some(word);
        Ok(())
    }
}

/// Cuts a command line into words, with each insert replaced by what it stands for.
pub fn words(alloc: Global, texts: &[Named], line: &[u8]) -> Result<Vec<String>, Problem> {
    let mut cutting = Cutting {
        words: Vec::new(alloc),
        word: None,
        quote: None,
        escaped: false,
    };
    for byte in line {
        cutting.take(alloc, *byte)?;
    }
    if cutting.quote.is_some() || cutting.escaped {
        return Err(Problem::about(alloc, "a quote is not closed", line));
    }
    cutting.take(alloc, b' ')?;
    let mut words = Vec::new(alloc);
    for word in &cutting.words {
        let word = String::from_utf8(filled(alloc, texts, word.as_slice())?);
        words.push(word.map_err(|_| Problem::said(alloc, "a word that is not UTF-8"))?)?;
    }
    Ok(words)
}
