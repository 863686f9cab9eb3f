//! The run of a command line, and its check.
//!
//! In a token, `H` stands for the digits of the fingerprint of the command's own inputs.

use crate::command::{Command, Ran, Wanted, check_count, check_cut, check_text};
use crate::lines::{replaced, split_at_first, utf8};
use crate::problem::Problem;
use crate::program::Program;
use crate::stage::Stage;
use crate::writer::{Manner, Stop, Writer};
use std::alloc::{AllocError, Global};
use std::rt::Files;

/// What a token of a case has in place of `2:`, the digits and `:`.
const OWN: &[u8] = b"2:H:";

fn has_own_token(text: &[u8]) -> bool {
    split_at_first(text, OWN).is_some()
}

/// A text with these digits in place of `H` in each token.
fn with_digits(alloc: Global, text: &[u8], digits: &str) -> Result<Vec<u8>, AllocError> {
    let digits = format!(in alloc; "2:{digits}:")?;
    replaced(alloc, text, OWN, digits.as_bytes())
}

impl<'s, R: Files + AllocGlobal, P: Program> Stage<'s, R, P> {
    /// Replaces `H` in the tokens of a command, and of the output that is wanted, by the digits of
    /// the command's own inputs.
    pub fn put_digits(&self, command: &mut Command) -> Result<(), Problem> {
        let alloc = self.alloc();
        let is_wanted = match &command.out.wanted {
            Some(Wanted::Whole(text) | Wanted::Has(text)) => has_own_token(text.as_slice()),
            _ => false,
        };
        let own = command.words.as_slice();
        if !is_wanted && !own.iter().any(|word| has_own_token(word.as_bytes())) {
            return Ok(());
        }
        let digits = self.program.digits(self, own)?;
        let digits = digits.as_str();
        let mut words = Vec::new(alloc);
        for word in own {
            let word = with_digits(alloc, word.as_bytes(), digits)?;
            words.push(String::from_str(alloc, utf8(alloc, word.as_slice())?)?)?;
        }
        command.words = words;
        if let Some(Wanted::Whole(text) | Wanted::Has(text)) = &mut command.out.wanted {
            *text = with_digits(alloc, text.as_slice(), digits)?;
        }
        Ok(())
    }

    /// Runs a command, and checks the run against what the case says.
    pub fn check(&self, command: &mut Command) -> Result<(), Problem> {
        let alloc = self.alloc();
        self.put_digits(command)?;
        if !command.has_expectation() {
            return Err(Problem::said(alloc, "a case without an expectation"));
        }
        let ran = self.run(command, command.out.manner)?;
        command.check_outputs(alloc, &ran)?;
        if command.stops {
            self.check_stops(command, ran.out.calls)?;
        }
        Ok(())
    }

    /// Runs the words, as on a terminal if notes are wanted. Fails if memory ran out.
    pub fn run(&self, command: &Command, manner: Manner) -> Result<Ran, Problem> {
        let mut out = Writer::new(self.alloc(), manner);
        let mut err = Writer::new(self.alloc(), command.err.manner);
        let (words, notes) = (command.words.as_slice(), command.notes.is_some());
        let status = usize::from(self.program.run(self, words, &mut out, &mut err, notes));
        if out.starved || err.starved || status == 3 && command.status != Some(3) {
            return Err(Problem::Memory);
        }
        Ok(Ran { status, out, err })
    }

    /// Runs the command twice more for each write to standard output: once the write fails, and
    /// once it takes nothing.
    pub fn check_stops(&self, command: &Command, calls: usize) -> Result<(), Problem> {
        let alloc = self.alloc();
        let page = match &command.out.wanted {
            Some(Wanted::Whole(page)) if calls > 0 => page.as_slice(),
            _ => return Err(Problem::said(alloc, "no whole text is written, so no write stops")),
        };
        for call in 1..calls.saturating_add(1) {
            for how in [Stop::Fails, Stop::TakesNothing] {
                let manner = command.out.manner.stopped(call, how);
                let ran = self.run(command, manner)?;
                check_cut(alloc, page, &ran.out, call)?;
                check_count(alloc, "status", Some(4), ran.status)?;
                let err = ran.err.taken.as_slice();
                check_text(alloc, "standard error", b"amcover: write\n", err)?;
            }
        }
        Ok(())
    }
}
