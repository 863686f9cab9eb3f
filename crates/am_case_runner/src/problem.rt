//! Why a case is wrong, or a file is not a file of cases, and how many cases are wrong.

use std::alloc::{AllocError, AllocFailed, Global};
use std::io;
use std::io::ErrorKind;

/// Why a case is wrong.
#[derive(Drop)]
pub enum Problem {
    /// Memory ran out.
    Memory,
    /// What is wrong, in words.
    Said(String),
}

impl Problem {
    /// The problem with these words, or `Memory` if memory ran out for them.
    pub fn of_words(words: Result<String, AllocError>) -> Problem {
        match words {
            Ok(words) => Problem::Said(words),
            Err(_) => Problem::Memory,
        }
    }

    /// The problem with these words.
    pub fn said(alloc: Global, words: &str) -> Problem {
        Problem::of_words(String::from_str(alloc, words))
    }

    /// The problem with these words, or `Memory` if the error says that memory ran out.
    pub fn of(alloc: Global, error: &io::Error, words: &str) -> Problem {
        if error.kind() == ErrorKind::OutOfMemory {
            return Problem::Memory;
        }
        Problem::said(alloc, words)
    }

    /// The problem with these words, and the text that they are about.
    pub fn about(alloc: Global, words: &str, text: &[u8]) -> Problem {
        Problem::of_words(about(alloc, words, text))
    }

    /// The problem that a part is not what was expected. Its words show both.
    pub fn differs(alloc: Global, part: &str, expected: &[u8], found: &[u8]) -> Problem {
        Problem::of_words(differs(alloc, part, expected, found))
    }
}

impl From<AllocError> for Problem {
    fn from(_error: AllocError) -> Problem {
        Problem::Memory
    }
}

impl<T: Drop> From<AllocFailed<T>> for Problem {
    fn from(_error: AllocFailed<T>) -> Problem {
        Problem::Memory
    }
}

fn about(alloc: Global, words: &str, text: &[u8]) -> Result<String, AllocError> {
    let text = shown(alloc, text)?;
    format!(in alloc; "{words}: {text}")
}

fn differs(alloc: Global, part: &str, expected: &[u8], found: &[u8]) -> Result<String, AllocError> {
    let expected = shown(alloc, expected)?;
    let found = shown(alloc, found)?;
    format!(in alloc; "{part}: expected\n  {expected}\n  and found\n  {found}")
}

/// The most bytes of a text that are shown.
const MOST_SHOWN: usize = 2000;

fn shown(alloc: Global, text: &[u8]) -> Result<String, AllocError> {
    String::from_utf8_lossy(alloc, text.get(..MOST_SHOWN).unwrap_or(text))
}

/// The number of cases, and a line for each wrong one.
#[derive(Drop)]
pub struct Tally {
    /// The file whose cases are counted.
    name: String,
    /// The one line that is asked for, or `None` for all of them.
    only: Option<usize>,
    pub cases: usize,
    pub wrong: usize,
    /// How many cases had no outcome because memory ran out.
    pub starved: usize,
    pub report: String,
}

impl Tally {
    /// Makes a tally without cases for the file of this name.
    pub fn new(alloc: Global, name: &str, only: Option<usize>) -> Result<Tally, AllocError> {
        Ok(Tally {
            name: String::from_str(alloc, name)?,
            only,
            cases: 0,
            wrong: 0,
            starved: 0,
            report: String::new(alloc),
        })
    }

    /// Whether the case of this line is asked for.
    pub fn is_asked_for(&self, number: usize) -> bool {
        self.only.is_none_or(|only| only == number)
    }

    /// Counts a case, if it is asked for, and reports what is wrong with it.
    pub fn count(&mut self, number: usize, outcome: Result<(), Problem>) -> Result<(), AllocError> {
        if !self.is_asked_for(number) {
            return Ok(());
        }
        self.cases = self.cases.saturating_add(1);
        match outcome {
            Ok(()) => {}
            Err(Problem::Memory) => self.starved = self.starved.saturating_add(1),
            Err(Problem::Said(words)) => {
                self.wrong = self.wrong.saturating_add(1);
                let name = self.name.as_str();
                write!(self.report, "{name}:{number}: {words}\n")?;
            }
        }
        Ok(())
    }

    /// Adds the counts of another tally.
    pub fn add(&mut self, other: &Tally) {
        self.cases = self.cases.saturating_add(other.cases);
        self.wrong = self.wrong.saturating_add(other.wrong);
        self.starved = self.starved.saturating_add(other.starved);
    }

    /// Counts a line that is itself wrong. Fails if memory ran out there, since the lines after it
    /// would then be read differently.
    pub fn note(&mut self, number: usize, problem: Problem) -> Result<(), Problem> {
        match problem {
            Problem::Memory => Err(Problem::Memory),
            said => Ok(self.count(number, Err(said))?),
        }
    }

    /// Ends the report with a line that counts the cases. In a file of mistakes each case must be
    /// wrong, so the right ones are counted as wrong.
    pub fn end(&mut self, is_mistaken: bool) -> Result<(), AllocError> {
        if is_mistaken {
            self.wrong = self.cases.saturating_sub(self.wrong);
        }
        let (name, cases, wrong) = (self.name.as_str(), self.cases, self.wrong);
        write!(self.report, "{name}: {cases} cases, {wrong} wrong")
    }
}
