//! The texts that parts give, and why they give none.

use am_case_runner::Problem;
use am_universe::{Choice, Fault, Kind, Out, write_fault};
use std::alloc::{AllocError, AllocFailed, Global};

/// Why a part gives no answer.
#[derive(Drop)]
pub enum Refusal {
    /// The case is wrong, or memory ran out.
    Wrong(Problem),
    /// The input has this fault.
    Fault(Fault),
    /// The input has a fault of this kind.
    Kind(Kind),
}

impl Refusal {
    /// The refusal of a case that is wrong, in these words.
    pub fn wrong(alloc: Global, words: &str) -> Refusal {
        Refusal::Wrong(Problem::said(alloc, words))
    }

    /// Returns what the case gives then: the pointer of the fault and its word, as the program
    /// writes them, or the word of the kind.
    pub fn text(self, alloc: Global) -> Result<Vec<u8>, Problem> {
        match self {
            Refusal::Wrong(problem) => Err(problem),
            // All that is written here goes to memory, so a failed write means that memory ran out.
            Refusal::Kind(Kind::Memory | Kind::Write) => Err(Problem::Memory),
            Refusal::Kind(kind) => Ok(Vec::from_slice(alloc, kind.text().as_bytes())?),
            Refusal::Fault(fault) => text_of_fault(alloc, &fault),
        }
    }
}

fn text_of_fault(alloc: Global, fault: &Fault) -> Result<Vec<u8>, Problem> {
    let mut line = Out::new(Vec::new(alloc));
    if write_fault(fault, &mut line).is_err() || matches!(fault.kind, Kind::Memory) {
        return Err(Problem::Memory);
    }
    let line = line.into_inner();
    let text = line.as_slice();
    let text = text.strip_prefix(b"amcover: ").unwrap_or(text);
    Ok(Vec::from_slice(alloc, text.strip_suffix(b"\n").unwrap_or(text))?)
}

impl From<Problem> for Refusal {
    fn from(problem: Problem) -> Refusal {
        Refusal::Wrong(problem)
    }
}

impl From<Fault> for Refusal {
    fn from(fault: Fault) -> Refusal {
        Refusal::Fault(fault)
    }
}

impl From<Kind> for Refusal {
    fn from(kind: Kind) -> Refusal {
        Refusal::Kind(kind)
    }
}

impl From<AllocError> for Refusal {
    fn from(_error: AllocError) -> Refusal {
        Refusal::Wrong(Problem::Memory)
    }
}

impl<T: Drop> From<AllocFailed<T>> for Refusal {
    fn from(_error: AllocFailed<T>) -> Refusal {
        Refusal::Wrong(Problem::Memory)
    }
}

/// Makes an output that begins with these words.
pub fn begun(alloc: Global, words: &str) -> Result<Out<Vec<u8>>, AllocError> {
    Ok(Out::new(Vec::from_slice(alloc, words.as_bytes())?))
}

/// Adds a blank and the positions of a choice, separated by `.`, if it has any.
pub fn add_positions(choice: &Choice, text: &mut String) -> Result<(), AllocError> {
    for i in 0..choice.len() {
        text.push(if i > 0 { '.' } else { ' ' })?;
        let position = choice.get(i);
        write!(text, "{position}")?;
    }
    Ok(())
}

/// A word, or the empty one if there are not so many.
pub fn word(words: &[String], i: usize) -> &str {
    match words.get(i) {
        Some(word) => word.as_str(),
        None => "",
    }
}
