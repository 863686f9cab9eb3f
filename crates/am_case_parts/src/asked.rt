//! What a command line of `ask` asks for, and over which files.

ghost use Rattle.std.specs.Prelude.{IfOk};
ghost use Rattle.am_universe.specs.Universe.{sizes};
ghost use Rattle.am_search.specs.Start.{IsStart};

use crate::texts::Refusal;
use am_case_runner::Problem;
use am_command_line::{Request, parse_command_line};
use am_files::Files;
use am_questions::{AcceptedInputs, fingerprint, read_inputs};
use am_search::Page;
use std::alloc::Global;
use std::{fs, rt};

/// A question, the token at which the answers begin, and the files that it is asked over.
#[derive(Drop)]
struct Asked<'a> {
    universe: Vec<u8>,
    config: Option<Vec<u8>>,
    silences: Option<Vec<u8>>,
    alerts: Option<Vec<u8>>,
    at: Option<&'a str>,
    question: &'a str,
    after: Option<&'a str>,
}

impl<'a> Asked<'a> {
    /// Reads a command line, with the program's name, and the files that it names.
    fn read<R: rt::Files + AllocGlobal>(
        files: &R,
        words: &'a [String],
    ) -> Result<Asked<'a>, Problem> {
        let alloc = files.alloc();
        let Ok(line) = parse_command_line(alloc, words) else {
            return Err(Problem::said(alloc, "this is no command line"));
        };
        let Request::Ask {
            question,
            after,
            ..
        } = line.request
        else {
            return Err(Problem::said(alloc, "this command line asks no question"));
        };
        Ok(Asked {
            universe: read_file(files, line.universe.unwrap_or(""))?,
            config: read_if_any(files, line.config)?,
            silences: read_if_any(files, line.silences)?,
            alerts: read_if_any(files, line.alerts)?,
            at: line.at,
            question,
            after,
        })
    }

    fn files(&self) -> Files<'_> {
        Files {
            config: self.config.as_deref(),
            silences: self.silences.as_deref(),
            alerts: self.alerts.as_deref(),
            at: self.at,
        }
    }

    /// Reads the inputs, and fails with their fault.
    fn inputs(&self, alloc: Global) -> Result<AcceptedInputs, Refusal>
        ensures start { IfOk result (λ accepted.
            IsStart (sizes accepted.space.labels) accepted.start) }
    {
        let page = Page {
            after: self.after,
            limit: None,
            steps: None,
        };
        let universe = self.universe.as_slice();
        Ok(read_inputs(alloc, universe, &self.files(), self.question, &page)?)
    }
}

/// Reads the inputs of the command line of `ask` that goes on with these words, but for the first
/// ones.
pub fn read_words<R: rt::Files + AllocGlobal>(
    files: &R,
    words: &[String],
    skipped: usize,
) -> Result<AcceptedInputs, Refusal>
    ensures start { IfOk result (λ accepted.
        IsStart (sizes accepted.space.labels) accepted.start) }
{
    let alloc = files.alloc();
    let mut line = Vec::new(alloc);
    for word in ["amcover", "ask"] {
        line.push(String::from_str(alloc, word)?)?;
    }
    for word in words.iter().skip(skipped) {
        line.push(word.clone()?)?;
    }
    Asked::read(files, line.as_slice())?.inputs(alloc)
}

/// Returns the digits for which `H` stands in a command line that asks a question.
pub fn digits_of_command<R: rt::Files + AllocGlobal>(
    files: &R,
    words: &[String],
) -> Result<String, Problem> {
    let asked = Asked::read(files, words)?;
    let own = fingerprint(asked.universe.as_slice(), &asked.files(), asked.question);
    Ok(hex::encode(files.alloc(), own)?)
}

/// Returns the bytes of a file.
pub fn read_file<R: rt::Files + AllocGlobal>(files: &R, path: &str) -> Result<Vec<u8>, Problem> {
    let read = fs::read(files, path);
    read.map_err(|error| Problem::of(files.alloc(), &error, "no such file"))
}

/// Returns the bytes of a file, if one is named.
fn read_if_any<R: rt::Files + AllocGlobal>(
    files: &R,
    path: Option<&str>,
) -> Result<Option<Vec<u8>>, Problem> {
    path.map(|path| read_file(files, path)).transpose()
}
