//! Tables: command lines that lack a text, and a line for each text with what they give for it.

use crate::command::{Command, Ran, Wanted, check_text};
use crate::inserts::{Named, filled};
use crate::lines::{Item, Line, replaced, split_at_last, utf8};
use crate::problem::{Problem, Tally};
use crate::program::Program;
use crate::script::Definitions;
use crate::shell_words::words;
use crate::stage::Stage;
use crate::writer::Manner;
use std::alloc::Global;
use std::rt::Files;

/// A command line that a text completes.
#[derive(Drop)]
struct Heading {
    /// The words, with `%` where the text stands.
    words: Vec<String>,
    /// Whether the text goes on behind them, as ` ..` at the end says.
    is_open: bool,
}

impl Heading {
    /// Whether a text changes the command line.
    fn has_place(&self) -> bool {
        self.is_open || self.words.iter().any(|word| word.contains('%'))
    }

    /// The words of the command line that a text completes.
    fn completed(&self, alloc: Global, text: &[u8]) -> Result<Vec<String>, Problem> {
        let mut completed = Vec::new(alloc);
        for word in &self.words {
            let word = replaced(alloc, word.as_bytes(), b"%", text)?;
            completed.push(String::from_str(alloc, utf8(alloc, word.as_slice())?)?)?;
        }
        if self.is_open {
            for word in words(alloc, &[], text)? {
                completed.push(word)?;
            }
        }
        Ok(completed)
    }
}

/// A table: its command lines, and its lines.
#[derive(Drop)]
pub struct Table<'a> {
    headings: Vec<Heading>,
    /// Whether each proper prefix of a text completes the command lines, and not the text itself.
    has_prefixes: bool,
    /// Whether the command lines are also run with writers that stop.
    stops: bool,
    rows: Vec<Line<'a>>,
}

impl<'a> Table<'a> {
    /// Makes a table without command lines and lines.
    pub fn new(alloc: Global) -> Table<'a> {
        Table {
            headings: Vec::new(alloc),
            has_prefixes: false,
            stops: false,
            rows: Vec::new(alloc),
        }
    }

    /// Takes an item that says more about the table. Returns `false` for any other item.
    pub fn take(
        &mut self,
        alloc: Global,
        texts: &[Named],
        item: &Item<'a>,
    ) -> Result<bool, Problem> {
        let line = item.head.text;
        if !self.rows.is_empty() {
            return Ok(false);
        }
        if line == b"each proper prefix".as_slice() && !self.headings.is_empty() {
            self.has_prefixes = true;
        } else if line == b"writer stops at each call".as_slice() && !self.headings.is_empty() {
            self.stops = true;
        } else if let Some(command) = line.strip_prefix(b"each ") {
            let (line, is_open) = match command.strip_suffix(b" ..") {
                Some(line) => (line, true),
                None => (command, false),
            };
            let words = words(alloc, texts, line)?;
            self.headings.push(Heading { words, is_open })?;
        } else {
            return Ok(false);
        }
        for line in &item.body {
            self.rows.push(*line)?;
        }
        Ok(true)
    }
}

/// A line of a table, cut into its text and the result that is wanted. All inserts are replaced.
#[derive(Drop)]
struct Case {
    number: usize,
    text: Vec<u8>,
    result: Vec<u8>,
}

fn case_of(alloc: Global, texts: &[Named], row: &Line<'_>) -> Result<Case, Problem> {
    let Some((text, result)) = split_at_last(row.text, b" => ") else {
        return Err(Problem::about(alloc, "a case without an expectation", row.text));
    };
    Ok(Case {
        number: row.number,
        text: filled(alloc, texts, text)?,
        result: filled(alloc, texts, result)?,
    })
}

/// What a table is run over.
#[derive(Drop)]
pub struct Ground<'s, R, P> {
    pub host: &'s R,
    pub program: &'s P,
    pub known: &'s Definitions,
}

impl<'s, R: Files + AllocGlobal, P: Program> Ground<'s, R, P> {
    /// Runs the lines of a table, and counts them.
    pub fn run_table(&self, table: &Table<'_>, tally: &mut Tally) -> Result<(), Problem> {
        let alloc = self.host.alloc();
        if table.rows.is_empty() {
            return Err(Problem::said(alloc, "a table without a case"));
        }
        for heading in &table.headings {
            if !heading.has_place() && self.known.templates.is_empty() {
                return Err(Problem::said(alloc, "no % for the text"));
            }
            for row in &table.rows {
                match case_of(alloc, self.known.texts.as_slice(), row) {
                    Ok(case) => self.run_case(table, heading, &case, tally)?,
                    Err(problem) => tally.note(row.number, problem)?,
                }
            }
        }
        Ok(())
    }

    /// Runs a line of a table, with its text or with each proper prefix of it.
    fn run_case(
        &self,
        table: &Table<'_>,
        heading: &Heading,
        case: &Case,
        tally: &mut Tally,
    ) -> Result<(), Problem> {
        let length = case.text.len();
        if length == 0 && table.has_prefixes {
            let none = Problem::said(self.host.alloc(), "the empty text has no proper prefix");
            return Ok(tally.count(case.number, Err(none))?);
        }
        if !tally.is_asked_for(case.number) {
            return Ok(());
        }
        let (least, end) = match table.has_prefixes {
            true => (0, length),
            false => (length, length.saturating_add(1)),
        };
        for length in least..end {
            let text = case.text.as_slice().get(..length).unwrap_or(b"");
            let outcome = self.check(heading, text, case.result.as_slice(), table.stops);
            tally.count(case.number, outcome)?;
        }
        Ok(())
    }

    /// Checks that the command line that a text completes gives what is wanted.
    fn check(
        &self,
        heading: &Heading,
        text: &[u8],
        wanted: &[u8],
        stops: bool,
    ) -> Result<(), Problem> {
        let alloc = self.host.alloc();
        let mut made = Vec::new(alloc);
        for template in &self.known.templates {
            made.push(Named {
                name: Vec::from_slice(alloc, template.name.as_slice())?,
                text: replaced(alloc, template.text.as_slice(), b"%", text)?,
            })?;
        }
        let stage = Stage {
            host: self.host,
            program: self.program,
            made: made.as_slice(),
            files: self.known.files.as_slice(),
            clock_fails: false,
        };
        let words = heading.completed(alloc, text)?;
        if words.first().is_some_and(|name| name.as_str() == "amcover") {
            return stage.check_line(words, wanted, stops);
        }
        if stops {
            return Err(Problem::said(alloc, "this table writes to no writer"));
        }
        match self.program.call(&stage, words.as_slice())? {
            Some(found) => check_result(alloc, wanted, found.as_slice()),
            None => Err(Problem::said(alloc, "no part of the program has this name")),
        }
    }
}

impl<'s, R: Files + AllocGlobal, P: Program> Stage<'s, R, P> {
    /// Checks that a command line of the program gives what is wanted and, if `stops`, also runs it
    /// with writers that stop.
    fn check_line(&self, words: Vec<String>, wanted: &[u8], stops: bool) -> Result<(), Problem> {
        let alloc = self.alloc();
        let mut command = Command::new(0, words);
        command.out.wanted = Some(Wanted::Whole(Vec::from_slice(alloc, wanted)?));
        self.put_digits(&mut command)?;
        let ran = self.run(&command, Manner::WHOLE)?;
        let found = given(alloc, &ran)?;
        if let Some(Wanted::Whole(wanted)) = &command.out.wanted {
            check_result(alloc, wanted.as_slice(), found.as_slice())?;
        }
        if stops {
            let calls = ran.out.calls;
            command.out.wanted = Some(Wanted::Whole(ran.out.taken));
            self.check_stops(&command, calls)?;
        }
        Ok(())
    }
}

/// Checks that a result is the one that is wanted. `ok` alone wants any answer.
fn check_result(alloc: Global, wanted: &[u8], found: &[u8]) -> Result<(), Problem> {
    if wanted == b"ok".as_slice() && found.starts_with(b"ok:") {
        return Ok(());
    }
    check_text(alloc, "result", wanted, found)
}

/// What a run gave, in one line: `ok:` and the lines of standard output, each behind a blank and
/// without its indent; or what standard error has behind `amcover: `. Fails if the run wrote to
/// both.
fn given(alloc: Global, ran: &Ran) -> Result<Vec<u8>, Problem> {
    let (out, err) = (ran.out.taken.as_slice(), ran.err.taken.as_slice());
    if ran.status != 0 && ran.status != 5 {
        check_text(alloc, "standard output", b"", out)?;
        let line = err.strip_suffix(b"\n").unwrap_or(err);
        return Ok(Vec::from_slice(alloc, line.strip_prefix(b"amcover: ").unwrap_or(line))?);
    }
    check_text(alloc, "standard error", b"", err)?;
    let mut text = Vec::from_slice(alloc, b"ok:")?;
    for line in out.split(|byte| *byte == b'\n') {
        text.push(b' ')?;
        text.extend_from_slice(line.strip_prefix(b"  ").unwrap_or(line))?;
    }
    // What stands behind the last line feed is empty.
    let _ = text.pop();
    Ok(text)
}
