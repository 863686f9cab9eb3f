//! Commands: a command line, and what its run must write and return.

use crate::inserts::{Named, filled};
use crate::lines::{Item, Line, number, number_between, split_at_first, utf8};
use crate::problem::Problem;
use crate::shell_words::words;
use crate::writer::{Manner, Stop, Writer};
use std::alloc::Global;

/// What a stream must have.
#[derive(Drop)]
pub enum Wanted {
    /// Exactly this text.
    Whole(Vec<u8>),
    /// This text somewhere.
    Has(Vec<u8>),
    /// This number of lines.
    Lines(usize),
}

/// What a case says about standard output, or about standard error.
#[derive(Drop)]
pub struct Stream {
    /// What must be written to it. If nothing is said, it must be empty.
    pub wanted: Option<Wanted>,
    /// How many writes it must get, if the case says so.
    pub writes: Option<usize>,
    pub manner: Manner,
}

/// A command line, and what a case says about its run.
#[derive(Drop)]
pub struct Command {
    pub line: usize,
    pub words: Vec<String>,
    pub out: Stream,
    pub err: Stream,
    /// Whether the command is run again for each write to standard output, which then stops.
    pub stops: bool,
    /// The exit status that the run must have, which is 0 if the case does not say.
    pub status: Option<usize>,
    /// The notes that must end standard error, if the command is run as on a terminal.
    pub notes: Option<Vec<u8>>,
    /// Whether the clock cannot be read.
    pub clock_fails: bool,
}

/// What a run gave.
#[derive(Drop)]
pub struct Ran {
    pub status: usize,
    pub out: Writer,
    pub err: Writer,
}

/// Reads the command of an item, with the output that is below it.
pub fn read_command(alloc: Global, texts: &[Named], item: &Item<'_>) -> Result<Command, Problem> {
    let head = item.head.text.strip_prefix(b"$ ").unwrap_or(b"");
    let mut line = Vec::new(alloc);
    let count = whole_line(head, item.body.as_slice(), &mut line)?;
    let words = words(alloc, texts, line.as_slice())?;
    match words.first() {
        Some(name) if name.as_str() == "amcover" || name.as_str() == "./amcover" => {}
        _ => return Err(Problem::about(alloc, "no command of amcover", head)),
    }
    let lines = item.body.as_slice().get(count..).unwrap_or(&[]);
    let mut command = Command::new(item.head.number, words);
    if !lines.is_empty() {
        command.out.wanted = Some(Wanted::Whole(output(alloc, texts, lines)?));
    }
    Ok(command)
}

/// Joins the lines of a command line, each of which but the last ends with ` \`. Returns how many
/// of the lines below the first belong to it.
fn whole_line(head: &[u8], body: &[Line<'_>], line: &mut Vec<u8>) -> Result<usize, Problem> {
    line.extend_from_slice(head)?;
    for (i, next) in body.iter().enumerate() {
        if !line.as_slice().ends_with(b" \\") {
            return Ok(i);
        }
        let _ = line.pop();
        line.extend_from_slice(next.text)?;
    }
    Ok(body.len())
}

/// Returns the lines, each with a line feed, and with each insert replaced by what it stands for.
pub fn output(alloc: Global, texts: &[Named], lines: &[Line<'_>]) -> Result<Vec<u8>, Problem> {
    let mut raw = Vec::new(alloc);
    for line in lines {
        raw.extend_from_slice(line.text)?;
        raw.push(b'\n')?;
    }
    filled(alloc, texts, raw.as_slice())
}

impl Stream {
    fn new() -> Stream {
        Stream {
            wanted: None,
            writes: None,
            manner: Manner::WHOLE,
        }
    }

    /// Takes what a line says about its writer. Returns `false` if the words say nothing about a
    /// writer.
    fn take_writer(&mut self, words: &[u8]) -> bool {
        if words == b"fails at its flush".as_slice() {
            self.manner.flush_fails = true;
        } else if let Some(count) = number_between(words, b"takes ", b" bytes a call") {
            self.manner.step = count;
        } else if let Some(count) = number_between(words, b"fails after ", b" bytes") {
            self.manner.room = count;
        } else if let Some(call) = number_between(words, b"fails at call ", b"") {
            self.manner.stop = Some((call, Stop::Fails));
        } else if let Some(call) = number_between(words, b"takes nothing at call ", b"") {
            self.manner.stop = Some((call, Stop::TakesNothing));
        } else {
            return false;
        }
        true
    }
}

impl Command {
    /// Makes a command of which nothing is said yet.
    pub fn new(line: usize, words: Vec<String>) -> Command {
        Command {
            line,
            words,
            out: Stream::new(),
            err: Stream::new(),
            stops: false,
            status: None,
            notes: None,
            clock_fails: false,
        }
    }

    /// Takes an item that says more about the run. Returns `false` for any other item.
    pub fn take(
        &mut self,
        alloc: Global,
        texts: &[Named],
        item: &Item<'_>,
    ) -> Result<bool, Problem> {
        let line = item.head.text;
        if line == b"on a terminal".as_slice() {
            self.notes = Some(output(alloc, texts, item.body.as_slice())?);
            return Ok(true);
        }
        let is_taken = if line == b"writer stops at each call".as_slice() {
            self.stops = true;
            true
        } else if line == b"clock fails".as_slice() {
            self.clock_fails = true;
            true
        } else if let Some(words) = line.strip_prefix(b"writer ") {
            self.out.take_writer(words)
        } else if let Some(words) = line.strip_prefix(b"error writer ") {
            self.err.take_writer(words)
        } else if let Some((name, text)) = split_at_first(line, b": ") {
            self.take_expectation(utf8(alloc, name)?, filled(alloc, texts, text)?)?
        } else {
            false
        };
        if is_taken && !item.body.is_empty() {
            return Err(Problem::about(alloc, "nothing stands below this line", line));
        }
        Ok(is_taken)
    }

    /// Takes what the run must give, by its name. Returns `false` if nothing has this name.
    fn take_expectation(&mut self, name: &str, text: Vec<u8>) -> Result<bool, Problem> {
        let count = number(text.as_slice());
        let mut text = text;
        match name {
            "stdout" => self.out.wanted = Some(Wanted::Whole(text)),
            "stdout has" => self.out.wanted = Some(Wanted::Has(text)),
            "stderr has" => self.err.wanted = Some(Wanted::Has(text)),
            "stderr" => {
                text.push(b'\n')?;
                self.err.wanted = Some(Wanted::Whole(text));
            }
            "stdout lines" if count.is_some() => self.out.wanted = count.map(Wanted::Lines),
            "status" if count.is_some() => self.status = count,
            "writes" if count.is_some() => self.out.writes = count,
            "error writes" if count.is_some() => self.err.writes = count,
            _ => return Ok(false),
        }
        Ok(true)
    }

    /// Whether the case says anything about the outcome of the run.
    pub fn has_expectation(&self) -> bool {
        let is_said = self.out.wanted.is_some() || self.err.wanted.is_some();
        is_said || self.status.is_some() || self.notes.is_some()
    }

    /// Checks what a run has written, its exit status and the numbers of its writes.
    pub fn check_outputs(&self, alloc: Global, ran: &Ran) -> Result<(), Problem> {
        let notes = self.notes.as_deref().unwrap_or(b"");
        let err = ran.err.taken.as_slice();
        let Some(line) = err.strip_suffix(notes) else {
            return Err(Problem::differs(alloc, "notes", notes, err));
        };
        check_stream(alloc, "standard error", &self.err, line)?;
        check_stream(
            alloc,
            "standard output",
            &self.out,
            ran.out.taken.as_slice(),
        )?;
        check_count(alloc, "status", self.status.or(Some(0)), ran.status)?;
        check_count(alloc, "writes", self.out.writes, ran.out.calls)?;
        check_count(alloc, "error writes", self.err.writes, ran.err.calls)
    }
}

/// Checks that what was found in a stream is as wanted, or empty if nothing is said.
fn check_stream(alloc: Global, name: &str, stream: &Stream, found: &[u8]) -> Result<(), Problem> {
    match &stream.wanted {
        None => check_text(alloc, name, b"", found),
        Some(Wanted::Whole(text)) => check_text(alloc, name, text.as_slice(), found),
        Some(Wanted::Has(text)) if split_at_first(found, text.as_slice()).is_some() => Ok(()),
        Some(Wanted::Has(text)) => Err(Problem::differs(alloc, name, text.as_slice(), found)),
        Some(Wanted::Lines(count)) => {
            let lines = found.iter().filter(|byte| **byte == b'\n').count();
            check_count(alloc, name, Some(*count), lines)
        }
    }
}

/// Checks that the wanted text was found.
pub fn check_text(alloc: Global, name: &str, wanted: &[u8], found: &[u8]) -> Result<(), Problem> {
    if wanted == found {
        return Ok(());
    }
    Err(Problem::differs(alloc, name, wanted, found))
}

/// Checks that a writer stopped in this call and has taken a proper prefix of a text.
pub fn check_cut(alloc: Global, text: &[u8], writer: &Writer, call: usize) -> Result<(), Problem> {
    let taken = writer.taken.as_slice();
    if writer.calls == call && taken.len() < text.len() && text.starts_with(taken) {
        return Ok(());
    }
    Err(Problem::differs(alloc, "output cut short", text, taken))
}

/// Checks that a number is the wanted one, if one is wanted.
pub fn check_count(
    alloc: Global,
    name: &str,
    wanted: Option<usize>,
    found: usize,
) -> Result<(), Problem> {
    match wanted {
        Some(count) if count != found => {
            let words = format!(in alloc; "{name}: expected {count} and found {found}")?;
            Err(Problem::Said(words))
        }
        _ => Ok(()),
    }
}
