use crate::calling::make_call;
use crate::clock::instant_now;
use crate::groups::check_groups;
use crate::read_files::{Unread, read_files};
use am_command_line::{Call, CommandLine, NOW, NotesOption, Request, parse_command_line};
use am_notes::{note_of_groups, note_of_unread, notes_of_answer, notes_of_refusal};
use am_universe::{Fault, Kind, Out, Place, Terminal, report};
use clap::Error;
use clap::error::ErrorKind;
use std::alloc::{AllocError, Global};
use std::io::{BufWriter, ErrorKind as IoKind, IsTerminal, Write};
use std::process::ExitCode;
use std::rt::{Clock, Files};
use std::{env, io};

const DONE: u8 = 0;

/// The exit status of a usage fault.
const USAGE: u8 = 2;

/// The exit status if a call found something wrong, or a change.
const FOUND: u8 = 5;

/// How many bytes of output are buffered.
const BUFFER: usize = 65536;

/// Which notes a run writes: all, only the one on groups of alerts, or none.
#[derive(Clone, Copy, PartialEq, Eq)]
enum ShownNotes {
    All,
    OfGroups,
    None,
}

impl ShownNotes {
    fn of(option: NotesOption, on_terminal: bool) -> ShownNotes {
        match option {
            NotesOption::Always => ShownNotes::All,
            NotesOption::Never => ShownNotes::None,
            NotesOption::OnTerminal if on_terminal => ShownNotes::All,
            NotesOption::OnTerminal => ShownNotes::OfGroups,
        }
    }

    /// The same of a call that is refused for groups of alerts.
    fn with_groups(self) -> ShownNotes {
        match self {
            ShownNotes::OfGroups => ShownNotes::All,
            notes => notes,
        }
    }
}

/// Runs the program as where standard error is no terminal, and returns its exit status. `words` is
/// the command line, with the program's name first. Answers, help and the version go to `out`. A
/// fault is one line on `err`, and a usage fault is the message of `clap` there.
///
/// The exit status is 0 if all is done, 1 if an input was refused, 2 for a usage fault, 3 if memory
/// ran out, 4 if writing failed, and 5 if all is done and something wrong, or a change, was found.
pub fn run<R: Files + Input + Clock + AllocGlobal, W: Write + Drop, E: Write + Drop>(
    rt: &R,
    words: &[String],
    out: &mut W,
    err: &mut E,
) -> u8 {
    run_with_notes(rt, words, out, err, false)
}

/// Runs the program as [`run`] does or, if `notes` is set, as on a terminal. There notes are
/// written to `err` after all else, unless the command line has `--no-notes`. Elsewhere only the
/// one on groups of alerts is written, or all if it has `--notes`. Notes are lines that begin with
/// `note: ` and say what a person might miss. They change neither `out`, nor the line of a fault,
/// nor the exit status.
pub fn run_with_notes<R: Files + Input + Clock + AllocGlobal, W: Write + Drop, E: Write + Drop>(
    rt: &R,
    words: &[String],
    out: &mut W,
    err: &mut E,
    notes: bool,
) -> u8 {
    match parse_command_line(rt.alloc(), words) {
        Ok(line) => run_line(rt, line, out, err, notes),
        Err(error) => match show_clap_message(rt.alloc(), &error, out, err) {
            Ok(status) => status,
            Err(fault) => report(rt.alloc(), &fault, err),
        },
    }
}

/// Runs the program with the command line, the files and the streams of its process. A terminal
/// gets hidden characters as escapes, so that no text of a file can change it. A command line that
/// is not UTF-8 is a usage fault.
pub fn run_process(rt: &HostRuntime) -> ExitCode {
    let mut out = Terminal::new(Out::new(io::writer(rt)), rt.stdout().is_terminal());
    let notes = rt.stderr().is_terminal();
    let mut err = Terminal::new(Out::new(rt.stderr()), notes);
    let status = match arguments(rt) {
        Ok(words) => run_with_notes(rt, words.as_slice(), &mut out, &mut err, notes),
        Err(error) => refuse_arguments(&error, rt.alloc(), &mut err),
    };
    ExitCode::from(status)
}

/// The words of the command line, the program's name first.
fn arguments(rt: &HostRuntime) -> io::Result<Vec<String>> {
    Ok(env::args(rt)?.collect(rt.alloc())?)
}

/// Writes to `err` why the command line could not be read: memory ran out, or it is not UTF-8.
/// Returns the exit status.
fn refuse_arguments<E: Write>(error: &io::Error, alloc: Global, err: &mut E) -> u8 {
    if error.kind() == IoKind::OutOfMemory {
        return report(alloc, &Fault::memory(alloc), err);
    }
    let _ = writeln!(err, "error: the command line is not UTF-8");
    USAGE
}

/// Reads the files that a command line names, and does what it asks for. Returns the exit status.
fn run_line<'a, R: Files + Input + Clock + AllocGlobal, W: Write + Drop, E: Write + Drop>(
    rt: &R,
    line: CommandLine<'a, &'a str>,
    out: &mut W,
    err: &mut E,
    notes: bool,
) -> u8 {
    let alloc = rt.alloc();
    let notes = ShownNotes::of(line.notes, notes);
    let call = match read_files(rt, line) {
        Ok(call) => call,
        Err(unread) => return refuse_unread(alloc, &unread, err, notes),
    };
    let now = match now_if_asked(rt, &call) {
        Ok(now) => now,
        Err(fault) => return refuse(alloc, &call, &fault, err, notes),
    };
    let call = at_instant(call, now.as_deref());
    if let Err(fault) = check_groups(alloc, &call) {
        return refuse(alloc, &call, &fault, err, notes.with_groups());
    }
    match call_buffered(alloc, &call, out) {
        Ok(status) => {
            match notes {
                ShownNotes::All => write_notes(notes_of_answer(alloc, &call), err),
                ShownNotes::OfGroups => write_notes(note_of_groups(alloc, &call), err),
                ShownNotes::None => {}
            }
            status
        }
        Err(fault) => refuse(alloc, &call, &fault, err, notes),
    }
}

/// Writes why a call was refused and, if all notes are written, what may help. Returns the exit
/// status.
fn refuse<E: Write + Drop>(
    alloc: Global,
    call: &Call<'_>,
    fault: &Fault,
    err: &mut E,
    notes: ShownNotes,
) -> u8 {
    let status = report(alloc, fault, err);
    if notes == ShownNotes::All {
        write_notes(notes_of_refusal(alloc, call, fault), err);
    }
    status
}

/// The same as [`refuse`] for a file that could not be read, or if memory ran out for it.
fn refuse_unread<E: Write + Drop>(
    alloc: Global,
    unread: &Unread<'_>,
    err: &mut E,
    notes: ShownNotes,
) -> u8 {
    if unread.error.kind() == IoKind::OutOfMemory {
        return report(alloc, &Fault::memory(alloc), err);
    }
    let status = report(alloc, &Fault::at(alloc, Kind::Read, unread.place), err);
    if notes == ShownNotes::All {
        write_notes(note_of_unread(alloc, unread.path, &unread.error), err);
    }
    status
}

/// Writes notes, if there are any. Notes are not part of the answer: if memory ran out for them,
/// there are none, and a failure to write them is ignored.
fn write_notes<E: Write + Drop>(notes: Result<String, AllocError>, err: &mut E) {
    if let Ok(text) = notes {
        let _ = err.write_all(text.as_str().as_bytes());
    }
}

/// The text of the clock's instant, if a call asks for it. `ask` does not: the other pages of its
/// answer are asked for with the same words. A clock that cannot be read is a fault at the instant.
fn now_if_asked<R: Clock + AllocGlobal>(rt: &R, call: &Call<'_>) -> Result<Option<String>, Fault> {
    match call.request {
        Request::Ask { .. } => Ok(None),
        _ if call.at == Some(NOW) => match instant_now(rt) {
            Ok(now) => Ok(Some(now)),
            Err(kind) => Err(Fault::at(rt.alloc(), kind, Place::Instant)),
        },
        _ => Ok(None),
    }
}

/// The call at this instant, or at its own if there is none.
fn at_instant<'a>(call: Call<'a>, instant: Option<&'a str>) -> Call<'a> {
    let mut call = call;
    call.at = instant.or(call.at);
    call
}

/// Makes a call that writes to a buffer over the output. The buffer is flushed if the call
/// succeeds.
fn call_buffered<W: Write + Drop>(
    alloc: Global,
    call: &Call<'_>,
    out: &mut W,
) -> Result<u8, Fault> {
    let buffered = match BufWriter::with_capacity(alloc, BUFFER, out) {
        Ok(buffered) => buffered,
        Err(_) => return Err(Fault::memory(alloc)),
    };
    let mut sink = Out::new(buffered);
    let outcome = make_call(alloc, call, &mut sink);
    let mut buffered = sink.into_inner();
    let flushed = match &outcome {
        Ok(_) => buffered.flush().is_ok(),
        Err(_) => true,
    };
    // After a failure, what is left in the buffer is not written. Dropping the buffer would try to
    // write it.
    let _ = buffered.into_parts();
    let found = outcome?;
    if flushed {
        Ok(if found { FOUND } else { DONE })
    } else {
        Err(Fault::write(alloc))
    }
}

/// Writes the message of `clap`: help and the version to `out`, a usage fault to `err`.
fn show_clap_message<W: Write, E: Write>(
    alloc: Global,
    error: &Error,
    out: &mut W,
    err: &mut E,
) -> Result<u8, Fault> {
    if error.kind() == ErrorKind::OutOfMemory {
        return Err(Fault::memory(alloc));
    }
    if error.use_stderr() {
        let _ = write!(err, "{error}");
        return Ok(USAGE);
    }
    let written = write!(out, "{error}");
    if written.is_ok() && out.flush().is_ok() {
        Ok(DONE)
    } else {
        Err(Fault::write(alloc))
    }
}
