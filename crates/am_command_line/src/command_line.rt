use crate::commands::{command, row_of};
use crate::standard_input::check_standard_input;
use crate::table::{Request, request_of};
use clap::error::ErrorKind;
use clap::{ArgMatches, Error};
use std::alloc::Global;

/// The word of `--at` that stands for the clock's instant.
pub const NOW: &str = "now";

/// A command line: what it asks for, the files that it names, and the instant. The files are
/// optional, but for those that the request needs. `F` is the path of a file, or its bytes once it
/// is read.
#[derive(Drop)]
pub struct CommandLine<'a, F> {
    pub request: Request<'a>,
    /// The universe file, which may also be that of `--check` or `--from`.
    pub universe: Option<F>,
    pub config: Option<F>,
    pub old: Option<F>,
    pub new: Option<F>,
    pub silences: Option<F>,
    pub alerts: Option<F>,
    /// The file of alerting rules.
    pub rules: Option<F>,
    pub at: Option<&'a str>,
    /// Whether the report is to be JSON.
    pub json: bool,
    pub notes: NotesOption,
}

/// Whether notes are printed, by what the command line says.
#[derive(Clone, Copy, Debug, PartialEq, Eq)]
pub enum NotesOption {
    /// It says nothing: they are printed on a terminal.
    OnTerminal,
    Always,
    Never,
}

impl NotesOption {
    fn of(matches: &ArgMatches<'_>) -> NotesOption {
        if matches.get_flag("notes") {
            NotesOption::Always
        } else if matches.get_flag("no-notes") {
            NotesOption::Never
        } else {
            NotesOption::OnTerminal
        }
    }
}

/// A command line whose files are read.
pub type Call<'a> = CommandLine<'a, Vec<u8>>;

/// Reads a command line, whose first word is the program's name. The error has the text to show: a
/// usage fault, help or the version. Its kind is `OutOfMemory` if memory ran out.
pub fn parse_command_line<'a>(
    alloc: Global,
    words: &'a [String],
) -> Result<CommandLine<'a, &'a str>, Error> {
    let mut command = command(alloc)?;
    let matches = command.try_get_matches_from_mut(words)?;
    if let Some((name, matches)) = matches.subcommand()
        && let Some(row) = row_of(name)
        && let Some(request) = request_of(alloc, name, matches)?
    {
        check_standard_input(alloc, &row, matches)?;
        return Ok(CommandLine {
            request,
            universe: matches.get_str("universe").or(matches.get_str("from")),
            config: matches.get_str("config"),
            old: matches.get_str("old"),
            new: matches.get_str("new"),
            silences: matches.get_str("silences"),
            alerts: matches.get_str("alerts"),
            rules: matches.get_str("rules"),
            at: matches.get_str("at"),
            json: matches.get_flag("json"),
            notes: NotesOption::of(matches),
        });
    }
    Err(command.error(ErrorKind::MissingSubcommand, "a command is missing")?)
}
