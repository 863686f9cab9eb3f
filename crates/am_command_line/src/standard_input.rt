//! Standard input, which one option of a command may name in place of a file.

use crate::commands::command_of;
use crate::options::{Argument, CommandRow, Form};
use clap::error::ErrorKind;
use clap::{ArgMatches, Error};
use std::alloc::{AllocError, Global};

/// The name of a file that stands for standard input.
pub const STANDARD_INPUT: &str = "-";

/// Fails with a usage fault if two options of a command name standard input, which can be read only
/// once.
pub(crate) fn check_standard_input(
    alloc: Global,
    row: &CommandRow<'_>,
    matches: &ArgMatches<'_>,
) -> Result<(), Error> {
    let mut first = None;
    for (argument, _) in row.takes {
        if let Some(option) = option_of_standard_input(argument, matches) {
            match first {
                None => first = Some(option),
                Some(other) => return Err(read_twice(alloc, row, other, option)?),
            }
        }
    }
    Ok(())
}

/// The name of an option and what the help calls its value, if the option takes a file and the
/// command line names standard input there.
fn option_of_standard_input<'a>(
    argument: &Argument<'a>,
    matches: &ArgMatches<'_>,
) -> Option<(&'a str, &'a str)> {
    let Form::Value(name, value) = argument.form else {
        return None;
    };
    let takes_file = value == "FILE" || value == "UNIVERSE";
    if takes_file && matches.get_str(argument.id) == Some(STANDARD_INPUT) {
        return Some((name, value));
    }
    None
}

/// The usage fault that names both options.
fn read_twice(
    alloc: Global,
    row: &CommandRow<'_>,
    one: (&str, &str),
    other: (&str, &str),
) -> Result<Error, AllocError> {
    let name = row.name;
    let command = command_of(alloc, row)?;
    let mut command = command.bin_name(format!(in alloc; "amcover {name}")?.as_str())?;
    let ((one, value), (other, kind)) = (one, other);
    let message = format!(in alloc;
        "'--{one} <{value}>' and '--{other} <{kind}>' cannot both be -, which is standard input"
    )?;
    command.error(ErrorKind::ArgumentConflict, message.as_str())
}
