//! The commands as `clap` takes them, made from the table.

use crate::options::{Argument, CommandRow, Form, Need, OF_EACH_COMMAND};
use crate::reports::REPORTS;
use crate::table::{COMMANDS, PROGRAM};
use clap::builder::ValueParser;
use clap::{Arg, ArgAction, Command};
use std::alloc::{AllocError, Global};

/// The greatest number that an option takes.
const MAX_NUMBER: u64 = 4294967295;

/// The program with its commands.
pub(crate) fn command<'a>(alloc: Global) -> Result<Command<'a>, AllocError> {
    let program = Command::new(alloc, PROGRAM.name)
        .about(PROGRAM.about)
        .after_long_help(PROGRAM.help);
    let program = with_settings(program)?;
    let program = with_commands(alloc, program, &REPORTS)?;
    with_commands(alloc, program, &COMMANDS)
}

/// The row of the command of this name.
pub(crate) fn row_of(name: &str) -> Option<CommandRow<'static>> {
    let mut rows = REPORTS.iter().chain(COMMANDS.iter());
    rows.find(|row| row.name == name).copied()
}

/// Gives the program these commands.
fn with_commands<'a>(
    alloc: Global,
    program: Command<'a>,
    rows: &[CommandRow<'a>],
) -> Result<Command<'a>, AllocError> {
    let mut program = program;
    for row in rows {
        program = program.subcommand(command_of(alloc, row)?)?;
    }
    Ok(program)
}

/// Gives the program its version and its name, and says that a command has to follow.
fn with_settings<'a>(command: Command<'a>) -> Result<Command<'a>, AllocError> {
    needs_subcommand(command.version("0.1.0")).bin_name("amcover")
}

fn needs_subcommand<'a>(command: Command<'a>) -> Command<'a> {
    command
        .arg_required_else_help(true)
        .subcommand_required(true)
}

/// The command of a row, with what it takes.
pub(crate) fn command_of<'a>(
    alloc: Global,
    row: &CommandRow<'a>,
) -> Result<Command<'a>, AllocError> {
    let command = Command::new(alloc, row.name)
        .about(row.about)
        .after_long_help(row.help);
    let command = with_arguments(alloc, command, row.takes)?;
    with_arguments(alloc, command, &OF_EACH_COMMAND)
}

/// Gives a command these arguments.
fn with_arguments<'a>(
    alloc: Global,
    command: Command<'a>,
    arguments: &[(Argument<'a>, Need<'a>)],
) -> Result<Command<'a>, AllocError> {
    let mut command = command;
    for (argument, need) in arguments {
        command = command.arg(with_need(with_form(alloc, argument), *need)?)?;
    }
    Ok(command)
}

fn with_need<'a>(arg: Arg<'a>, need: Need<'a>) -> Result<Arg<'a>, AllocError> {
    match need {
        Need::Optional => Ok(arg),
        Need::Required => Ok(arg.required(true)),
        Need::Without(other) => arg.conflicts_with(other),
    }
}

fn with_form<'a>(alloc: Global, argument: &Argument<'a>) -> Arg<'a> {
    let arg = Arg::new(alloc, argument.id).help(argument.help);
    match argument.form {
        Form::Flag(name) => arg.long(name).action(ArgAction::SetTrue),
        Form::Value(name, value) => arg.long(name).value_name(value),
        Form::Values(name, value) => arg.long(name).value_name(value).action(ArgAction::Append),
        Form::Number(name, least) => with_least(arg.long(name).value_name("N"), least),
        Form::Word(value) => arg.value_name(value),
        Form::Words(value) => arg
            .value_name(value)
            .num_args(1..)
            .action(ArgAction::Append),
    }
}

fn with_least<'a>(arg: Arg<'a>, least: u64) -> Arg<'a> {
    arg.value_parser(ValueParser::unsigned(least, MAX_NUMBER))
}
