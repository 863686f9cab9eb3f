//! Checks what a universe lacks to stand for every alert.

ghost use Rattle.std.specs.Prelude.{◌≡◌, map, option_map, string_bytes, IfOk};
ghost use Rattle.am_eval.specs.QuestionView.{question_view};
ghost use Rattle.am_files.specs.Promise.{IsKept};
ghost use Rattle.am_universe_command.specs.Universes.{IsCheckOf, check_promise};

use crate::UniverseInputs;
use crate::asked_labels::labels_asked;
use crate::check_lines::check_report;
use crate::read_inputs::{ReadInputs, read_inputs};
use am_asked::equal_matchers_of;
use am_classes::Alphabet;
use am_complete::label_states;
use am_eval::World;
use am_first_sets::first_possible;
use am_list_files::Alerts;
use am_report_texts::{Form, written};
use am_universe::{Fault, Sink, answer_of_write, put_str};
use std::alloc::{AllocError, Global};

/// Writes whether a universe stands for every alert, and what it lacks.
///
/// There is a line for each label of the universe and for each other label that matchers ask about.
/// Then come the number of label sets, whether all of them are impossible, and whether anything is
/// missing. The matchers are those of the files, of the questions and of the impossible lists; with
/// `routes`, those of silences and inhibition rules do not count. A text need not be in the
/// universe if it is not over `alphabet`, or if an impossible list that asks about its label alone
/// matches it. All input is read and all results are found before the first byte is written.
///
/// Fails with the first fault of the inputs, as [`universe`](crate::universe()) does, or with
/// `Write`. `Memory` may come at any point. After any fault but `Write` the sink is unchanged;
/// after `Write` it has taken a prefix of the text.
pub fn check_universe<W: Sink>(
    alloc: Global,
    inputs: &UniverseInputs<'_>,
    routes: bool,
    alphabet: Alphabet,
    out: &mut W,
) -> Result<(), Fault>
    // What each line says is true. If nothing is missing, the space is complete.
    ensures kept { IsKept (check_promise alphabet inputs.now routes)
        W.taken W.failures out.old out.new result }
{
    let read = read_inputs(alloc, inputs)?;
    let alerts = alerts_if_any(inputs, &read.world);
    let Ok(text) = checked_text(alloc, alphabet, &read, alerts, routes) else {
        return Err(Fault::memory(alloc));
    };
    answer_of_write(alloc, put_str(out, text.as_str()))
}

/// Makes the text that says what a space lacks for the inputs. The alerts are those that fire, if
/// they are known. Fails only if memory runs out.
fn checked_text(
    alloc: Global,
    alphabet: Alphabet,
    read: &ReadInputs,
    alerts: Option<&Alerts>,
    routes: bool,
) -> Result<String, AllocError>
    ensures { IfOk result (λ text. IsCheckOf alphabet read.now.space read.now.world
        (map question_view read.now.questions.items) (option_map (λ a. a.now) alerts.entry) routes
        (string_bytes text)) }
{
    let (space, world) = (&read.space, &read.world);
    let equal = equal_matchers_of(alloc, world)?;
    let asked = labels_asked(alloc, read, equal.as_slice(), routes)?;
    let states = label_states(alloc, alphabet, space, asked.as_slice(), alerts)?;
    let all_impossible = first_possible(alloc, space)?.is_none();
    let report = check_report(alloc, space.universe(), all_impossible, states.as_slice())?;
    let text = written(alloc, Form::Lines, &report)?;
    Ok(text)
}

/// The alerts of a world, if there is a file of alerts.
fn alerts_if_any<'w>(inputs: &UniverseInputs<'_>, world: &'w World) -> Option<&'w Alerts>
    ensures { option_map (λ a. a.now) result
        ≡ option_map (λ file. world.now.alerts) inputs.now.files.alerts }
{
    let files = inputs.files;
    files.alerts.and(Some(world.alerts()))
}
