//! The notes of a call that is done.

ghost use Rattle.std.specs.Prelude.{IfOk, string_bytes};
ghost use Rattle.am_notes.specs.NoteText.{AreNoteLines};

use crate::groups::{has_groups, may_have_alerts};
use crate::matchers::add_set_matchers;
use crate::notes::Notes;
use crate::questions::{add_question, asks_of_routes};
use crate::universes::add_incomplete;
use am_command_line::{Call, Request};
use am_config::{Config, read_config};
use am_files::Files;
use am_labels::{Space, parse_matchers};
use am_list_files::read_universe;
use am_questions::parse_question;
use std::alloc::{AllocError, Global};

const GROUPS: &str = "the file given as alerts looks like an export of groups, each of which is \
    read as one alert; amtool alert query -a -s -i -u -o json exports alerts";

/// Returns the notes of a call that is done: none or more lines, each with its line feed. Fails
/// only if memory runs out.
pub fn notes_of_answer(alloc: Global, call: &Call<'_>) -> Result<String, AllocError>
    ensures lines { IfOk result (λ text. AreNoteLines (string_bytes text)) }
{
    let mut notes = Notes::none(alloc);
    add_groups(alloc, &mut notes, call)?;
    match &call.request {
        Request::Ask { question, .. } => add_ask(alloc, &mut notes, call, question)?,
        Request::Dead | Request::Receivers => {
            let (space, config) = (
                space_of(alloc, call)?,
                config_of(alloc, call.config.as_deref())?,
            );
            add_incomplete(alloc, &mut notes, &space, &config)?;
        }
        Request::Compare { .. } => add_compare(alloc, &mut notes, call)?,
        Request::Explain { set } => add_explain(alloc, &mut notes, set.as_slice())?,
        Request::Alerts { question } => add_alerts(alloc, &mut notes, call, *question)?,
        _ => {}
    }
    notes.text(alloc)
}

/// Returns those of these notes that are written without a terminal too: that the alerts file has
/// groups of alerts. Fails only if memory runs out.
pub fn note_of_groups(alloc: Global, call: &Call<'_>) -> Result<String, AllocError>
    ensures lines { IfOk result (λ text. AreNoteLines (string_bytes text)) }
{
    let mut notes = Notes::none(alloc);
    add_groups(alloc, &mut notes, call)?;
    notes.text(alloc)
}

/// Adds a note if the alerts file has groups of alerts. `lint` and `alerts` refuse such a file, so
/// there is none after their answers.
fn add_groups(alloc: Global, notes: &mut Notes, call: &Call<'_>) -> Result<(), AllocError> {
    if matches!(call.request, Request::Lint { .. } | Request::Alerts { .. }) {
        return Ok(());
    }
    let Some(bytes) = &call.alerts else {
        return Ok(());
    };
    if may_have_alerts(bytes.as_slice()) && has_groups(alloc, bytes.as_slice())? {
        return notes.add_str(alloc, GROUPS);
    }
    Ok(())
}

/// Adds a note if the old and the new file have the same bytes.
fn add_compare(alloc: Global, notes: &mut Notes, call: &Call<'_>) -> Result<(), AllocError> {
    if call.old.as_deref() == call.new.as_deref() {
        notes.add_str(alloc, "--old and --new are the same file, byte for byte")?;
    }
    Ok(())
}

fn add_ask(
    alloc: Global,
    notes: &mut Notes,
    call: &Call<'_>,
    text: &str,
) -> Result<(), AllocError> {
    let (space, config) = (
        space_of(alloc, call)?,
        config_of(alloc, call.config.as_deref())?,
    );
    let question = parse_question(alloc, text, &config).map_err(|_| AllocError)?;
    add_question(alloc, notes, call, text, Some(space.universe()), &question)?;
    if asks_of_routes(&question) {
        add_incomplete(alloc, notes, &space, &config)?;
    }
    Ok(())
}

fn add_alerts(
    alloc: Global,
    notes: &mut Notes,
    call: &Call<'_>,
    question: Option<&str>,
) -> Result<(), AllocError> {
    let Some(text) = question else {
        return Ok(());
    };
    let config = config_of(alloc, call.config.as_deref())?;
    let question = parse_question(alloc, text, &config).map_err(|_| AllocError)?;
    add_question(alloc, notes, call, text, None, &question)
}

fn add_explain(alloc: Global, notes: &mut Notes, words: &[&str]) -> Result<(), AllocError> {
    for word in words {
        // One of several words need not be a list by itself, as `note=a,b`.
        if let Ok(matchers) = parse_matchers(alloc, word) {
            add_set_matchers(alloc, notes, &matchers, word)?;
        }
    }
    Ok(())
}

// A call that is done has read its inputs before, so reading them again fails only if memory runs
// out.

fn space_of(alloc: Global, call: &Call<'_>) -> Result<Space, AllocError> {
    let bytes = call.universe.as_deref().unwrap_or(&[]);
    read_universe(alloc, bytes).map_err(|_| AllocError)
}

/// The configuration of a file, or that of a call without one.
pub(crate) fn config_of(alloc: Global, config: Option<&[u8]>) -> Result<Config, AllocError> {
    let files = Files {
        config,
        silences: None,
        alerts: None,
        at: None,
    };
    read_config(alloc, files.config()).map_err(|_| AllocError)
}
