//! Notes on a universe that leaves out alerts.

use crate::notes::Notes;
use crate::sentences::{left_out, undeclarable, unproved};
use am_asked::asked_by_routes;
use am_classes::Alphabet;
use am_complete::{Completeness, LabelState, label_states};
use am_config::Config;
use am_labels::Space;
use std::alloc::{AllocError, Global};

/// Adds a note on the first label for which it is not proved that a universe stands for every
/// alert. Only labels that the routes of a configuration or the impossible lists ask about count,
/// and only alerts whose values are printable ASCII.
pub(crate) fn add_incomplete(
    alloc: Global,
    notes: &mut Notes,
    space: &Space,
    config: &Config,
) -> Result<(), AllocError> {
    for state in &states_by_routes(alloc, space, config)? {
        if let Some(note) = incompleteness(alloc, state)? {
            return notes.add(note);
        }
    }
    Ok(())
}

/// The state of each label that the universe declares, or that the routes or the impossible lists
/// ask about.
fn states_by_routes(
    alloc: Global,
    space: &Space,
    config: &Config,
) -> Result<Vec<LabelState>, AllocError> {
    let asked = asked_by_routes(alloc, config, &[], space.impossible())?;
    label_states(alloc, Alphabet::Ascii, space, asked.as_slice(), None)
}

/// The note on a label, unless the universe is complete for it, or no matcher asks about it.
fn incompleteness(alloc: Global, state: &LabelState) -> Result<Option<String>, AllocError> {
    let name = state.name.as_str();
    let note = match &state.completeness {
        Completeness::Complete(_) | Completeness::Unasked => return Ok(None),
        Completeness::Lacks(text) => left_out(alloc, name, text.as_str())?,
        Completeness::Undeclarable => undeclarable(alloc, name)?,
        Completeness::Unproved(_) => unproved(alloc, name)?,
    };
    Ok(Some(note))
}
