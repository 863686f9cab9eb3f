//! The notes of a call that was refused.

ghost use Rattle.std.specs.Prelude.{IfOk, string_bytes};
ghost use Rattle.am_notes.specs.NoteText.{AreNoteLines};

use crate::notes::Notes;
use crate::remedies::add_remedy;
use crate::sentences::unread_file;
use am_command_line::Call;
use am_universe::Fault;
use std::alloc::{AllocError, Global};
use std::io;

/// Returns the note on a file that could not be read, with its line feed. Fails only if memory runs
/// out.
pub fn note_of_unread(alloc: Global, path: &str, error: &io::Error) -> Result<String, AllocError>
    ensures lines { IfOk result (λ text. AreNoteLines (string_bytes text)) }
{
    let mut notes = Notes::none(alloc);
    notes.add(unread_file(alloc, path, error)?)?;
    notes.text(alloc)
}

/// Returns the notes of a call that was refused: at most one line, with its line feed. Fails only
/// if memory runs out.
pub fn notes_of_refusal(alloc: Global, call: &Call<'_>, fault: &Fault) -> Result<String, AllocError>
    ensures lines { IfOk result (λ text. AreNoteLines (string_bytes text)) }
{
    let mut notes = Notes::none(alloc);
    add_remedy(alloc, &mut notes, call, fault)?;
    notes.text(alloc)
}
