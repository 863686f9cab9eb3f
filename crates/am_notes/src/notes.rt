//! The list of the notes of a call.

ghost use Rattle.std.specs.Prelude.{◌≡◌, ◌++◌, string_bytes, IfOk, OnOk};
ghost use Rattle.am_report_texts.specs.Lines.{is_unbroken};
ghost use Rattle.am_notes.specs.NoteText.{note_text, AreNoteLines};

use std::alloc::{AllocError, Global};

/// Notes, each without the `note: ` that its line begins with. No note occurs twice.
#[derive(Drop)]
pub(crate) struct Notes {
    notes: Vec<String>,
}

impl Notes {
    pub(crate) fn none(alloc: Global) -> Notes {
        Notes {
            notes: Vec::new(alloc),
        }
    }

    /// Adds a note, unless it is there already.
    pub(crate) fn add(&mut self, note: String) -> Result<(), AllocError> {
        if !self.has(note.as_str()) {
            self.notes.push(note)?;
        }
        Ok(())
    }

    /// Adds a note whose text is the same for all inputs.
    pub(crate) fn add_str(&mut self, alloc: Global, note: &str) -> Result<(), AllocError> {
        self.add(String::from_str(alloc, note)?)
    }

    pub(crate) fn is_empty(&self) -> bool {
        self.notes.is_empty()
    }

    fn has(&self, note: &str) -> bool {
        self.notes.iter().any(|other| other.as_str() == note)
    }

    /// Returns the lines of the notes.
    pub(crate) fn text(&self, alloc: Global) -> Result<String, AllocError>
        ensures lines { IfOk result (λ text. AreNoteLines (string_bytes text)) }
    {
        text_of(alloc, self.notes.as_slice())
    }
}

/// Returns the lines of these notes. A note with a line feed would be left out; but there is none,
/// since names and values are in quotes.
fn text_of(alloc: Global, notes: &[String]) -> Result<String, AllocError>
    ensures { IfOk result (λ text. AreNoteLines (string_bytes text)) }
{
    let mut text = String::new(alloc);
    for note in notes {
        push_if_unbroken(&mut text, note.as_str())?;
    }
    Ok(text)
}

/// Adds the line of a note, unless the note has a line feed.
fn push_if_unbroken(text: &mut String, note: &str) -> Result<(), AllocError>
    ensures { OnOk result (AreNoteLines (string_bytes text.old)
        → AreNoteLines (string_bytes text.new)) }
{
    if is_unbroken(note) {
        push_note(text, note)
    } else {
        Ok(())
    }
}

fn is_unbroken(note: &str) -> bool
    ensures { result ≡ is_unbroken note.now }
{
    note.as_bytes().iter().all(|byte| *byte != b'\n')
}

/// Adds the line of a note.
fn push_note(text: &mut String, note: &str) -> Result<(), AllocError>
    ensures { OnOk result (string_bytes text.new ≡ string_bytes text.old ++ note_text note.now) }
{
    text.push_str("note: ")?;
    text.push_str(note)?;
    text.push_str("\n")
}
