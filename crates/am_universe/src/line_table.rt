ghost use Rattle.std.specs.Prelude.{◌≡◌, ◌<◌, ◌≤◌, ◌+◌, ◌∷◌, ◌++◌, ℕ, length, drop};
ghost use Rattle.std.specs.Prelude.{IfOk, option_map, vec_len, vec_capacity};
ghost use Rattle.std.specs.List.{AllByRecursion};
ghost use Rattle.am_universe.specs.Bytes.{left_brace};
ghost use Rattle.am_universe.specs.Universe.{sizes};
ghost use Rattle.am_universe.specs.Choice.{IsWhole};
ghost use Rattle.am_universe.specs.WrittenLabelSet.{line};
ghost use Rattle.am_universe.specs.Sink.{Writes};
ghost use Rattle.am_universe.specs.LineTable.{piece_text, label_pieces, texts_of_pieces};

use crate::memory_sink::MemorySink;
use crate::universe::{Label, text_of};
use crate::write::write_pair;
use crate::{Choice, Kind, Sink, Universe, put_all};
use std::alloc::{AllocError, Global};
use std::marker::Model;
use std::snapshot::Snapshot;

/// A table for writing the lines of a universe's choices fast.
///
/// It keeps the text of each label with each of its values, so a line takes only a few copies.
/// Contracts see it as the universe that it was made from.
#[derive(Drop)]
pub struct LineTable {
    universe: Snapshot<Universe>,
    labels: Vec<Vec<Vec<u8>>>,
    // Each line is built in this buffer, which has room for the longest, and then written as a
    // whole.
    line: Vec<u8>,
}

impl Model for LineTable {
    ghost use Rattle.std.specs.Prelude.{List};
    ghost use Rattle.am_universe.specs.Universe as spec;
    ghost use Rattle.am_universe.specs.LineTable.{IsLineTable};

    ghost Value = { List spec.Label };

    ghost view = { λ t. t.universe.value };

    ghost invariant = { λ t. IsLineTable t.universe.value t.labels.items t.line };
}

impl LineTable {
    /// Makes the table of a universe. Fails only if memory runs out.
    pub fn of(alloc: Global, universe: &Universe) -> Result<LineTable, AllocError>
        ensures universe { IfOk result (λ table. table ≡ universe.now) }
    {
        let mut labels = Vec::with_capacity(alloc, universe.len())?;
        // Room for both braces and the line feed, and then for the longest piece of each label.
        let mut room: usize = 3;
        for label in universe.labels() {
            let pieces = pieces_of(alloc, label)?;
            let Some(more) = room.checked_add(longest(pieces.as_slice())) else {
                return Err(AllocError);
            };
            room = more;
            labels.push(pieces)?;
        }
        Ok(LineTable {
            universe: Snapshot::of(universe),
            labels,
            line: Vec::with_capacity(alloc, room)?,
        })
    }

    /// Writes the line of a whole choice: its label set, as `write_set` writes it, and a line feed.
    ///
    /// Fails only with `Kind::Write`; what was written is then a proper prefix of the line. Takes
    /// no memory. The pieces in the table are already escaped.
    pub fn write_line<W: Sink>(&mut self, choice: &Choice, out: &mut W) -> Result<(), Kind>
        requires { IsWhole (sizes self.old) choice.now }
        ensures written { Writes W.taken W.failures out.old out.new
            (line self.old choice.now) result }
        ensures same { self.new ≡ self.old }
    {
        self.line.clear();
        for i in 0..self.labels.len() {
            let piece = self.labels[i][usize::from(choice.get(i))].as_slice();
            add_within_room(&mut self.line, piece);
        }
        open_brace(&mut self.line);
        add_within_room(&mut self.line, b"}\n");
        put_all(out, self.line.as_slice())
    }
}

/// Adds bytes to a line that has room for them, so no memory is taken.
fn add_within_room(line: &mut Vec<u8>, bytes: &[u8])
    requires { vec_len line.old + length bytes.now ≤ vec_capacity line.old }
    ensures items { line.new.items ≡ line.old.items ++ bytes.now }
    ensures capacity { vec_capacity line.old ≤ vec_capacity line.new }
{
    let _ = line.extend_from_slice(bytes);
}

/// Replaces the comma of the first piece with the opening brace; adds the brace to an empty line.
fn open_brace(line: &mut Vec<u8>)
    requires { 0 < vec_capacity line.old }
    ensures items { line.new.items ≡ left_brace ∷ drop 1 line.old.items }
    ensures capacity { vec_capacity line.old ≤ vec_capacity line.new }
{
    if line.is_empty() {
        add_within_room(line, b"{");
    } else {
        line[0] = b'{';
    }
}

/// The length of the longest piece; 0 if there is none.
fn longest(pieces: &[Vec<u8>]) -> usize
    ensures { AllByRecursion (λ piece. vec_len piece ≤ result) pieces.now }
{
    let mut most = 0;
    for piece in pieces {
        most = most.max(piece.len());
    }
    most
}

/// The pieces of a label, one for each of its values.
fn pieces_of(alloc: Global, label: &Label) -> Result<Vec<Vec<u8>>, AllocError>
    ensures { IfOk result (λ pieces. texts_of_pieces pieces ≡ label_pieces label.now) }
{
    let mut pieces = Vec::with_capacity(alloc, label.values.len())?;
    for value in label.values.as_slice() {
        pieces.push(piece_of(alloc, label.name.as_str(), text_of(value))?)?;
    }
    Ok(pieces)
}

/// The text of a label with a value, with a comma in front; empty for absence.
fn piece_of(alloc: Global, name: &str, value: Option<&str>) -> Result<Vec<u8>, AllocError>
    ensures { IfOk result (λ piece.
        piece.items ≡ piece_text name.now (option_map (λ t. t.now) value.entry)) }
{
    let mut piece = MemorySink::new(alloc);
    let Some(value) = value else {
        return Ok(piece.bytes);
    };
    match write_pair(&mut piece, b",", name, value) {
        Ok(()) => Ok(piece.bytes),
        Err(_) => Err(AllocError),
    }
}
