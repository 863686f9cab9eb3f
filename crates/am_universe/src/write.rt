#![tactic(auto, using(crate::proofs::Writing::steps))]

ghost use Rattle.std.specs.Prelude.{◌≡◌, [], ◌∷◌, ◌++◌, IfSome, IfNone};
ghost use Rattle.std.specs.List.{flat_map};
ghost use Rattle.am_universe.specs.Universe.{sizes};
ghost use Rattle.am_universe.specs.Choice.{IsWhole};
ghost use Rattle.am_universe.specs.Text.{quoted_text, label_value_escape};
ghost use Rattle.am_universe.specs.WrittenLabelSet.{pair_text, set_text, map_text};
ghost use Rattle.am_universe.specs.Sink.{Writes};
ghost use Rattle.am_universe.specs.WriteAnswer.{IsAnswerOfWrite};

use crate::{Choice, Fault, Kind, LabelSet, Sink, Universe};
use std::alloc::Global;

/// Writes all of the bytes.
///
/// Fails only with `Kind::Write`, at the first take that fails; what was written is then a proper
/// prefix.
pub fn put_all<W: Sink>(out: &mut W, bytes: &[u8]) -> Result<(), Kind>
    ensures written { Writes W.taken W.failures out.old out.new bytes.now result }
{
    let mut done = 0;
    while done < bytes.len() {
        done += out.take(&bytes[done..])?;
    }
    Ok(())
}

/// Writes a text as it is. Fails as `put_all` does.
pub fn put_str<W: Sink>(out: &mut W, text: &str) -> Result<(), Kind>
    ensures written { Writes W.taken W.failures out.old out.new text.now result }
{
    put_all(out, text.as_bytes())
}

/// The escape of a byte between quotes; `None` if the byte stands for itself.
fn escape_of(byte: u8) -> Option<&'static [u8]>
    ensures some { IfSome result (λ escape. escape.now ≡ label_value_escape byte) }
    ensures none { IfNone result (label_value_escape byte ≡ byte ∷ []) }
{
    match byte {
        b'\\' => Some(b"\\\\"),
        b'"' => Some(b"\\\""),
        b'\n' => Some(b"\\n"),
        _ => None,
    }
}

/// Writes a text in quotes, with `\` as `\\`, `"` as `\"` and a line feed as `\n`.
///
/// Fails only with `Kind::Write`; what was written is then a proper prefix of that.
pub fn write_text<W: Sink>(out: &mut W, text: &str) -> Result<(), Kind>
    ensures written { Writes W.taken W.failures out.old out.new (quoted_text text.now) result }
{
    put_all(out, b"\"")?;
    write_escaped(out, text.as_bytes())?;
    put_all(out, b"\"")
}

/// Writes the bytes, escaped as between quotes.
fn write_escaped<W: Sink>(out: &mut W, bytes: &[u8]) -> Result<(), Kind>
    ensures { Writes W.taken W.failures out.old out.new
        (flat_map label_value_escape bytes.now) result }
{
    let mut start = 0;
    for (i, byte) in bytes.iter().enumerate() {
        if let Some(escape) = escape_of(*byte) {
            put_all(out, &bytes[start..i])?;
            put_all(out, escape)?;
            start = i + 1;
        }
    }
    put_all(out, &bytes[start..])
}

/// Writes the label set of a whole choice in declared order, as `{team="db",severity="critical"}`.
///
/// Labels that are absent are left out. Fails only with `Kind::Write`; what was written is then a
/// proper prefix of that. Takes no memory.
pub fn write_set<W: Sink>(universe: &Universe, choice: &Choice, out: &mut W) -> Result<(), Kind>
    requires { IsWhole (sizes universe.now) choice.now }
    ensures written { Writes W.taken W.failures out.old out.new
        (set_text universe.now choice.now) result }
{
    put_all(out, b"{")?;
    let mut separator: &[u8] = b"";
    for i in 0..universe.len() {
        if let Some(value) = universe.value(i, usize::from(choice.get(i))) {
            write_pair(out, separator, universe.name(i), value)?;
            separator = b",";
        }
    }
    put_all(out, b"}")
}

/// Writes a label set in the order of the bytes of its names, as `{severity="critical",team="db"}`.
///
/// Fails only with `Kind::Write`; what was written is then a proper prefix of that.
pub fn write_map<W: Sink>(set: &LabelSet, out: &mut W) -> Result<(), Kind>
    ensures written { Writes W.taken W.failures out.old out.new (map_text set.now) result }
{
    put_all(out, b"{")?;
    let mut separator: &[u8] = b"";
    for (name, value) in set.values() {
        write_pair(out, separator, name.as_str(), value.as_str())?;
        separator = b",";
    }
    put_all(out, b"}")
}

/// Writes a separator, and then a label: its name, `=`, and its value in quotes.
pub fn write_pair<W: Sink>(
    out: &mut W,
    separator: &[u8],
    name: &str,
    value: &str,
) -> Result<(), Kind>
    ensures { Writes W.taken W.failures out.old out.new
        (separator.now ++ pair_text (name.now, value.now)) result }
{
    put_all(out, separator)?;
    put_str(out, name)?;
    put_all(out, b"=")?;
    write_text(out, value)
}

/// Returns the result of a write, with a failure turned into a fault of writing.
pub fn answer_of_write<T: Drop>(alloc: Global, written: Result<T, Kind>) -> Result<T, Fault>
    ensures answer { IsAnswerOfWrite written result }
{
    match written {
        Ok(answer) => Ok(answer),
        Err(_) => Err(Fault::write(alloc)),
    }
}
