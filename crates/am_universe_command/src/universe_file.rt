//! The text of a universe file.

ghost use Rattle.std.specs.Prelude.{◌≡◌, ◌<◌, ◌++◌, length, slice_get, Some};
ghost use Rattle.std.specs.Prelude.{string_bytes, map, option_map, IfOk, OnOk};
ghost use Rattle.json.specs.Print.{quoted};
ghost use Rattle.am_universe.specs.Universe.{Label};
ghost use Rattle.am_universe_command.specs.UniverseText.{universe_text, label_text, values_text};
ghost use Rattle.am_universe_command.specs.UniverseText.{value_text, impossible_text};

use am_report_texts::gap_before;
use am_universe::Universe;
use serde_json::Value;
use std::alloc::{AllocError, Global};

/// The text of the universe file that says a universe and the impossible lists with these texts:
/// JSON, with each label and each list on a line of its own. Reading it gives them back, if each
/// text is that of a list and the file has at most `MAX_FILE_BYTES` bytes. Fails only if memory
/// runs out.
pub(crate) fn universe_text(
    alloc: Global,
    universe: &Universe,
    impossible: &[String],
) -> Result<String, AllocError>
    ensures text { IfOk result (λ text.
        string_bytes text ≡ universe_text universe.now (map string_bytes impossible.now)) }
{
    let mut text = String::from_str(alloc, "{\"labels\": [")?;
    for i in 0..universe.len() {
        text.push_str(gap_before(i, "\n  ", ",\n  "))?;
        push_label(alloc, &mut text, universe, i)?;
    }
    text.push_str("\n]")?;
    push_impossible(alloc, &mut text, impossible)?;
    text.push_str("}\n")?;
    Ok(text)
}

/// Adds the field of the impossible lists, if there are any.
fn push_impossible(
    alloc: Global,
    text: &mut String,
    impossible: &[String],
) -> Result<(), AllocError>
    ensures { OnOk result (string_bytes text.new
        ≡ string_bytes text.old ++ impossible_text (map string_bytes impossible.now)) }
{
    if impossible.is_empty() {
        return Ok(());
    }
    text.push_str(", \"impossible\": [")?;
    for (i, list) in impossible.iter().enumerate() {
        text.push_str(gap_before(i, "\n  ", ",\n  "))?;
        push_quoted(alloc, text, list.as_str())?;
    }
    text.push_str("\n]")?;
    Ok(())
}

/// Adds the label at `i`, on one line.
fn push_label(
    alloc: Global,
    text: &mut String,
    universe: &Universe,
    i: usize,
) -> Result<(), AllocError>
    requires { i < length universe.now }
    ensures { OnOk result ((label : Label) → slice_get universe.now i ≡ Some label
        → string_bytes text.new ≡ string_bytes text.old ++ label_text label) }
{
    text.push_str("{\"name\": ")?;
    push_quoted(alloc, text, universe.name(i))?;
    text.push_str(", \"values\": [")?;
    push_values(alloc, text, universe, i)?;
    text.push_str("]}")?;
    Ok(())
}

/// Adds the values of the label at `i`, with a comma between each two.
fn push_values(
    alloc: Global,
    text: &mut String,
    universe: &Universe,
    i: usize,
) -> Result<(), AllocError>
    requires { i < length universe.now }
    ensures { OnOk result ((label : Label) → slice_get universe.now i ≡ Some label
        → string_bytes text.new ≡ string_bytes text.old ++ values_text label.values) }
{
    for j in 0..universe.size(i) {
        text.push_str(gap_before(j, "", ", "))?;
        push_value(alloc, text, universe.value(i, j))?;
    }
    Ok(())
}

/// Adds a value: a text in quotes, or `null` for absence.
fn push_value(alloc: Global, text: &mut String, value: Option<&str>) -> Result<(), AllocError>
    ensures { OnOk result (string_bytes text.new
        ≡ string_bytes text.old ++ value_text (option_map (λ t. t.now) value.entry)) }
{
    match value {
        Some(value) => push_quoted(alloc, text, value),
        None => text.push_str("null"),
    }
}

/// Adds a text in quotes, with the escapes of JSON.
fn push_quoted(alloc: Global, text: &mut String, value: &str) -> Result<(), AllocError>
    ensures { OnOk result (string_bytes text.new ≡ string_bytes text.old ++ quoted value.now) }
{
    let value = Value::String(String::from_str(alloc, value)?);
    let quoted = value.to_string(alloc)?;
    text.push_str(quoted.as_str())
}
