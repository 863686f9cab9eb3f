//! Labels that are added to a universe.

use crate::texts::{Refusal, begun, word};
use am_universe::{Kind, LabelFault, LabelPart, Out, Universe, put_str, write_text};
use std::alloc::{AllocError, Global};

/// Adds a label behind so many labels `l0`, `l1` and so on, each of which is absent. The words are
/// their number, and the name and the values of the label; `null` is absence. Returns how many
/// labels there are then, and the last value of the last one. If the label is refused, returns the
/// part that is at fault, the fault, and how many labels there are.
pub fn of_label(alloc: Global, words: &[String]) -> Result<Vec<u8>, Refusal> {
    let Ok(count) = word(words, 1).parse::<usize>() else {
        return Err(Refusal::wrong(alloc, "the number of labels is wanted"));
    };
    let mut universe = Universe::empty(alloc);
    for i in 0..count {
        let name = format!(in alloc; "l{i}")?;
        if universe.add(name, vec![in alloc; None]?).is_err() {
            return Err(Refusal::wrong(alloc, "there are too many labels"));
        }
    }
    let name = String::from_str(alloc, word(words, 2))?;
    let values = values_of(alloc, words.get(3..).unwrap_or(&[]))?;
    match universe.add(name, values) {
        Ok(()) => Ok(added_text(alloc, &universe)?),
        Err(fault) => Ok(refused_text(alloc, fault, universe.len())?),
    }
}

fn values_of(alloc: Global, words: &[String]) -> Result<Vec<Option<String>>, AllocError> {
    let mut values = Vec::with_capacity(alloc, words.len())?;
    for word in words {
        let value = match word.as_str() {
            "null" => None,
            text => Some(String::from_str(alloc, text)?),
        };
        values.push(value)?;
    }
    Ok(values)
}

fn added_text(alloc: Global, universe: &Universe) -> Result<Vec<u8>, Kind> {
    let count = universe.len();
    let mut out = begun(alloc, "ok: ")?;
    put_str(&mut out, format!(in alloc; "{count} ")?.as_str())?;
    if count > 0 {
        let last = count - 1;
        put_str(&mut out, universe.name(last))?;
        put_str(&mut out, " ")?;
        let size = universe.size(last);
        if size > 0 {
            write_text(&mut out, universe.value(last, size - 1).unwrap_or(""))?;
        }
    }
    Ok(out.into_inner())
}

fn refused_text(alloc: Global, fault: LabelFault, count: usize) -> Result<Vec<u8>, Kind> {
    if fault.kind == Kind::Memory {
        return Err(Kind::Memory);
    }
    let mut out = begun(alloc, "")?;
    match fault.part {
        LabelPart::Label => put_str(&mut out, "label")?,
        LabelPart::Name => put_str(&mut out, "name")?,
        LabelPart::Values => put_str(&mut out, "values")?,
        LabelPart::Value(i) => put_str(&mut out, format!(in alloc; "value {i}")?.as_str())?,
    }
    put_str(&mut out, ": ")?;
    put_str(&mut out, fault.kind.text())?;
    put_str(&mut out, format!(in alloc; ", {count} labels")?.as_str())?;
    Ok(out.into_inner())
}
