//! The texts that stand for a label in a space.

ghost use Rattle.std.specs.Prelude.{◌≡◌, ◌<◌, ◌∷◌, [], IfOk, length, map, string_bytes, unwrap_or};
ghost use Rattle.am_universe.specs.Universe.{values_at};
ghost use Rattle.am_complete.specs.Covering.{standing_texts};

use crate::possible_texts::possible_texts;
use am_labels::Space;
use am_universe::Universe;
use std::alloc::{AllocError, Global};

/// Returns the texts that stand in a space for a label. For a declared label, these are its texts.
/// For another label, it is absence alone, if that is possible.
pub(crate) fn standing_texts(
    alloc: Global,
    space: &Space,
    name: &str,
) -> Result<Vec<String>, AllocError>
    ensures { IfOk result (λ texts.
        map string_bytes texts.items ≡ standing_texts space.now name.now) }
{
    match space.universe().position(name) {
        Some(i) => values_in(alloc, space.universe(), i),
        None => possible_texts(alloc, space.impossible(), name, absence_alone(alloc)?),
    }
}

/// Returns the empty text alone.
fn absence_alone(alloc: Global) -> Result<Vec<String>, AllocError>
    ensures { IfOk result (λ texts. map string_bytes texts.items ≡ [] ∷ []) }
{
    let mut texts = Vec::with_capacity(alloc, 1)?;
    texts.push(String::new(alloc))?;
    Ok(texts)
}

/// Returns the texts of the label at position `i`.
fn values_in(alloc: Global, universe: &Universe, i: usize) -> Result<Vec<String>, AllocError>
    requires { i < length universe.now }
    ensures { IfOk result (λ texts. map string_bytes texts.items
        ≡ map (λ v. unwrap_or v []) (values_at universe.now i)) }
{
    let size = universe.size(i);
    let mut texts = Vec::with_capacity(alloc, size)?;
    for j in 0..size {
        let text = universe.value(i, j).unwrap_or("");
        texts.push(String::from_str(alloc, text)?)?;
    }
    Ok(texts)
}
