//! What is before the end that was read, in each of some texts that ends with it.
ghost use Rattle.std.specs.Prelude.{◌≡◌, IfOk, map, string_bytes};
ghost use Rattle.std.specs.List.{list_any};
ghost use Rattle.am_classes.specs.Fronts.{ends_with, fronts_before, is_nothing};

use std::alloc::{AllocError, Global};

/// Returns all of each text, which is before the empty end.
pub(crate) fn all_fronts(alloc: Global, texts: &[String]) -> Result<Vec<&[u8]>, AllocError>
    ensures { IfOk result (λ fronts. map (λ f. f.now) fronts.items ≡ map string_bytes texts.now) }
{
    let mut fronts = Vec::with_capacity(alloc, texts.len())?;
    for text in texts {
        fronts.push(text.as_bytes())?;
    }
    Ok(fronts)
}

/// Returns what is before this byte in each of the fronts that ends with it.
pub(crate) fn fronts_before<'t>(
    alloc: Global,
    fronts: &[&'t [u8]],
    byte: u8,
) -> Result<Vec<&'t [u8]>, AllocError>
    ensures { IfOk result (λ found.
        map (λ f. f.now) found.items ≡ fronts_before byte (map (λ f. f.now) fronts.now)) }
{
    let mut found = Vec::new(alloc);
    for front in fronts {
        if ends_with(front, byte) {
            found.push(&front[..front.len() - 1])?;
        }
    }
    Ok(found)
}

/// Whether one of the fronts ends with this byte.
pub(crate) fn any_ends_with(fronts: &[&[u8]], byte: u8) -> bool
    ensures { result ≡ list_any (λ f. ends_with byte f.now) fronts.now }
{
    fronts.iter().any(|front| ends_with(front, byte))
}

/// Whether nothing is before the end in one of the texts: the end is itself one of them.
pub(crate) fn has_nothing(fronts: &[&[u8]]) -> bool
    ensures { result ≡ list_any (λ f. is_nothing f.now) fronts.now }
{
    fronts.iter().any(|front| front.is_empty())
}

/// Whether the text ends with this byte.
fn ends_with(text: &[u8], byte: u8) -> bool
    ensures { result ≡ ends_with byte text.now }
{
    !text.is_empty() && text[text.len() - 1] == byte
}
