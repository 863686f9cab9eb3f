//! JSON Pointers (RFC 6901) to the part of a file that is at fault.

ghost use Rattle.std.specs.Prelude.{◌≡◌, ◌++◌, string_bytes, encode_utf8, flat_map, IfOk, OnOk};
ghost use Rattle.am_json.specs.Pointer.{pointer_escape, to_field, to_item, refusal_within};
ghost use Rattle.am_json.specs.Reading.{IsReadingWithin};

use crate::read_error::{ReadError, Refusal};
use std::alloc::{AllocError, Global};

/// Puts the step to a field in front of the pointer of a refusal, which then starts at the object.
///
/// `read` is what reading the field `key` of the object gave. If it is not a refusal, it is
/// returned as it is. Memory is taken only for the new pointer.
pub fn within_field<T: Drop>(
    alloc: Global,
    key: &str,
    read: Result<T, ReadError>,
) -> Result<T, ReadError>
    ensures within { IsReadingWithin (to_field key.now) read result }
{
    match read {
        Err(ReadError::Refused(refusal)) => {
            let part = to_field(alloc, key)?;
            Err(ReadError::Refused(within(part, refusal)?))
        }
        other => other,
    }
}

/// Puts the step to an item in front of the pointer of a refusal, which then starts at the array.
///
/// `read` is what reading the item at this position gave; positions count from 0. If it is not a
/// refusal, it is returned as it is. Memory is taken only for the new pointer.
pub fn within_item<T: Drop>(
    alloc: Global,
    position: usize,
    read: Result<T, ReadError>,
) -> Result<T, ReadError>
    ensures within { IsReadingWithin (to_item position) read result }
{
    match read {
        Err(ReadError::Refused(refusal)) => {
            let part = to_item(alloc, position)?;
            Err(ReadError::Refused(within(part, refusal)?))
        }
        other => other,
    }
}

/// Returns the refusal of a part, with the pointer to the part in front of its own.
fn within(mut part: String, refusal: Refusal) -> Result<Refusal, AllocError>
    ensures { IfOk result (λ r. r ≡ refusal_within (string_bytes part) refusal) }
{
    part.push_str(refusal.pointer.as_str())?;
    Ok(Refusal {
        kind: refusal.kind,
        pointer: part,
    })
}

/// Returns the part of a pointer that leads to a field: `~` is written `~0`, and `/` is written
/// `~1`.
fn to_field(alloc: Global, key: &str) -> Result<String, AllocError>
    ensures { IfOk result (λ part. string_bytes part ≡ to_field key.now) }
{
    let mut part = String::from_str(alloc, "/")?;
    for character in key.chars() {
        push_escaped(&mut part, character)?;
    }
    Ok(part)
}

fn push_escaped(part: &mut String, character: char) -> Result<(), AllocError>
    ensures { OnOk result (string_bytes part.new
        ≡ string_bytes part.old ++ flat_map pointer_escape (encode_utf8 character)) }
{
    if character == '~' {
        part.push_str("~0")
    } else if character == '/' {
        part.push_str("~1")
    } else {
        part.push(character)
    }
}

/// Returns the part of a pointer that leads to an item.
fn to_item(alloc: Global, position: usize) -> Result<String, AllocError>
    ensures { IfOk result (λ part. string_bytes part ≡ to_item position) }
{
    format!(in alloc; "/{position}")
}
