//! The identifiers of the silences of a file.
//!
//! A `Silence` keeps no identifier, because only `alerts` prints one. So the bytes of the file are
//! read a second time here, after the world has been accepted.

ghost use Rattle.std.specs.Prelude.{◌≡◌, IfOk, map, option_copied, option_map, string_bytes};
ghost use Rattle.serde_json.specs.View.{view};
ghost use Rattle.am_json.specs.Json.{json_of};
ghost use Rattle.am_alerts.specs.SilenceIds.{called, id_of, ids_of, ids_of_file, id_at, AreNames};

use am_json::field;
use serde_json::Value;
use std::alloc::{AllocError, Global};
use std::marker::Model;

/// Returns the names of so many silences of a file: the identifier of each, or the position if it
/// has none. None has one without a file, or if its bytes are not JSON. Fails only if memory runs
/// out.
pub(crate) fn silence_names(
    alloc: Global,
    file: Option<&[u8]>,
    count: usize,
) -> Result<Vec<String>, AllocError>
    ensures names { IfOk result (λ names. AreNames (ids_of_file (option_copied file.entry)) count
        (map string_bytes names.items)) }
{
    SilenceIds::read(alloc, file)?.names(alloc, count)
}

/// The identifiers of the silences of a file.
#[derive(Drop)]
struct SilenceIds {
    /// The value of the file, if there is one.
    value: Option<Value>,
}

impl Model for SilenceIds {
    ghost use Rattle.std.specs.Prelude.{ℕ, List, [], Option, option_map, unwrap_or};
    ghost use Rattle.serde_json.specs.View as values;
    ghost use Rattle.am_alerts.specs.SilenceIds.{ids_of};

    ghost Value = { List (Option (List ℕ)) };

    ghost view = { λ ids.
        unwrap_or (option_map (λ value. ids_of (values.view value)) ids.value) [] };
}

impl SilenceIds {
    /// Reads the identifiers from the bytes of a file. There are none without a file, or if the
    /// bytes are not JSON. Fails only if memory runs out.
    fn read(alloc: Global, file: Option<&[u8]>) -> Result<SilenceIds, AllocError>
        ensures ids { IfOk result (λ ids. ids ≡ ids_of_file (option_copied file.entry)) }
    {
        match file {
            Some(bytes) => Ok(SilenceIds {
                value: value_of(alloc, bytes)?,
            }),
            None => Ok(SilenceIds { value: None }),
        }
    }

    /// Returns the names of so many silences: the identifier of each, or the position if it has
    /// none. Fails only if memory runs out.
    fn names(&self, alloc: Global, count: usize) -> Result<Vec<String>, AllocError>
        ensures names { IfOk result (λ names.
            AreNames self.now count (map string_bytes names.items)) }
    {
        let mut names = Vec::with_capacity(alloc, count)?;
        for silence in 0..count {
            names.push(self.name_of(alloc, silence)?)?;
        }
        Ok(names)
    }

    fn name_of(&self, alloc: Global, silence: usize) -> Result<String, AllocError>
        ensures { IfOk result (λ name. string_bytes name ≡ called self.now silence) }
    {
        match self.get(silence) {
            Some(id) => String::from_str(alloc, id),
            None => String::from_str(alloc, itoa::Buffer::new().format(silence)),
        }
    }

    /// The identifier of the silence at a position, if it has one.
    fn get(&self, silence: usize) -> Option<&str>
        ensures id { option_map (λ id. id.now) result ≡ id_at self.now silence }
    {
        match &self.value {
            Some(value) => id_at(value, silence),
            None => None,
        }
    }
}

/// The JSON value of the bytes of a file, if they are JSON.
fn value_of(alloc: Global, bytes: &[u8]) -> Result<Option<Value>, AllocError>
    ensures { IfOk result (λ value. option_map view value ≡ json_of bytes.now) }
{
    match Value::from_slice(alloc, bytes) {
        Ok(value) => Ok(Some(value)),
        Err(error) => {
            if error.is_memory() {
                return Err(AllocError);
            }
            Ok(None)
        }
    }
}

/// The identifier of the item at a position of an array, if it has one.
fn id_at(value: &Value, position: usize) -> Option<&str>
    ensures { option_map (λ id. id.now) result ≡ id_at (ids_of (view value.now)) position }
{
    let Some(items) = value.as_array() else {
        return None;
    };
    match items.get(position) {
        Some(item) => id_of(item),
        None => None,
    }
}

/// The text of the field `id`, if that field is a text.
fn id_of(item: &Value) -> Option<&str>
    ensures { option_map (λ id. id.now) result ≡ id_of (view item.now) }
{
    match field(item, "id") {
        Some(id) => id.as_str(),
        None => None,
    }
}
