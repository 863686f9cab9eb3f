//! Reading a file, of whose JSON value only some fields are kept.
//!
//! `serde_json` makes a value of all that it reads. This reader takes the same tokens, and makes
//! values only of what is kept.

ghost use Rattle.std.specs.Prelude.{◌≡◌, ◌<◌, length, map, option_map, Some, IfOk, IfErr, OnOk};
ghost use Rattle.json.specs.Json.{value, items, members};
ghost use Rattle.serde_json.specs.Data.{string, no_members};
ghost use Rattle.serde_json.specs.Read.{of_json, of_items, of_members, converted};
ghost use Rattle.serde_json.specs.View.{view, items_view, members_view};
ghost use Rattle.am_universe.specs.declared.kind.Kind.TheVariants.{Memory};
ghost use Rattle.am_json.specs.Json.{json_of, only_fields};
ghost use Rattle.am_json.specs.Kept.{IsKept, AreItemsKept, AreMembersKept, IsReadAs, IsUnread};
ghost use Rattle.am_json.specs.Kept.{push_kept, put_kept};
ghost use Rattle.am_json.specs.Reading.{Gives, read_json_fields};

use crate::keep::Keep;
use crate::limits::MAX_FILE_BYTES;
use crate::number::number_of;
use crate::parts::{check_count, or_refused};
use crate::read_error::ReadError;
use am_universe::Kind;
use json::{Reader, Scratch, Token};
use serde_json::{Map, Value};
use std::alloc::{AllocError, Global};

/// The most levels that arrays and objects may nest, as in `serde_json`.
const MAX_DEPTH: usize = 127;

/// Returns the JSON value of the bytes of a file, with only these fields if it is an object.
///
/// The whole file is checked, and what is not kept takes no memory. Fails as
/// [`read_json`](crate::read_json) does.
#[tactic(auto, unfolding(crate::specs::Reading::read_json_fields, crate::specs::Reading::read_json))]
pub fn read_json_fields(alloc: Global, bytes: &[u8], names: &[&str]) -> Result<Value, ReadError>
    ensures reading { Gives view result
        (read_json_fields (map (λ name. name.now) names.now) bytes.now) }
{
    check_count(alloc, MAX_FILE_BYTES, bytes.len())?;
    or_refused(alloc, fields_of(alloc, bytes, names))
}

/// Fails with `NotJson` if the bytes have no JSON value.
fn fields_of(alloc: Global, bytes: &[u8], names: &[&str]) -> Result<Value, Kind>
    ensures ok { IfOk result (λ v.
        option_map (only_fields (map (λ name. name.now) names.now)) (json_of bytes.now)
        ≡ Some (view v)) }
    ensures err { IfErr result (IsUnread (json_of bytes.now)) }
{
    let Ok(text) = simdutf8::basic::from_utf8(bytes) else {
        return Err(Kind::NotJson);
    };
    let mut scratch = Scratch::new(alloc);
    let mut reader = Reader::new(text, &mut scratch)?;
    let value = read_value(alloc, &mut reader, MAX_DEPTH, Keep::Fields(names))?;
    if reader.next().is_some() {
        return Err(Kind::NotJson);
    }
    Ok(value)
}

/// Reads a value that nests at most `depth` levels deep, and returns what is kept of it.
///
/// If nothing is kept, any value stands for it. Fails with `NotJson` if there is no such value.
#[cycle(read)]
#[inline(always)]
fn read_value(
    alloc: Global,
    reader: &mut Reader<'_>,
    depth: usize,
    keep: Keep<'_>,
) -> Result<Value, Kind>
    ensures ok { IfOk result (λ v. IsReadAs (IsKept keep.entry)
        (converted of_json (value depth reader.old)) (view v) reader.new) }
    ensures shorter { OnOk result (length reader.new < length reader.old) }
    ensures err { IfErr result (IsUnread (converted of_json (value depth reader.old))) }
{
    match reader.next().ok_or(Kind::NotJson)? {
        Token::String(text) => string_of(alloc, text, keep),
        Token::Number(text) => Ok(Value::Number(number_of(text).ok_or(Kind::NotJson)?)),
        Token::Bool(truth) => Ok(Value::Bool(truth)),
        Token::Null => Ok(Value::Null),
        Token::BeginArray if depth > 0 => {
            Ok(Value::Array(read_items(alloc, reader, depth - 1, keep)?))
        }
        Token::BeginObject if depth > 0 => {
            Ok(Value::Object(read_members(alloc, reader, depth - 1, keep)?))
        }
        _ => Err(Kind::NotJson),
    }
}

/// Returns the value that is this text, or `null` if nothing is kept.
fn string_of(alloc: Global, text: &str, keep: Keep<'_>) -> Result<Value, Kind>
    ensures ok { IfOk result (λ v. IsKept keep.entry (string text.now) (view v)) }
    ensures err { IfErr result (λ kind. kind ≡ Memory) }
{
    if keep.is_nothing() {
        return Ok(Value::Null);
    }
    Ok(Value::String(String::from_str(alloc, text)?))
}

/// Reads the items of an array up to its end.
#[cycle(read)]
#[inline(never)]
fn read_items(
    alloc: Global,
    reader: &mut Reader<'_>,
    depth: usize,
    keep: Keep<'_>,
) -> Result<Vec<Value>, Kind>
    ensures ok { IfOk result (λ v. IsReadAs (AreItemsKept keep.entry)
        (converted of_items (items (value depth) (length reader.old) reader.old))
        (items_view v.items) reader.new) }
    ensures shorter { OnOk result (length reader.new < length reader.old) }
    ensures err { IfErr result (IsUnread
        (converted of_items (items (value depth) (length reader.old) reader.old))) }
{
    let mut found = Vec::new(alloc);
    while !reader.take_end_array() {
        let item = read_value(alloc, reader, depth, keep.of_item())?;
        push_kept(&mut found, item, keep)?;
    }
    Ok(found)
}

/// Puts the item at the end, unless nothing of the array is kept.
fn push_kept(found: &mut Vec<Value>, item: Value, keep: Keep<'_>) -> Result<(), AllocError>
    ensures ok { OnOk result
        (found.new.items ≡ push_kept keep.entry item found.old.items) }
{
    if !keep.is_nothing() {
        found.push(item)?;
    }
    Ok(())
}

/// Reads the members of an object up to its end.
#[cycle(read)]
#[inline(never)]
fn read_members(
    alloc: Global,
    reader: &mut Reader<'_>,
    depth: usize,
    keep: Keep<'_>,
) -> Result<Map<String, Value>, Kind>
    ensures ok { IfOk result (λ m. IsReadAs (AreMembersKept keep.entry)
        (converted (λ ms. of_members ms no_members)
        (members (value depth) (length reader.old) reader.old))
        (members_view m.entries) reader.new) }
    ensures shorter { OnOk result (length reader.new < length reader.old) }
    ensures err { IfErr result (IsUnread (converted (λ ms. of_members ms no_members)
        (members (value depth) (length reader.old) reader.old))) }
{
    let mut found = Map::new(alloc);
    while let Some(key) = reader.next_key().or(Err(Kind::NotJson))? {
        let inner = keep.of_member(key);
        let member = read_value(alloc, reader, depth, inner)?;
        put_kept(alloc, &mut found, key, member, inner)?;
    }
    Ok(found)
}

/// Puts the member into the map, unless nothing of it is kept.
fn put_kept(
    alloc: Global,
    found: &mut Map<String, Value>,
    key: &str,
    member: Value,
    keep: Keep<'_>,
) -> Result<(), AllocError>
    ensures ok { OnOk result (members_view found.new.entries
        ≡ put_kept keep.entry key.now (view member) (members_view found.old.entries)) }
{
    if !keep.is_nothing() {
        let key = String::from_str(alloc, key)?;
        drop(found.insert(key, member)?);
    }
    Ok(())
}
