//! The parts of a JSON value, each of which is refused if it is not of its kind.

ghost use Rattle.std.specs.Prelude.{◌≡◌, ◌≢◌, ◌≤◌, Some, map, option_map, IfOk, IfErr};
ghost use Rattle.serde_json.specs.Data.{null};
ghost use Rattle.serde_json.specs.View.{view, members_view};
ghost use Rattle.am_universe.specs.declared.kind.Kind.TheVariants as kinds;
ghost use Rattle.am_json.specs.Json.{json_of, field, is_one_of, is_unknown, unknown_field};
ghost use Rattle.am_json.specs.Pointer.{refusal_here};
ghost use Rattle.am_json.specs.Reading.{Gives, accept_or, refuse_for, check_count, as_object};
ghost use Rattle.am_json.specs.Reading.{as_text, as_items, check_only_fields, required_field};
ghost use Rattle.am_json.specs.Reading.{required_text, required_items, boolean_or, read_boolean_or};
ghost use Rattle.am_json.specs.Reading.{read_json, IsFoundOrRefused};
ghost use Rattle.am_json.specs.OptionalItems.{read_optional_items};

use crate::limits::MAX_FILE_BYTES;
use crate::pointer::within_field;
use crate::read_error::ReadError;
use am_universe::Kind;
use serde_json::{Map, Value};
use std::alloc::Global;

/// Returns the JSON value of the bytes of a file (RFC 8259).
///
/// If a key occurs twice in an object, the last one counts. The whole value is in memory.
/// - `Limit`: there are more than [`MAX_FILE_BYTES`] bytes;
/// - `NotJson`: the bytes are not UTF-8, are not JSON, or nest more than 127 levels deep.
#[tactic(auto, unfolding(crate::specs::Reading::read_json))]
pub fn read_json(alloc: Global, bytes: &[u8]) -> Result<Value, ReadError>
    ensures reading { Gives view result (read_json bytes.now) }
{
    check_count(alloc, MAX_FILE_BYTES, bytes.len())?;
    value_of(alloc, bytes)
}

fn value_of(alloc: Global, bytes: &[u8]) -> Result<Value, ReadError>
    ensures { Gives view result
        (accept_or null (json_of bytes.now) (refusal_here kinds.NotJson)) }
{
    match Value::from_slice(alloc, bytes) {
        Ok(value) => Ok(value),
        Err(error) => {
            if error.is_memory() {
                return Err(ReadError::Memory);
            }
            Err(ReadError::refused(alloc, Kind::NotJson))
        }
    }
}

/// Fails with `Limit`, at the value that is being read, if `count` is more than `limit`.
///
/// Takes no memory.
pub fn check_count(alloc: Global, limit: usize, count: usize) -> Result<(), ReadError>
    ensures reading { Gives (λ _. tt) result (check_count limit count) }
    ensures within { IfOk result (λ _. count ≤ limit) }
{
    if count > limit {
        return Err(ReadError::refused(alloc, Kind::Limit));
    }
    Ok(())
}

/// Fails with this cause, if there is one, at the value that is being read.
///
/// A cause is never `Write`. For `Memory` the error is [`ReadError::Memory`]. Takes no memory.
pub fn refuse_for(alloc: Global, cause: Option<Kind>) -> Result<(), ReadError>
    requires { cause ≢ Some kinds.Write }
    ensures reading { Gives (λ _. tt) result (refuse_for cause) }
{
    match cause {
        None => Ok(()),
        Some(kind) => Err(ReadError::refused(alloc, kind)),
    }
}

/// Returns what was found, or fails with the kind of the error, at the value that is being read.
///
/// The kind is never `Write`. For `Memory` the error is [`ReadError::Memory`]. Takes no memory.
pub fn or_refused<T: Drop>(alloc: Global, found: Result<T, Kind>) -> Result<T, ReadError>
    requires { IfErr found (λ kind. kind ≢ kinds.Write) }
    ensures seen { IsFoundOrRefused found result }
{
    match found {
        Ok(found) => Ok(found),
        Err(kind) => Err(ReadError::refused(alloc, kind)),
    }
}

/// Returns the members of an object. Fails only with `Shape`, for a value that is not an object.
///
/// Takes no memory.
pub fn as_object(alloc: Global, value: &Value) -> Result<&Map<String, Value>, ReadError>
    ensures reading { Gives (λ m. members_view m.now.entries) result (as_object (view value.now)) }
{
    match value.as_object() {
        Some(members) => Ok(members),
        None => Err(ReadError::refused(alloc, Kind::Shape)),
    }
}

/// Returns the text of a JSON string. Fails only with `Shape`, for a value that is not a string.
///
/// Takes no memory.
pub fn as_text(alloc: Global, value: &Value) -> Result<&str, ReadError>
    ensures reading { Gives (λ t. t.now) result (as_text (view value.now)) }
{
    match value.as_str() {
        Some(text) => Ok(text),
        None => Err(ReadError::refused(alloc, Kind::Shape)),
    }
}

/// Returns the items of an array. Fails only with `Shape`, for a value that is not an array.
///
/// Takes no memory.
pub fn as_items(alloc: Global, value: &Value) -> Result<&[Value], ReadError>
    ensures reading { Gives (λ items. map view items.now) result (as_items (view value.now)) }
{
    match value.as_array() {
        Some(items) => Ok(items.as_slice()),
        None => Err(ReadError::refused(alloc, Kind::Shape)),
    }
}

/// Refuses a value that is not an object, or that has a field which is not in `known`.
///
/// A field that is `null` is absent, whatever its name. Memory is taken only for the pointer of a
/// refusal.
/// - `Shape`: the value is not an object;
/// - `UnknownField`, at the field: of the fields that are not in `known`, this is the first by the
///   bytes of its key.
#[tactic(auto, unfolding(crate::specs::Reading::check_only_fields))]
pub fn check_only_fields(alloc: Global, value: &Value, known: &[&str]) -> Result<(), ReadError>
    ensures reading { Gives (λ _. tt) result
        (check_only_fields (map (λ key. key.now) known.now) (view value.now)) }
{
    let members = as_object(alloc, value)?;
    match unknown_field(members, known) {
        Some(key) => within_field(
            alloc,
            key,
            Err(ReadError::refused(alloc, Kind::UnknownField)),
        ),
        None => Ok(()),
    }
}

/// Returns the first unknown field, by the bytes of its key.
fn unknown_field<'v>(members: &'v Map<String, Value>, known: &[&str]) -> Option<&'v str>
    ensures { option_map (λ key. key.now) result
        ≡ unknown_field (map (λ key. key.now) known.now) (members_view members.now.entries) }
{
    for (key, value) in members.iter() {
        if is_unknown(known, key.as_str(), value) {
            return Some(key.as_str());
        }
    }
    None
}

fn is_unknown(known: &[&str], key: &str, value: &Value) -> bool
    ensures { result ≡ is_unknown (map (λ name. name.now) known.now) key.now (view value.now) }
{
    !value.is_null() && !is_one_of(key, known)
}

pub(crate) fn is_one_of(key: &str, names: &[&str]) -> bool
    ensures { result ≡ is_one_of key.now (map (λ name. name.now) names.now) }
{
    names.contains(&key)
}

/// Returns the value of the field `key`, or `None` if it is absent.
///
/// A field is absent if the value is not an object, if it has no such field, or if this is `null`.
pub fn field<'v>(value: &'v Value, key: &str) -> Option<&'v Value>
    ensures value { option_map (λ v. view v.now) result ≡ field key.now (view value.now) }
{
    match value.get(key) {
        Some(found) if !found.is_null() => Some(found),
        _ => None,
    }
}

/// Returns the value of a required field.
///
/// Fails only with `Shape`, at the field, if it is absent, as in [`field`]. Memory is taken only
/// for the pointer of the refusal.
pub fn required_field<'v>(
    alloc: Global,
    value: &'v Value,
    key: &str,
) -> Result<&'v Value, ReadError>
    ensures reading { Gives (λ v. view v.now) result (required_field key.now (view value.now)) }
{
    match field(value, key) {
        Some(found) => Ok(found),
        None => within_field(alloc, key, Err(ReadError::refused(alloc, Kind::Shape))),
    }
}

/// Returns the text in a required field.
///
/// Fails only with `Shape`, at the field, if it is absent, as in [`field`], or is not a string.
/// Memory is taken only for the pointer of the refusal.
#[tactic(auto, unfolding(crate::specs::Reading::required_text))]
pub fn required_text<'v>(alloc: Global, value: &'v Value, key: &str) -> Result<&'v str, ReadError>
    ensures reading { Gives (λ t. t.now) result (required_text key.now (view value.now)) }
{
    let found = required_field(alloc, value, key)?;
    within_field(alloc, key, as_text(alloc, found))
}

/// Returns the items of the array in a required field.
///
/// Fails only with `Shape`, at the field, if it is absent, as in [`field`], or is not an array.
/// Memory is taken only for the pointer of the refusal.
#[tactic(auto, unfolding(crate::specs::Reading::required_items))]
pub fn required_items<'v>(
    alloc: Global,
    value: &'v Value,
    key: &str,
) -> Result<&'v [Value], ReadError>
    ensures reading { Gives (λ items. map view items.now) result
        (required_items key.now (view value.now)) }
{
    let found = required_field(alloc, value, key)?;
    within_field(alloc, key, as_items(alloc, found))
}

/// Returns the items of the array in an optional field, or none if it is absent, as in [`field`].
///
/// Fails only with `Shape`, at the field, if it is there and not an array. Memory is taken only for
/// the pointer of the refusal.
#[tactic(auto, unfolding(crate::specs::OptionalItems::read_optional_items))]
pub fn read_optional_items<'v>(
    alloc: Global,
    value: &'v Value,
    key: &str,
) -> Result<&'v [Value], ReadError>
    ensures reading { Gives (λ items. map view items.now) result
        (read_optional_items key.now (view value.now)) }
{
    match field(value, key) {
        None => Ok(&[]),
        Some(found) => within_field(alloc, key, as_items(alloc, found)),
    }
}

/// Returns the boolean in an optional field, or `default` if it is absent, as in [`field`].
///
/// Fails only with `Shape`, at the field, if it is there and not a boolean. Memory is taken only
/// for the pointer of the refusal.
#[tactic(auto, using(crate::proofs::Readings::within_gives), unfolding(crate::specs::Reading::read_boolean_or))]
pub fn read_boolean_or(
    alloc: Global,
    value: &Value,
    key: &str,
    default: bool,
) -> Result<bool, ReadError>
    ensures reading { Gives (λ truth. truth) result
        (read_boolean_or default key.now (view value.now)) }
{
    within_field(alloc, key, boolean_or(alloc, field(value, key), default))
}

/// Returns the boolean that the value is, or `default` if there is no value.
fn boolean_or(alloc: Global, found: Option<&Value>, default: bool) -> Result<bool, ReadError>
    ensures { Gives (λ truth. truth) result
        (boolean_or default (option_map (λ v. view v.now) found.entry)) }
{
    let Some(found) = found else {
        return Ok(default);
    };
    match found.as_bool() {
        Some(truth) => Ok(truth),
        None => Err(ReadError::refused(alloc, Kind::Shape)),
    }
}
