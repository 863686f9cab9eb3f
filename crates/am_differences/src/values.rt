//! JSON values that are the same.

ghost use Rattle.std.specs.Prelude.{◌≡◌};
ghost use Rattle.serde_json.specs.View.{items_view, members_view, number_view, view};
ghost use Rattle.am_differences.specs.SameValue.{same_value, same_items, same_members};
ghost use Rattle.am_differences.specs.SameValue.{same_number, is_natural, is_negative, float_of};

use serde_json::{Map, Number, Value};
use std::num::{
    nearest_i64_to_f64, nearest_u64_to_f64, saturating_f64_to_i64, saturating_f64_to_u64,
};

/// Whether two JSON values are the same. Numbers are the same if they have the same value, as `1`
/// and `1.0` have, and objects if they have the same keys with the same values (RFC 8259, sections
/// 4 and 6).
#[cycle(same)]
pub fn same_value(one: &Value, other: &Value) -> bool
    ensures { result ≡ same_value (view one.now) (view other.now) }
{
    match (one, other) {
        (Value::Null, Value::Null) => true,
        (Value::Bool(a), Value::Bool(b)) => a == b,
        (Value::Number(a), Value::Number(b)) => same_number(a, b),
        (Value::String(a), Value::String(b)) => a.as_str() == b.as_str(),
        (Value::Array(a), Value::Array(b)) => same_items(a.as_slice(), b.as_slice()),
        (Value::Object(a), Value::Object(b)) => same_members(a, b),
        _ => false,
    }
}

#[cycle(same)]
fn same_items(ones: &[Value], others: &[Value]) -> bool
    ensures { result ≡ same_items (items_view ones.now) (items_view others.now) }
{
    if ones.len() != others.len() {
        return false;
    }
    for i in 0..ones.len() {
        if !same_value(&ones[i], &others[i]) {
            return false;
        }
    }
    true
}

#[cycle(same)]
fn same_members(ones: &Map<String, Value>, others: &Map<String, Value>) -> bool
    ensures { result ≡ same_members (members_view ones.now.entries)
        (members_view others.now.entries) }
{
    let mut left = others.iter();
    for (key, value) in ones {
        let Some((other_key, other_value)) = left.next() else {
            return false;
        };
        if key.as_str() != other_key.as_str() || !same_value(value, other_value) {
            return false;
        }
    }
    left.next().is_none()
}

fn same_number(one: &Number, other: &Number) -> bool
    ensures { result ≡ same_number (number_view one.now) (number_view other.now) }
{
    match (one.as_u64(), other.as_u64()) {
        (Some(a), Some(b)) => a == b,
        (Some(a), None) => other.is_f64() && is_natural(a, float_of(other)),
        (None, Some(b)) => one.is_f64() && is_natural(b, float_of(one)),
        (None, None) => match (one.as_i64(), other.as_i64()) {
            (Some(a), Some(b)) => a == b,
            (Some(a), None) => is_negative(a, float_of(other)),
            (None, Some(b)) => is_negative(b, float_of(one)),
            (None, None) => float_of(one) == float_of(other),
        },
    }
}

/// The number as a float, which is the nearest one if it is an integer.
fn float_of(number: &Number) -> f64
    ensures { result ≡ float_of (number_view number.now) }
{
    match number.as_f64() {
        Some(x) => x,
        None => unreachable!(),
    }
}

/// Whether a float is this integer. The largest integer of 64 bits is no float, but to this one
/// floats above it are cut.
fn is_natural(n: u64, x: f64) -> bool
    ensures { result ≡ is_natural n x }
{
    n < u64::MAX && saturating_f64_to_u64(x) == n && nearest_u64_to_f64(n) == x
}

/// The same for a negative integer.
fn is_negative(z: i64, x: f64) -> bool
    ensures { result ≡ is_negative z x }
{
    saturating_f64_to_i64(x) == z && nearest_i64_to_f64(z) == x
}
