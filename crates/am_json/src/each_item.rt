//! Reading the items of an array, and the members of an object, one after the other.

ghost use Rattle.std.specs.Prelude.{◌≤◌, [], ℕ, List, length, map, IfOk};
ghost use Rattle.std.specs.Fn.{FnReturnsAt};
ghost use Rattle.serde_json.specs.Data.{Data};
ghost use Rattle.serde_json.specs.View.{members_view, view};
ghost use Rattle.am_json.specs.Reading.{Gives, Reading, read_each, read_items, read_counted};
ghost use Rattle.am_json.specs.Reading.{read_items_or_null};
ghost use Rattle.am_json.specs.OptionalItems.{read_optional_array};
ghost use Rattle.am_json.specs.Json.{member_list};

use crate::parts::{as_items, check_count, read_optional_items};
use crate::pointer::{within_field, within_item};
use crate::read_error::ReadError;
use serde_json::{Map, Value};
use std::alloc::Global;

/// Reads each item with `read`, and returns what it gives, in the order of the items.
///
/// Fails with the first refusal, and reads no further item. Its pointer then starts at the array.
pub fn read_each_item<T: Drop, F: Fn(&Value) -> Result<T, ReadError>>(
    alloc: Global,
    items: &[Value],
    read: F,
) -> Result<Vec<T>, ReadError>
    requires { F.IsAlwaysCallable read }
    ensures reading { (reading : Data → Reading T)
        → ((value : _) (found : _) → FnReturnsAt F.Fn read value found
        → Gives (λ x. x) found (reading (view value)))
        → Gives (λ found. found.items) result
        (read_items (λ _ d. reading d) [] (map view items.now)) }
    ensures few { IfOk result (λ found. length found.items ≤ length items.now) }
{
    let mut all = Vec::new(alloc);
    for item in items {
        let found = read(item);
        let next = within_item(alloc, all.len(), found)?;
        all.push(next)?;
    }
    Ok(all)
}

/// Reads each of at most `limit` items with `read`. Fails with `Limit` if there are more.
#[tactic(auto, unfolding(crate::specs::Reading::read_counted))]
fn read_counted<T: Drop, F: Fn(&Value) -> Result<T, ReadError>>(
    alloc: Global,
    items: &[Value],
    limit: usize,
    read: F,
) -> Result<Vec<T>, ReadError>
    requires { F.IsAlwaysCallable read }
    ensures reading { (reading : Data → Reading T)
        → ((value : _) (found : _) → FnReturnsAt F.Fn read value found
        → Gives (λ x. x) found (reading (view value)))
        → Gives (λ found. found.items) result
        (read_counted limit reading (map view items.now)) }
    ensures few { IfOk result (λ found. length found.items ≤ limit) }
{
    check_count(alloc, limit, items.len())?;
    read_each_item(alloc, items, read)
}

/// Reads each item of an array of at most `limit` items with `read`; `null` has no items.
///
/// Fails with `Shape` if the value is neither an array nor `null`, with `Limit` if there are more
/// items, and else as [`read_each_item`] does.
#[tactic(auto, using(crate::proofs::Readings::steps), unfolding(crate::specs::Reading::read_item_array))]
pub fn read_items_or_null<T: Drop, F: Fn(&Value) -> Result<T, ReadError>>(
    alloc: Global,
    value: &Value,
    limit: usize,
    read: F,
) -> Result<Vec<T>, ReadError>
    requires { F.IsAlwaysCallable read }
    ensures reading { (reading : Data → Reading T)
        → ((value : _) (found : _) → FnReturnsAt F.Fn read value found
        → Gives (λ x. x) found (reading (view value)))
        → Gives (λ found. found.items) result
        (read_items_or_null limit reading (view value.now)) }
    ensures few { IfOk result (λ found. length found.items ≤ limit) }
{
    if value.is_null() {
        return Ok(Vec::new(alloc));
    }
    let items = as_items(alloc, value)?;
    read_counted(alloc, items, limit, read)
}

/// Reads each item of the array in the field `key` with `read`; an absent field has no items.
///
/// The array has at most `limit` items. A field that is `null` is absent, as in
/// [`field`](crate::field). Fails with `Shape` at the field if its value is not an array, with
/// `Limit` at the field if there are more items, and else with the first refusal of an item.
/// Pointers start at `value`.
#[tactic(auto, using(crate::proofs::Readings::steps), unfolding(crate::specs::OptionalItems::read_optional_array))]
pub fn read_optional_array<T: Drop, F: Fn(&Value) -> Result<T, ReadError>>(
    alloc: Global,
    value: &Value,
    key: &str,
    limit: usize,
    read: F,
) -> Result<Vec<T>, ReadError>
    requires { F.IsAlwaysCallable read }
    ensures reading { (reading : Data → Reading T)
        → ((value : _) (found : _) → FnReturnsAt F.Fn read value found
        → Gives (λ x. x) found (reading (view value)))
        → Gives (λ found. found.items) result
        (read_optional_array key.now limit reading (view value.now)) }
    ensures few { IfOk result (λ found. length found.items ≤ limit) }
{
    let items = read_optional_items(alloc, value, key)?;
    within_field(alloc, key, read_counted(alloc, items, limit, read))
}

/// Reads the members of an object with `read`, in the order of the bytes of their names.
///
/// `read` gets what was read so far, which is `first` at the start, and returns that with the
/// member included. Fails with the first refusal, as `read` gives it, and reads no further member.
pub fn read_each_member<T: Drop, F: Fn(T, &str, &Value) -> Result<T, ReadError>>(
    first: T,
    members: &Map<String, Value>,
    read: F,
) -> Result<T, ReadError>
    requires { F.IsAlwaysCallable read }
    ensures reading { (reading : T → (List ℕ × Data) → Reading T)
        → ((before : _) (name : _) (value : _) (found : _) → F.post read before name value found
        → Gives (λ x. x) found (reading before (name.now, view value.now)))
        → Gives (λ x. x) result
        (read_each reading first (member_list (members_view members.now.entries))) }
{
    let mut all = first;
    for (name, value) in members.iter() {
        all = read(all, name.as_str(), value)?;
    }
    Ok(all)
}
