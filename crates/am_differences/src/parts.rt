//! The parts of a configuration file that are no routes.

ghost use Rattle.std.specs.Prelude.{◌≡◌, ◌++◌, map, option_map, IfOk, OnOk};
ghost use Rattle.std.specs.List.{list_all};
ghost use Rattle.serde_json.specs.Data.{object};
ghost use Rattle.serde_json.specs.Find.{get_member};
ghost use Rattle.serde_json.specs.View.{view};
ghost use Rattle.am_json.specs.Json.{field, items_in_field};
ghost use Rattle.am_config.specs.ConfigView.{whole_config_view};
ghost use Rattle.am_differences.specs.Parts.{receiver_parts, interval_parts, field_parts};
ghost use Rattle.am_differences.specs.Parts.{is_field_part, is_in_parts, is_named_field};
ghost use Rattle.am_differences.specs.Parts.{named_item, named_items, item_name, is_named};
ghost use Rattle.am_differences.specs.Parts.{are_all_named};
ghost use Rattle.am_differences.specs.Parts.{rule_values};
ghost use Rattle.am_differences.specs.PartsView.{part_view, parts_view};

use am_config::WholeConfig;
use am_json::field;
use serde_json::Value;
use std::alloc::{AllocError, Global};

/// A part of a file, with its name.
#[derive(Clone, Copy, Drop)]
pub(crate) struct Part<'a> {
    pub name: &'a str,
    pub value: &'a Value,
}

/// Returns the receivers of a configuration. Fails only if memory runs out.
pub(crate) fn receiver_parts(
    alloc: Global,
    config: &WholeConfig,
) -> Result<Vec<Part<'_>>, AllocError>
    ensures { IfOk result (λ parts.
        parts_view parts.items ≡ receiver_parts (whole_config_view config.now).rest) }
{
    let mut parts = Vec::new(alloc);
    push_named_items(field_of(config, "receivers"), &mut parts)?;
    Ok(parts)
}

/// Returns the time intervals of a configuration. Fails only if memory runs out.
pub(crate) fn interval_parts(
    alloc: Global,
    config: &WholeConfig,
) -> Result<Vec<Part<'_>>, AllocError>
    ensures { IfOk result (λ parts.
        parts_view parts.items ≡ interval_parts (whole_config_view config.now).rest) }
{
    let mut parts = Vec::new(alloc);
    push_named_items(field_of(config, "time_intervals"), &mut parts)?;
    push_named_items(field_of(config, "mute_time_intervals"), &mut parts)?;
    Ok(parts)
}

/// Returns the fields of a configuration that are one part each. Fails only if memory runs out.
pub(crate) fn field_parts(alloc: Global, config: &WholeConfig) -> Result<Vec<Part<'_>>, AllocError>
    ensures { IfOk result (λ parts.
        parts_view parts.items ≡ field_parts (whole_config_view config.now).rest) }
{
    let mut parts = Vec::new(alloc);
    for (key, value) in &config.rest {
        if is_field_part(key.as_str(), value) {
            parts.push(Part {
                name: key.as_str(),
                value,
            })?;
        }
    }
    Ok(parts)
}

/// The JSON values of the inhibition rules of a configuration.
pub(crate) fn rule_values(config: &WholeConfig) -> &[Value]
    ensures { map view result.now ≡ rule_values (whole_config_view config.now).rest }
{
    items_in(field_of(config, "inhibit_rules"))
}

/// The value of a field of a configuration file that is not `null`.
fn field_of<'a>(config: &'a WholeConfig, key: &str) -> Option<&'a Value>
    ensures { option_map (λ v. view v.now) result
        ≡ field key.now (object (whole_config_view config.now).rest) }
{
    match member_of(config, key) {
        Some(value) if !value.is_null() => Some(value),
        _ => None,
    }
}

/// The value of a field of a configuration file, `null` or not.
fn member_of<'a>(config: &'a WholeConfig, key: &str) -> Option<&'a Value>
    ensures { option_map (λ v. view v.now) result
        ≡ get_member key.now (whole_config_view config.now).rest }
{
    config.rest.get(key)
}

/// The items of an array. There are none if the value is absent or is no array.
fn items_in(found: Option<&Value>) -> &[Value]
    ensures { map view result.now
        ≡ items_in_field (option_map (λ v. view v.now) found.entry) }
{
    let Some(value) = found else {
        return &[];
    };
    match value {
        Value::Array(items) => items.as_slice(),
        _ => &[],
    }
}

/// Adds the items of an array, if each of them has a name.
fn push_named_items<'a>(
    found: Option<&'a Value>,
    parts: &mut Vec<Part<'a>>,
) -> Result<(), AllocError>
    ensures { OnOk result (parts_view parts.new.items ≡ parts_view parts.old.items
        ++ named_items (option_map (λ v. view v.now) found.entry)) }
{
    let items = items_in(found);
    if !are_named(items) {
        return Ok(());
    }
    for value in items {
        if let Some(part) = named_item(value) {
            parts.push(part)?;
        }
    }
    Ok(())
}

fn named_item(value: &Value) -> Option<Part<'_>>
    ensures { option_map part_view result ≡ named_item (view value.now) }
{
    let name = item_name(value)?;
    Some(Part { name, value })
}

/// The name of an item: the text in its field `name`.
fn item_name(item: &Value) -> Option<&str>
    ensures { option_map (λ name. name.now) result ≡ item_name (view item.now) }
{
    field(item, "name")?.as_str()
}

/// Whether a field of a file is a part as a whole.
fn is_field_part(key: &str, value: &Value) -> bool
    ensures { result ≡ is_field_part key.now (view value.now) }
{
    !value.is_null() && !is_in_parts(key, value)
}

/// Whether the items of a field are the parts.
fn is_in_parts(key: &str, value: &Value) -> bool
    ensures { result ≡ is_in_parts key.now (view value.now) }
{
    (is_named_field(key) && are_all_named(value)) || (key == "inhibit_rules" && value.is_array())
}

fn is_named_field(key: &str) -> bool
    ensures { result ≡ is_named_field key.now }
{
    key == "receivers" || key == "time_intervals" || key == "mute_time_intervals"
}

/// Whether a value is an array in which each item has a name.
fn are_all_named(value: &Value) -> bool
    ensures { result ≡ are_all_named (view value.now) }
{
    match value {
        Value::Array(items) => are_named(items.as_slice()),
        _ => false,
    }
}

/// Whether each of these items has a name.
fn are_named(items: &[Value]) -> bool
    ensures { result ≡ list_all is_named (map view items.now) }
{
    items.iter().all(is_named)
}

fn is_named(item: &Value) -> bool
    ensures { result ≡ is_named (view item.now) }
{
    item_name(item).is_some()
}
