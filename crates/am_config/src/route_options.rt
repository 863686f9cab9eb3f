//! The options of routes, which routing ignores.

ghost use Rattle.std.specs.Prelude.{◌≡◌, is_none, option_map, IfOk};
ghost use Rattle.serde_json.specs.View.{view};
ghost use Rattle.am_config.specs.RouteOptions.{no_options, options_below, options_view};
ghost use Rattle.am_config.specs.RouteOptions.{option_in, option_or, unless_empty};

use am_json::field;
use serde_json::Value;
use std::alloc::{AllocError, Global};
use std::rc::Rc;

/// How the alerts of a route are grouped, and when they are sent: each option as its JSON value,
/// which is `null` if it is not set. An empty array sets no option.
///
/// A route shares the values that it inherits with its parent. Copies of a long value could take
/// the memory of the whole file once for each route.
#[derive(Drop)]
pub struct RouteOptions {
    pub group_by: Rc<Value>,
    pub group_wait: Rc<Value>,
    pub group_interval: Rc<Value>,
    pub repeat_interval: Rc<Value>,
    pub mute_time_intervals: Rc<Value>,
    pub active_time_intervals: Rc<Value>,
}

impl RouteOptions {
    /// Options of which none is set.
    pub(crate) fn none(alloc: Global) -> Result<RouteOptions, AllocError>
        ensures { IfOk result (λ o. options_view o ≡ no_options) }
    {
        let null = Rc::new(alloc, Value::Null)?;
        Ok(RouteOptions {
            group_by: null.clone()?,
            group_wait: null.clone()?,
            group_interval: null.clone()?,
            repeat_interval: null.clone()?,
            mute_time_intervals: null.clone()?,
            active_time_intervals: null,
        })
    }

    /// The options of a route with this JSON value, whose parent has these options.
    pub(crate) fn below(&self, alloc: Global, value: &Value) -> Result<RouteOptions, AllocError>
        ensures { IfOk result (λ o.
            options_view o ≡ options_below (options_view self.now) (view value.now)) }
    {
        let null = Rc::new(alloc, Value::Null)?;
        Ok(RouteOptions {
            group_by: option_or(alloc, value, "group_by", &self.group_by)?,
            group_wait: option_or(alloc, value, "group_wait", &self.group_wait)?,
            group_interval: option_or(alloc, value, "group_interval", &self.group_interval)?,
            repeat_interval: option_or(alloc, value, "repeat_interval", &self.repeat_interval)?,
            mute_time_intervals: option_or(alloc, value, "mute_time_intervals", &null)?,
            active_time_intervals: option_or(alloc, value, "active_time_intervals", &null)?,
        })
    }
}

/// A copy of the value of an option, or the other value if the route does not set the option.
fn option_or(
    alloc: Global,
    value: &Value,
    key: &str,
    other: &Rc<Value>,
) -> Result<Rc<Value>, AllocError>
    ensures { IfOk result (λ v.
        view v.value ≡ option_or key.now (view value.now) (view other.now.value)) }
{
    match option_in(value, key) {
        Some(found) => Ok(Rc::new(alloc, found.clone()?)?),
        None => other.clone(),
    }
}

/// The value of an option of a route with this JSON value. An empty array sets none.
fn option_in<'v>(value: &'v Value, key: &str) -> Option<&'v Value>
    ensures { option_map (λ v. view v.now) result ≡ option_in key.now (view value.now) }
{
    let found = field(value, key)?;
    if is_empty_array(found) {
        None
    } else {
        Some(found)
    }
}

fn is_empty_array(value: &Value) -> bool
    ensures { result ≡ is_none (unless_empty (view value.now)) }
{
    match value {
        Value::Array(items) => items.as_slice().is_empty(),
        _ => false,
    }
}
