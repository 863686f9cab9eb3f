//! Reading the configuration file.

ghost use Rattle.std.specs.Prelude.{◌≡◌, ◌≤◌, ◌+◌, ℕ, List, [], map, None, IfOk, IfErr};
ghost use Rattle.std.specs.Prelude.{string_bytes, option_map, false, Some};
ghost use Rattle.serde_json.specs.Data.{Data};
ghost use Rattle.serde_json.specs.View.{view, members_view};
ghost use Rattle.am_universe.specs.declared.place.Place.TheVariants as places;
ghost use Rattle.am_json.specs.Json.{is_one_of, json_of};
ghost use Rattle.am_json.specs.Reading.{Gives, IsRefusalAt, Reading, check_only_fields};
ghost use Rattle.am_json.specs.Reading.{read_counted, read_items};
ghost use Rattle.am_config.specs.ConfigFile.{FileSaysConfig, route_fields, route_matcher_fields};
ghost use Rattle.am_config.specs.ConfigFile.{route_count, routes_count, routes_of};
ghost use Rattle.am_config.specs.ConfigFile.{receiver_above, options_above};
ghost use Rattle.am_config.specs.RouteOptions.{options_below, options_view};
ghost use Rattle.am_config.specs.RouteView.{route_view, names_of};
ghost use Rattle.am_config.specs.ConfigView.{config_view, parent_view, fields_view};
ghost use Rattle.am_config.specs.ConfigView.{whole_config_view};
ghost use Rattle.am_config.specs.ConfigForm.{next_receiver_form, receiver_names_form};
ghost use Rattle.am_config.specs.ConfigForm.{receivers_form, parent_receiver, receiver_position};
ghost use Rattle.am_config.specs.ConfigForm.{effective_receiver, receiver_form, matchers_form};
ghost use Rattle.am_config.specs.ConfigForm.{route_settings_form, route_fields_form, route_form};
ghost use Rattle.am_config.specs.ConfigForm.{equal_name_form, equal_form, rule_form, rules_form};
ghost use Rattle.am_config.specs.ConfigForm.{next_child_form, config_form, config_file_form};
ghost use Rattle.am_config.specs.ConfigForm.{receiver_name_fault, ConfigFileRefusedFor};
ghost use Rattle.am_config.specs.WholeConfig.{FileSaysWholeConfig, rest_of};

use crate::config::{Config, position};
use crate::limits::{MAX_EQUAL_NAMES, MAX_LEVELS, MAX_RECEIVERS, MAX_ROUTES, MAX_RULES};
use crate::route::{Route, RouteSettings};
use crate::route_matchers::{MatcherFields, read_matchers};
use crate::route_options::RouteOptions;
use crate::rule::Rule;
use crate::whole_config::WholeConfig;
use am_json::{
    ReadError, as_object, as_text, check_count, check_only_fields, field, read_boolean_or,
    read_json, read_json_fields, read_optional_array, read_optional_items, refuse_for,
    required_field, required_items, required_text, within_field, within_item,
};
use am_labels::Matchers;
use am_list_files::label_name_fault;
use am_universe::{Fault, Kind, Place};
use serde_json::{Map, Value};
use std::alloc::{AllocError, Global};

/// The fields of a route. Those that say how alerts are grouped and when they are sent may have any
/// value.
const ROUTE_FIELDS: [&str; 12] = [
    "receiver",
    "matchers",
    "match",
    "match_re",
    "continue",
    "routes",
    "group_by",
    "group_wait",
    "group_interval",
    "repeat_interval",
    "mute_time_intervals",
    "active_time_intervals",
];

/// The fields of the file that are read.
const CONFIG_FIELDS: [&str; 3] = ["receivers", "route", "inhibit_rules"];

/// Reads a configuration file: an Alertmanager configuration (reference 0.25) as JSON.
///
/// A field that is `null` is absent. Some fields may have any value: of a route, those that say how
/// alerts are grouped and when they are sent; of an inhibition rule, `name`; of a receiver, all but
/// `name`; and of the file, all but `receivers`, `route` and `inhibit_rules`. The JSON values of
/// these three are in memory until the call returns. Each name of a receiver is compared with those
/// before it, and each that a route has with those declared. Fails with the first fault of the
/// file, at the place `Config`, with the pointer to the part at fault:
/// - `Limit`: more than `MAX_FILE_BYTES` bytes, [`MAX_RECEIVERS`] receivers, [`MAX_ROUTES`] routes,
///   [`MAX_LEVELS`] levels of routes, `MAX_MATCHERS` matchers of a route or of one side of a rule,
///   [`MAX_RULES`] inhibition rules or [`MAX_EQUAL_NAMES`] names in `equal`;
/// - `NotJson`: the bytes have no JSON value;
/// - `Shape`: a value is not of its kind, a required field is absent, or the top-level route names
///   no receiver;
/// - `UnknownField`: a route or an inhibition rule has a field that the form does not have;
/// - `Empty`: the name of a receiver is the empty text, or one in `equal`, or in `match`,
///   `match_re` and the like;
/// - `Duplicate`: an earlier receiver has the same name;
/// - `UndefinedReceiver`: a route names a receiver that is not declared;
/// - `RootMatchers`: the top-level route has matchers;
/// - `BadMatcher`: a text in `matchers` or the like does not spell a list of matchers;
/// - `PatternProfile`: a pattern is outside the profile;
/// - `Pattern`: the engine refuses a pattern of the profile. It refuses each that its grammar does
///   not read. It may also refuse one that is too large, if no other fault comes before it.
///
/// If memory runs out, the fault is `Memory`, at the place `Memory`, with the empty pointer.
pub fn read_config(alloc: Global, bytes: &[u8]) -> Result<Config, Fault>
    ensures says { IfOk result (λ c. FileSaysConfig bytes.now (config_view c)) }
    ensures first { IfErr result (IsRefusalAt places.Config (ConfigFileRefusedFor bytes.now)) }
{
    match read_config_file(alloc, bytes) {
        Ok(config) => Ok(config),
        Err(error) => Err(error.at(alloc, Place::Config)),
    }
}

/// Reads a configuration file, and keeps its fields but `route`. Fails as [`read_config`] does.
///
/// The JSON value of the whole file is in memory until the call returns.
pub fn read_whole_config(alloc: Global, bytes: &[u8]) -> Result<WholeConfig, Fault>
    ensures says { IfOk result (λ w. FileSaysWholeConfig bytes.now (whole_config_view w)) }
    ensures first { IfErr result (IsRefusalAt places.Config (ConfigFileRefusedFor bytes.now)) }
{
    match read_whole_config_file(alloc, bytes) {
        Ok(whole) => Ok(whole),
        Err(error) => Err(error.at(alloc, Place::Config)),
    }
}

fn read_config_file(alloc: Global, bytes: &[u8]) -> Result<Config, ReadError>
    ensures { Gives config_view result (config_file_form bytes.now) }
{
    let value = read_json_fields(alloc, bytes, &CONFIG_FIELDS)?;
    read_config_value(alloc, &value)
}

#[tactic(auto, using(am_json::proofs::Readings::steps), unfolding(crate::specs::ConfigForm::config_file_form))]
fn read_whole_config_file(alloc: Global, bytes: &[u8]) -> Result<WholeConfig, ReadError>
    ensures reads { Gives (λ w. config_view w.config) result (config_file_form bytes.now) }
    ensures rest { IfOk result (λ w.
        option_map rest_of (json_of bytes.now) ≡ Some (members_view w.rest.entries)) }
{
    let value = read_json(alloc, bytes)?;
    let config = read_config_value(alloc, &value)?;
    let rest = rest_of(alloc, value);
    Ok(WholeConfig { config, rest })
}

#[tactic(auto, using(am_json::proofs::Readings::steps), unfolding(crate::specs::ConfigForm::config_form))]
fn read_config_value(alloc: Global, value: &Value) -> Result<Config, ReadError>
    ensures { Gives config_view result (config_form (view value.now)) }
{
    as_object(alloc, value)?;
    let receivers = read_receivers(alloc, value)?;
    let root = required_field(alloc, value, "route")?;
    let root = within_field(alloc, "route", read_root(alloc, &receivers, root))?;
    let rules = read_rules(alloc, value)?;
    Ok(Config {
        receivers,
        root,
        rules,
    })
}

/// The fields of an object but `route`.
fn rest_of(alloc: Global, value: Value) -> Map<String, Value>
    ensures { members_view result.entries ≡ rest_of (view value) }
{
    let Value::Object(mut members) = value else {
        return Map::new(alloc);
    };
    drop(members.remove("route"));
    members
}

// ---- The receivers.

#[tactic(auto, using(am_json::proofs::Readings::steps), unfolding(crate::specs::ConfigForm::receivers_form))]
fn read_receivers(alloc: Global, value: &Value) -> Result<Vec<String>, ReadError>
    ensures { Gives (λ names. names_of names.items) result (receivers_form (view value.now)) }
{
    let items = required_items(alloc, value, "receivers")?;
    within_field(alloc, "receivers", read_receiver_names(alloc, items))
}

#[tactic(auto, unfolding(crate::specs::ConfigForm::receiver_names_form))]
fn read_receiver_names(alloc: Global, items: &[Value]) -> Result<Vec<String>, ReadError>
    ensures { Gives (λ names. names_of names.items) result
        (receiver_names_form (map view items.now)) }
{
    check_count(alloc, MAX_RECEIVERS, items.len())?;
    read_each_name(alloc, items, |before, item| {
        read_next_receiver(alloc, before, item)
    })
}

/// Reads each name with `read`, which also gets the names before it. Fails with the first refusal,
/// at its item.
fn read_each_name<F: Fn(&[String], &Value) -> Result<String, ReadError>>(
    alloc: Global,
    items: &[Value],
    read: F,
) -> Result<Vec<String>, ReadError>
    requires { F.IsAlwaysCallable read }
    ensures reading { (reading : List (List ℕ) → Data → Reading (List ℕ))
        → ((before : _) (value : _) (found : _) → F.post read before value found
        → Gives string_bytes found (reading (names_of before.now) (view value.now)))
        → Gives (λ names. names_of names.items) result
        (read_items reading [] (map view items.now)) }
{
    let mut names = Vec::new(alloc);
    for item in items {
        let found = read(names.as_slice(), item);
        let next = within_item(alloc, names.len(), found)?;
        names.push(next)?;
    }
    Ok(names)
}

/// Reads the name of a receiver that follows others.
#[tactic(auto, using(am_json::proofs::Readings::steps), unfolding(crate::specs::ConfigForm::next_receiver_form))]
fn read_next_receiver(alloc: Global, before: &[String], value: &Value) -> Result<String, ReadError>
    ensures { Gives string_bytes result
        (next_receiver_form (names_of before.now) (view value.now)) }
{
    as_object(alloc, value)?;
    let name = required_text(alloc, value, "name")?;
    within_field(
        alloc,
        "name",
        refuse_for(alloc, receiver_name_fault(before, name)),
    )?;
    Ok(String::from_str(alloc, name)?)
}

fn receiver_name_fault(before: &[String], name: &str) -> Option<Kind>
    ensures { result ≡ receiver_name_fault (names_of before.now) name.now }
{
    if name.is_empty() {
        return Some(Kind::Empty);
    }
    if is_one_of(name, before) {
        return Some(Kind::Duplicate);
    }
    None
}

fn is_one_of(name: &str, names: &[String]) -> bool
    ensures { result ≡ is_one_of name.now (names_of names.now) }
{
    names.iter().any(|other| other.as_str() == name)
}

// ---- The routes.

fn read_root(alloc: Global, names: &[String], value: &Value) -> Result<Route, ReadError>
    ensures { Gives route_view result
        (route_form (names_of names.now) MAX_LEVELS None 0 (view value.now)) }
{
    let (root, _) = read_route(alloc, names, MAX_LEVELS, None, 0, value)?;
    Ok(root)
}

/// The names of the fields of a route that have its matchers.
const MATCHER_FIELDS: MatcherFields<'static> = MatcherFields {
    texts: "matchers",
    equalities: "match",
    patterns: "match_re",
};

/// Reads the settings of a route. `parent` has those of its parent, if it has one.
#[tactic(auto, using(am_json::proofs::Readings::steps), unfolding(crate::specs::ConfigForm::route_settings_form))]
fn read_route_settings(
    alloc: Global,
    names: &[String],
    parent: Option<&RouteSettings>,
    value: &Value,
) -> Result<RouteSettings, ReadError>
    ensures { Gives (λ s. s) result
        (route_settings_form (names_of names.now) (parent_view parent.entry) (view value.now)) }
{
    check_route_fields(alloc, value)?;
    let receiver = read_receiver(alloc, names, receiver_above(parent), value)?;
    let matchers = read_route_matchers(alloc, parent.is_none(), value)?;
    let continues = read_boolean_or(alloc, value, "continue", false)?;
    let options = read_options(alloc, parent, value)?;
    Ok(RouteSettings {
        receiver,
        matchers,
        continues,
        options,
    })
}

/// The receiver that a route inherits, if it has a parent.
fn receiver_above(parent: Option<&RouteSettings>) -> Option<usize>
    ensures { result ≡ receiver_above (parent_view parent.entry) }
{
    parent.map(RouteSettings::receiver)
}

/// Reads the options of a route. Fails only if memory runs out.
fn read_options(
    alloc: Global,
    parent: Option<&RouteSettings>,
    value: &Value,
) -> Result<RouteOptions, AllocError>
    ensures { IfOk result (λ o. options_view o
        ≡ options_below (options_above (parent_view parent.entry)) (view value.now)) }
{
    match parent {
        Some(parent) => parent.options.below(alloc, value),
        None => RouteOptions::none(alloc)?.below(alloc, value),
    }
}

/// What is read of a route before its children: its settings, and the JSON values of the children.
#[derive(Drop)]
struct RouteFields<'v> {
    settings: RouteSettings,
    items: &'v [Value],
}

/// Reads the fields of a route. `before` is the number of routes before it in preorder.
#[tactic(auto, using(am_json::proofs::Readings::steps), unfolding(crate::specs::ConfigForm::route_fields_form))]
fn read_route_fields<'v>(
    alloc: Global,
    names: &[String],
    parent: Option<&RouteSettings>,
    before: usize,
    value: &'v Value,
) -> Result<RouteFields<'v>, ReadError>
    requires { before ≤ MAX_ROUTES }
    ensures { Gives fields_view result (route_fields_form (names_of names.now)
        (parent_view parent.entry) before (view value.now)) }
{
    check_count(alloc, MAX_ROUTES, before + 1)?;
    let settings = read_route_settings(alloc, names, parent, value)?;
    let items = read_optional_items(alloc, value, "routes")?;
    Ok(RouteFields { settings, items })
}

/// Refuses a route with a field that the form does not have.
fn check_route_fields(alloc: Global, value: &Value) -> Result<(), ReadError>
    ensures { Gives (λ _. tt) result (check_only_fields route_fields (view value.now)) }
{
    check_only_fields(alloc, value, &ROUTE_FIELDS)
}

fn read_route_matchers(alloc: Global, is_root: bool, value: &Value) -> Result<Matchers, ReadError>
    ensures { Gives (λ ms. ms) result
        (matchers_form route_matcher_fields is_root (view value.now)) }
{
    read_matchers(alloc, MATCHER_FIELDS, is_root, value)
}

/// Reads one route, and the routes below it.
///
/// `levels` is the number of levels that are left, its own included. `parent` has the settings of
/// its parent, if it has one. `before` counts the routes read so far; the new count is returned.
#[cycle(routes)]
fn read_route(
    alloc: Global,
    names: &[String],
    levels: usize,
    parent: Option<&RouteSettings>,
    before: usize,
    value: &Value,
) -> Result<(Route, usize), ReadError>
    requires { before ≤ MAX_ROUTES }
    ensures reads { Gives (λ r. route_view r.0) result (route_form (names_of names.now) levels
        (parent_view parent.entry) before (view value.now)) }
    ensures number { IfOk result (λ r.
        (r.1 ≡ before + route_count (route_view r.0)) × (r.1 ≤ MAX_ROUTES)) }
{
    if levels == 0 {
        return Err(ReadError::refused(alloc, Kind::Limit));
    }
    let RouteFields { settings, items } = read_route_fields(alloc, names, parent, before, value)?;
    let (routes, after) = within_field(
        alloc,
        "routes",
        read_routes(alloc, names, levels - 1, &settings, before + 1, items),
    )?;
    Ok((Route { settings, routes }, after))
}

/// Reads the children of a route with these settings. `before` counts the routes read so far; the
/// new count is returned.
#[cycle(routes)]
fn read_routes(
    alloc: Global,
    names: &[String],
    levels: usize,
    parent: &RouteSettings,
    before: usize,
    items: &[Value],
) -> Result<(Vec<Route>, usize), ReadError>
    requires { before ≤ MAX_ROUTES }
    ensures reads { Gives (λ rs. map route_view rs.0.items) result
        (read_items (next_child_form (names_of names.now) levels parent.now before) []
        (map view items.now)) }
    ensures number { IfOk result (λ rs.
        (rs.1 ≡ before + routes_count (routes_of (map route_view rs.0.items)))
        × (rs.1 ≤ MAX_ROUTES)) }
{
    let mut routes = Vec::new(alloc);
    let mut after = before;
    for item in items {
        let found = read_route(alloc, names, levels, Some(parent), after, item);
        let (next, count) = within_item(alloc, routes.len(), found)?;
        routes.push(next)?;
        after = count;
    }
    Ok((routes, after))
}

/// Reads the receiver of a route: its own, or that of its parent if it names none.
#[tactic(auto, using(am_json::proofs::Readings::within_gives), unfolding(crate::specs::ConfigForm::receiver_form))]
fn read_receiver(
    alloc: Global,
    names: &[String],
    parent: Option<usize>,
    value: &Value,
) -> Result<usize, ReadError>
    ensures { Gives (λ r. r) result (receiver_form (names_of names.now) parent (view value.now)) }
{
    within_field(
        alloc,
        "receiver",
        effective_receiver(alloc, names, parent, field(value, "receiver")),
    )
}

fn effective_receiver(
    alloc: Global,
    names: &[String],
    parent: Option<usize>,
    found: Option<&Value>,
) -> Result<usize, ReadError>
    ensures { Gives (λ r. r) result
        (effective_receiver (names_of names.now) parent
        (option_map (λ v. view v.now) found.entry)) }
{
    let Some(found) = found else {
        return parent_receiver(alloc, parent);
    };
    let name = as_text(alloc, found)?;
    if name.is_empty() {
        return parent_receiver(alloc, parent);
    }
    receiver_position(alloc, names, name)
}

fn parent_receiver(alloc: Global, parent: Option<usize>) -> Result<usize, ReadError>
    ensures { Gives (λ r. r) result (parent_receiver parent) }
{
    match parent {
        Some(receiver) => Ok(receiver),
        None => Err(ReadError::refused(alloc, Kind::Shape)),
    }
}

fn receiver_position(alloc: Global, names: &[String], name: &str) -> Result<usize, ReadError>
    ensures { Gives (λ r. r) result (receiver_position (names_of names.now) name.now) }
{
    match position(names, name) {
        Some(receiver) => Ok(receiver),
        None => Err(ReadError::refused(alloc, Kind::UndefinedReceiver)),
    }
}

// ---- The inhibition rules.

/// The fields of an inhibition rule. Its name is ignored.
const RULE_FIELDS: [&str; 8] = [
    "name",
    "source_matchers",
    "source_match",
    "source_match_re",
    "target_matchers",
    "target_match",
    "target_match_re",
    "equal",
];

/// The names of the fields of a rule that have the matchers of its source side.
const SOURCE_FIELDS: MatcherFields<'static> = MatcherFields {
    texts: "source_matchers",
    equalities: "source_match",
    patterns: "source_match_re",
};

/// The names of the fields of a rule that have the matchers of its target side.
const TARGET_FIELDS: MatcherFields<'static> = MatcherFields {
    texts: "target_matchers",
    equalities: "target_match",
    patterns: "target_match_re",
};

fn read_rules(alloc: Global, value: &Value) -> Result<Vec<Rule>, ReadError>
    ensures { Gives (λ rules. rules.items) result (rules_form (view value.now)) }
{
    read_optional_array(alloc, value, "inhibit_rules", MAX_RULES, |item| {
        read_rule(alloc, item)
    })
}

#[tactic(auto, using(am_json::proofs::Readings::steps), unfolding(crate::specs::ConfigForm::rule_form))]
fn read_rule(alloc: Global, value: &Value) -> Result<Rule, ReadError>
    ensures { Gives (λ rule. rule) result (rule_form (view value.now)) }
{
    check_only_fields(alloc, value, &RULE_FIELDS)?;
    let source = read_matchers(alloc, SOURCE_FIELDS, false, value)?;
    let target = read_matchers(alloc, TARGET_FIELDS, false, value)?;
    let equal = read_equal(alloc, value)?;
    Ok(Rule {
        source,
        target,
        equal,
    })
}

#[tactic(auto, using(am_json::proofs::Readings::steps), unfolding(am_json::specs::OptionalItems::read_optional_array))]
fn read_equal(alloc: Global, value: &Value) -> Result<Vec<String>, ReadError>
    ensures { Gives (λ names. names_of names.items) result (equal_form (view value.now)) }
{
    let items = read_optional_items(alloc, value, "equal")?;
    within_field(alloc, "equal", read_equal_names(alloc, items))
}

#[tactic(auto, unfolding(am_json::specs::Reading::read_counted))]
fn read_equal_names(alloc: Global, items: &[Value]) -> Result<Vec<String>, ReadError>
    ensures { Gives (λ names. names_of names.items) result
        (read_counted MAX_EQUAL_NAMES equal_name_form (map view items.now)) }
{
    check_count(alloc, MAX_EQUAL_NAMES, items.len())?;
    read_each_name(alloc, items, |_, item| read_equal_name(alloc, item))
}

/// Reads the name of a label, which must not be empty.
#[tactic(auto, using(am_json::proofs::Readings::steps), unfolding(crate::specs::ConfigForm::equal_name_form))]
fn read_equal_name(alloc: Global, value: &Value) -> Result<String, ReadError>
    ensures { Gives string_bytes result (equal_name_form (view value.now)) }
{
    let name = as_text(alloc, value)?;
    refuse_for(alloc, label_name_fault(name))?;
    Ok(String::from_str(alloc, name)?)
}
