//! Reading the universe file.

ghost use Rattle.std.specs.Prelude.{◌≡◌, ◌≢◌, ◌<◌, ◌≤◌, [], ◌∷◌, ◌++◌, length, map, None, Some};
ghost use Rattle.std.specs.Prelude.{Ok, Err, IfOk, IfErr, string_bytes, option_map, codes};
ghost use Rattle.std.specs.List.{filter_map};
ghost use Rattle.serde_json.specs.Find.{as_str};
ghost use Rattle.serde_json.specs.View.{view};
ghost use Rattle.am_universe.specs.declared.kind.Kind.TheVariants as kinds;
ghost use Rattle.am_universe.specs.declared.place.Place.TheVariants as places;
ghost use Rattle.am_universe.specs.Universe.{Values, value_fault};
ghost use Rattle.am_universe.specs.UniverseView.{label_of, texts_of};
ghost use Rattle.am_json.specs.Reading.{Gives, IsRefusalAt, read_items};
ghost use Rattle.am_json.specs.Json.{field, items_in_field};
ghost use Rattle.am_list_files.specs.UniverseFile.{FileSaysUniverse, AreTextsOfLists};
ghost use Rattle.am_list_files.specs.UniverseFile.{FileHasImpossibleTexts};
ghost use Rattle.am_list_files.specs.UniverseForm.{UniverseFileRefusedFor, value_form};
ghost use Rattle.am_list_files.specs.UniverseForm.{next_value_form, values_form, next_label_form};
ghost use Rattle.am_list_files.specs.UniverseForm.{labels_form, all_labels_form, impossible_form};
ghost use Rattle.am_list_files.specs.UniverseForm.{all_lists_form, universe_form};
ghost use Rattle.am_list_files.specs.UniverseForm.{universe_file_form};
ghost use Rattle.am_list_files.specs.MatcherTexts.{matcher_text_form};
ghost use Rattle.am_list_files.specs.SeenValues.{AreSeen, seen_value};

use am_json::{
    ReadError, as_text, check_count, check_only_fields, field, or_refused, read_json,
    read_optional_array, refuse_for, required_items, required_text, within_field, within_item,
};
use am_labels::limits::MAX_IMPOSSIBLE;
use am_labels::{Matchers, Space, parse_matchers};
use am_universe::limits::MAX_LABELS;
use am_universe::{Fault, Kind, Place, Universe};
use serde_json::Value;
use std::alloc::{AllocError, Global};
use std::collections::HashSet;

/// Reads a universe file: its labels, their values, and the impossible lists of matchers.
///
/// All are in the order of the file. A field that is `null` is absent. The JSON value of the whole
/// file is in memory until the call returns. Fails with the first fault of the file, at the place
/// `Universe`, with the pointer to the part at fault:
/// - `Limit`: more than `MAX_FILE_BYTES` bytes, [`MAX_LABELS`] labels, `MAX_VALUES` values of a
///   label, [`MAX_IMPOSSIBLE`] lists or `MAX_MATCHERS` matchers of a list;
/// - `NotJson`: the bytes have no JSON value;
/// - `Shape`: a value is not of its kind, a required field is absent, or a name is not a label
///   name;
/// - `UnknownField`: there is a field that the form does not have;
/// - `Empty`: a name or a value is the empty text, or a label has no values;
/// - `Duplicate`: an earlier label has the same name, or an earlier value of the label is the same;
/// - `BadMatcher`: a text does not spell a list of matchers;
/// - `PatternProfile`: a pattern is outside the profile;
/// - `Pattern`: the engine refuses a pattern of the profile. It refuses each that its grammar does
///   not read. It may also refuse one that is too large, if no other fault comes before it.
///
/// If memory runs out, the fault is `Memory`, at the place `Memory`, with the empty pointer.
pub fn read_universe(alloc: Global, bytes: &[u8]) -> Result<Space, Fault>
    ensures says { IfOk result (λ s. FileSaysUniverse bytes.now s) }
    ensures first { IfErr result (IsRefusalAt places.Universe (UniverseFileRefusedFor bytes.now)) }
{
    let (space, _texts) = read_universe_with_texts(alloc, bytes)?;
    Ok(space)
}

/// Reads a universe file as [`read_universe`] does, and also returns the texts of its impossible
/// lists.
///
/// The texts are in the order of the file, word for word. The faults are those of
/// [`read_universe`].
pub fn read_universe_with_texts(alloc: Global, bytes: &[u8]) -> Result<(Space, Vec<String>), Fault>
    ensures says { IfOk result (λ s. FileSaysUniverse bytes.now s.0) }
    ensures texts { IfOk result (λ s.
        AreTextsOfLists (map string_bytes s.1.items) s.0.impossible) }
    ensures word_for_word { IfOk result (λ s.
        FileHasImpossibleTexts bytes.now (map string_bytes s.1.items)) }
    ensures first { IfErr result (IsRefusalAt places.Universe (UniverseFileRefusedFor bytes.now)) }
{
    match read_universe_file(alloc, bytes) {
        Ok(found) => Ok(found),
        Err(error) => Err(error.at(alloc, Place::Universe)),
    }
}

#[tactic(auto, using(am_json::proofs::Readings::steps), unfolding(crate::specs::UniverseForm::universe_file_form))]
fn read_universe_file(alloc: Global, bytes: &[u8]) -> Result<(Space, Vec<String>), ReadError>
    ensures space { Gives (λ s. s.0) result (universe_file_form bytes.now) }
    ensures texts { IfOk result (λ s.
        FileHasImpossibleTexts bytes.now (map string_bytes s.1.items)) }
{
    let value = read_json(alloc, bytes)?;
    let space = read_universe_object(alloc, &value)?;
    let texts = texts_of_lists(alloc, &value)?;
    Ok((space, texts))
}

#[tactic(auto, using(am_json::proofs::Readings::steps), unfolding(crate::specs::UniverseForm::universe_form))]
fn read_universe_object(alloc: Global, value: &Value) -> Result<Space, ReadError>
    ensures { Gives (λ s. s) result (universe_form (view value.now)) }
{
    check_only_fields(alloc, value, &["labels", "impossible"])?;
    let universe = read_all_labels(alloc, value)?;
    let impossible = read_all_lists(alloc, value)?;
    Ok(Space::without(universe, impossible))
}

// ---- The labels.

#[tactic(auto, using(am_json::proofs::Readings::steps), unfolding(crate::specs::UniverseForm::all_labels_form))]
fn read_all_labels(alloc: Global, value: &Value) -> Result<Universe, ReadError>
    ensures { Gives (λ u. u) result (all_labels_form (view value.now)) }
{
    let items = required_items(alloc, value, "labels")?;
    within_field(alloc, "labels", read_labels(alloc, items))
}

#[tactic(auto, unfolding(crate::specs::UniverseForm::labels_form))]
fn read_labels(alloc: Global, items: &[Value]) -> Result<Universe, ReadError>
    ensures { Gives (λ u. u) result (labels_form (map view items.now)) }
{
    check_count(alloc, MAX_LABELS, items.len())?;
    read_each_label(alloc, items)
}

fn read_each_label(alloc: Global, items: &[Value]) -> Result<Universe, ReadError>
    requires { length items.now ≤ MAX_LABELS }
    ensures { Gives (λ u. u) result (read_items next_label_form [] (map view items.now)) }
{
    let mut universe = Universe::empty(alloc);
    for item in items {
        let found = read_next_label(alloc, &universe, item);
        let next = within_item(alloc, universe.len(), found)?;
        universe.add_checked(next.0, next.1)?;
    }
    Ok(universe)
}

/// Reads the name and the values of a label that follows those of the universe.
#[tactic(auto, using(am_json::proofs::Readings::steps), unfolding(crate::specs::UniverseForm::next_label_form))]
fn read_next_label(
    alloc: Global,
    universe: &Universe,
    value: &Value,
) -> Result<(String, Vec<Option<String>>), ReadError>
    ensures { Gives (λ label. label_of label.0 label.1) result
        (next_label_form universe.now (view value.now)) }
{
    check_only_fields(alloc, value, &["name", "values"])?;
    let name = required_text(alloc, value, "name")?;
    within_field(alloc, "name", refuse_for(alloc, universe.name_fault(name)))?;
    let items = required_items(alloc, value, "values")?;
    let values = within_field(alloc, "values", read_values(alloc, items))?;
    Ok((String::from_str(alloc, name)?, values))
}

#[tactic(auto, unfolding(crate::specs::UniverseForm::values_form))]
fn read_values(alloc: Global, items: &[Value]) -> Result<Vec<Option<String>>, ReadError>
    ensures { Gives (λ values. texts_of values.items) result (values_form (map view items.now)) }
{
    refuse_for(alloc, Universe::count_fault(items.len()))?;
    read_each_value(alloc, items)
}

fn read_each_value(alloc: Global, items: &[Value]) -> Result<Vec<Option<String>>, ReadError>
    ensures { Gives (λ values. texts_of values.items) result
        (read_items next_value_form [] (map view items.now)) }
{
    let mut values = Vec::new(alloc);
    let mut seen = HashSet::new(alloc);
    for item in items {
        let found = read_next_value(alloc, &mut seen, item);
        let next = within_item(alloc, values.len(), found)?;
        values.push(next)?;
    }
    Ok(values)
}

/// Reads a value of a label. The values before it were seen, and then it is seen too.
#[tactic(auto, unfolding(crate::specs::UniverseForm::next_value_form))]
fn read_next_value<'v>(
    alloc: Global,
    seen: &mut HashSet<Option<&'v str>>,
    value: &'v Value,
) -> Result<Option<String>, ReadError>
    ensures reading { (before : Values) → AreSeen seen.old before
        → Gives (option_map string_bytes) result (next_value_form before (view value.now)) }
    ensures seen { (before : Values) → AreSeen seen.old before → IfOk result (λ next.
        AreSeen seen.new (before ++ option_map string_bytes next ∷ [])) }
{
    let value = read_value(alloc, value)?;
    refuse_for(alloc, next_value_fault(seen, value)?)?;
    Ok(owned(alloc, value)?)
}

/// Why a value cannot follow those that were seen, as `Universe::value_fault` says it. If it can,
/// it is then seen too. Fails only if memory runs out.
fn next_value_fault<'v>(
    seen: &mut HashSet<Option<&'v str>>,
    value: Option<&'v str>,
) -> Result<Option<Kind>, AllocError>
    ensures kind { IfOk result (λ fault. fault ≢ Some kinds.Write) }
    ensures fault { (before : Values) → AreSeen seen.old before → IfOk result (λ fault.
        fault ≡ value_fault before (seen_value value.entry)) }
    ensures seen { (before : Values) → AreSeen seen.old before → IfOk result (λ fault.
        fault ≡ None → AreSeen seen.new (before ++ seen_value value.entry ∷ [])) }
{
    if value == Some("") {
        return Ok(Some(Kind::Empty));
    }
    if !seen.insert(value)? {
        return Ok(Some(Kind::Duplicate));
    }
    Ok(None)
}

/// Reads a text, or `None` for `null`.
fn read_value(alloc: Global, value: &Value) -> Result<Option<&str>, ReadError>
    ensures { Gives (option_map (λ text. text.now)) result (value_form (view value.now)) }
{
    if value.is_null() {
        return Ok(None);
    }
    let text = as_text(alloc, value)?;
    Ok(Some(text))
}

fn owned(alloc: Global, value: Option<&str>) -> Result<Option<String>, AllocError>
    ensures { IfOk result (λ o.
        option_map string_bytes o ≡ option_map (λ text. text.now) value.entry) }
{
    match value {
        Some(text) => Ok(Some(String::from_str(alloc, text)?)),
        None => Ok(None),
    }
}

// ---- The lists that are impossible.

fn read_all_lists(alloc: Global, value: &Value) -> Result<Vec<Matchers>, ReadError>
    ensures reading { Gives (λ lists. lists.items) result (all_lists_form (view value.now)) }
    ensures few { IfOk result (λ lists. length lists.items ≤ MAX_IMPOSSIBLE) }
{
    read_optional_array(alloc, value, "impossible", MAX_IMPOSSIBLE, |item| {
        read_impossible(alloc, item)
    })
}

#[tactic(auto, unfolding(crate::specs::UniverseForm::impossible_form))]
fn read_impossible(alloc: Global, value: &Value) -> Result<Matchers, ReadError>
    ensures { Gives (λ ms. ms) result (impossible_form (view value.now)) }
{
    let text = as_text(alloc, value)?;
    read_matcher_text(alloc, text)
}

/// Reads the list of matchers that a text spells. All its faults are at the text.
fn read_matcher_text(alloc: Global, text: &str) -> Result<Matchers, ReadError>
    ensures { Gives (λ ms. ms) result (matcher_text_form [] [] text.now) }
{
    or_refused(alloc, parse_matchers(alloc, text))
}

/// Returns the texts among the items of `impossible`. If the value says a space, each item is a
/// text.
fn texts_of_lists(alloc: Global, value: &Value) -> Result<Vec<String>, AllocError>
    ensures { IfOk result (λ texts. map string_bytes texts.items
        ≡ filter_map as_str (items_in_field (field (codes "impossible") (view value.now)))) }
{
    let Some(found) = field(value, "impossible") else {
        return Ok(Vec::new(alloc));
    };
    match found.as_array() {
        Some(items) => texts_among(alloc, items.as_slice()),
        None => Ok(Vec::new(alloc)),
    }
}

fn texts_among(alloc: Global, items: &[Value]) -> Result<Vec<String>, AllocError>
    ensures { IfOk result (λ texts.
        map string_bytes texts.items ≡ filter_map as_str (map view items.now)) }
{
    let mut texts = Vec::new(alloc);
    for item in items {
        if let Some(text) = item.as_str() {
            texts.push(String::from_str(alloc, text)?)?;
        }
    }
    Ok(texts)
}
