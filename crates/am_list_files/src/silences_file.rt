//! Reading an export of silences.

ghost use Rattle.std.specs.Prelude.{◌≡◌, ◌≢◌, ◌≤◌, [], map, length, IfOk, IfErr};
ghost use Rattle.serde_json.specs.View.{view};
ghost use Rattle.am_universe.specs.declared.place.Place.TheVariants as places;
ghost use Rattle.am_json.specs.Reading.{Gives, IsRefusalAt, read_items};
ghost use Rattle.am_list_files.specs.SilencesFile.{FileSaysSilences, flagged_op};
ghost use Rattle.am_list_files.specs.SilencesForm.{SilencesFileRefusedFor, matcher_count_fault};
ghost use Rattle.am_list_files.specs.SilencesForm.{label_name_form, flagged_matcher_form};
ghost use Rattle.am_list_files.specs.SilencesForm.{silence_matcher_form, silence_matchers_form};
ghost use Rattle.am_list_files.specs.SilencesForm.{instant_form, required_instant_form};
ghost use Rattle.am_list_files.specs.SilencesForm.{silence_form, silences_form};
ghost use Rattle.am_list_files.specs.SilencesForm.{silences_file_form};

use crate::instant::{Timestamp, parse_instant};
use crate::limits::MAX_SILENCES;
use crate::matcher::{label_name_fault, new_matcher};
use crate::silence::{Silence, Silences};
use am_json::{
    ReadError, as_object, or_refused, read_boolean_or, read_each_item, read_items_or_null,
    read_json, refuse_for, required_items, required_text, within_field,
};
use am_labels::limits::MAX_MATCHERS;
use am_labels::{Matcher, Matchers, Op};
use am_universe::{Fault, Kind, Place};
use serde_json::Value;
use std::alloc::Global;

/// Reads an export of silences, as `amtool silence query -o json` writes it; `null` has none.
///
/// A field that is `null` is absent. Fields that the form does not name are ignored, the status
/// among them. Fails with the first fault of the file, at the place `Silences`, with the pointer to
/// the part at fault:
/// - `Limit`: more than `MAX_FILE_BYTES` bytes, [`MAX_SILENCES`] silences or [`MAX_MATCHERS`]
///   matchers of a silence;
/// - `NotJson`: the bytes have no JSON value;
/// - `Shape`: a value is not of its kind, or a required field is absent;
/// - `Empty`: a silence has no matchers, or a matcher's name is the empty text;
/// - `BadTime`: a text is not an instant;
/// - `PatternProfile`: a pattern is outside the profile;
/// - `Pattern`: the engine refuses a pattern of the profile. It refuses each that its grammar does
///   not read. It may also refuse one that is too large, if no other fault comes before it.
///
/// If memory runs out, the fault is `Memory`, at the place `Memory`, with the empty pointer.
pub fn read_silences(alloc: Global, bytes: &[u8]) -> Result<Silences, Fault>
    ensures says { IfOk result (λ silences. FileSaysSilences bytes.now silences) }
    ensures first { IfErr result (IsRefusalAt places.Silences (SilencesFileRefusedFor bytes.now)) }
{
    match read_silences_file(alloc, bytes) {
        Ok(silences) => Ok(silences),
        Err(error) => Err(error.at(alloc, Place::Silences)),
    }
}

#[tactic(auto, using(am_json::proofs::Readings::steps), unfolding(crate::specs::SilencesForm::silences_file_form))]
fn read_silences_file(alloc: Global, bytes: &[u8]) -> Result<Silences, ReadError>
    ensures { Gives (λ s. s) result (silences_file_form bytes.now) }
{
    let value = read_json(alloc, bytes)?;
    read_silences_value(alloc, &value)
}

fn read_silences_value(alloc: Global, value: &Value) -> Result<Silences, ReadError>
    ensures { Gives (λ s. s) result (silences_form (view value.now)) }
{
    let read = |item: &Value| read_silence(alloc, item);
    let silences = read_items_or_null(alloc, value, MAX_SILENCES, read)?;
    Ok(Silences { silences })
}

#[tactic(auto, using(am_json::proofs::Readings::steps), unfolding(crate::specs::SilencesForm::silence_form))]
fn read_silence(alloc: Global, value: &Value) -> Result<Silence, ReadError>
    ensures { Gives (λ s. s) result (silence_form (view value.now)) }
{
    as_object(alloc, value)?;
    let items = required_items(alloc, value, "matchers")?;
    let matchers = within_field(alloc, "matchers", read_silence_matchers(alloc, items))?;
    let starts = required_instant(alloc, value, "startsAt")?;
    let ends = required_instant(alloc, value, "endsAt")?;
    Ok(Silence {
        matchers,
        starts,
        ends,
    })
}

#[tactic(auto, using(am_json::proofs::Readings::steps), unfolding(crate::specs::SilencesForm::silence_matchers_form))]
fn read_silence_matchers(alloc: Global, items: &[Value]) -> Result<Matchers, ReadError>
    ensures { Gives (λ ms. ms) result (silence_matchers_form (map view items.now)) }
{
    refuse_for(alloc, matcher_count_fault(items.len()))?;
    read_each_silence_matcher(alloc, items)
}

/// Why a silence may not have this number of matchers: it has none, or too many.
fn matcher_count_fault(count: usize) -> Option<Kind>
    ensures { result ≡ matcher_count_fault count }
{
    if count == 0 {
        Some(Kind::Empty)
    } else if count > MAX_MATCHERS {
        Some(Kind::Limit)
    } else {
        None
    }
}

fn read_each_silence_matcher(alloc: Global, items: &[Value]) -> Result<Matchers, ReadError>
    requires { length items.now ≤ MAX_MATCHERS }
    ensures { Gives (λ ms. ms) result
        (read_items (λ _ d. silence_matcher_form d) [] (map view items.now)) }
{
    let matchers = read_each_item(alloc, items, |item| read_silence_matcher(alloc, item))?;
    Ok(Matchers::of(matchers))
}

#[tactic(auto, using(am_json::proofs::Readings::steps), unfolding(crate::specs::SilencesForm::silence_matcher_form))]
fn read_silence_matcher(alloc: Global, value: &Value) -> Result<Matcher, ReadError>
    ensures { Gives (λ m. m) result (silence_matcher_form (view value.now)) }
{
    as_object(alloc, value)?;
    let name = read_label_name(alloc, value)?;
    let text = required_text(alloc, value, "value")?;
    let is_regex = read_boolean_or(alloc, value, "isRegex", false)?;
    let is_equal = read_boolean_or(alloc, value, "isEqual", true)?;
    read_flagged_matcher(alloc, name, flagged_op(is_regex, is_equal), text)
}

/// Reads the name of a label, which must not be empty.
#[tactic(auto, using(am_json::proofs::Readings::steps), unfolding(crate::specs::SilencesForm::label_name_form))]
fn read_label_name(alloc: Global, value: &Value) -> Result<&str, ReadError>
    ensures reads { Gives (λ t. t.now) result (label_name_form (view value.now)) }
    ensures named { IfOk result (λ t. t.now ≢ []) }
{
    let name = required_text(alloc, value, "name")?;
    within_field(alloc, "name", refuse_for(alloc, label_name_fault(name)))?;
    Ok(name)
}

/// The operator of a matcher: `is_regex` says whether its value is a pattern, and `is_equal`
/// whether the label must match it or must not.
fn flagged_op(is_regex: bool, is_equal: bool) -> Op
    ensures { result ≡ flagged_op is_regex is_equal }
{
    match (is_regex, is_equal) {
        (false, true) => Op::Equal,
        (false, false) => Op::NotEqual,
        (true, true) => Op::Matches,
        (true, false) => Op::NotMatches,
    }
}

/// Makes a matcher of these parts; the name must not be empty. A pattern is refused at the value.
fn read_flagged_matcher(
    alloc: Global,
    name: &str,
    op: Op,
    value: &str,
) -> Result<Matcher, ReadError>
    requires { name.now ≢ [] }
    ensures { Gives (λ m. m) result (flagged_matcher_form name.now op value.now) }
{
    within_field(alloc, "value", new_matcher(alloc, name, op, value))
}

/// Reads the instant in a required field.
#[tactic(auto, using(am_json::proofs::Readings::steps), unfolding(crate::specs::SilencesForm::required_instant_form))]
fn required_instant(alloc: Global, value: &Value, key: &str) -> Result<Timestamp, ReadError>
    ensures { Gives (λ t. t.nanosecond) result (required_instant_form key.now (view value.now)) }
{
    let text = required_text(alloc, value, key)?;
    within_field(alloc, key, read_instant(alloc, text))
}

#[tactic(auto, using(am_json::proofs::Readings::found_gives))]
fn read_instant(alloc: Global, text: &str) -> Result<Timestamp, ReadError>
    ensures { Gives (λ t. t.nanosecond) result (instant_form text.now) }
{
    or_refused(alloc, parse_instant(alloc, text))
}
