//! Reading the matchers of a route, or of one side of a rule, from three fields.

ghost use Rattle.std.specs.Prelude.{◌≡◌, ◌≢◌, [], ◌∷◌, map, option_map, Err, IsErrAnd};
ghost use Rattle.am_universe.specs.declared.kind.Kind.TheVariants as kinds;
ghost use Rattle.am_json.specs.declared.read_error.ReadError.TheVariants as errors;
ghost use Rattle.serde_json.specs.View.{view};
ghost use Rattle.am_json.specs.Pointer.{to_item};
ghost use Rattle.am_json.specs.Reading.{Gives, IsRefusalOrMemory};
ghost use Rattle.am_list_files.specs.MatcherTexts.{matcher_text_form, text_refusal};
ghost use Rattle.am_config.specs.ConfigView.{matcher_fields_view};
ghost use Rattle.am_config.specs.ConfigForm.{matchers_form, optional_texts, texts_form};
ghost use Rattle.am_config.specs.ConfigForm.{each_text_form, next_text_form};
ghost use Rattle.am_config.specs.ConfigForm.{append_matchers, optional_pairs, pairs_form};
ghost use Rattle.am_config.specs.ConfigForm.{next_pair_form, matcher_pair_form};
ghost use Rattle.am_config.specs.ConfigForm.{refuse_root_matchers};

use am_json::{
    ReadError, as_items, as_object, as_text, field, or_refused, read_each_member, within_field,
    within_item,
};
use am_labels::{Matcher, Matchers, Op, parse_more_matchers};
use am_list_files::{new_matcher, read_named_text};
use am_universe::Kind;
use serde_json::Value;
use std::alloc::Global;

/// The names of three fields with matchers: an array of texts, an object of names and texts for
/// `=`, and one for `=~`.
#[derive(Clone, Copy)]
pub(crate) struct MatcherFields<'n> {
    pub(crate) texts: &'n str,
    pub(crate) equalities: &'n str,
    pub(crate) patterns: &'n str,
}

/// Reads the matchers of the three fields, one field after the other.
#[tactic(auto, using(am_json::proofs::Readings::steps), unfolding(crate::specs::ConfigForm::matchers_form))]
pub(crate) fn read_matchers(
    alloc: Global,
    fields: MatcherFields<'_>,
    is_root: bool,
    value: &Value,
) -> Result<Matchers, ReadError>
    ensures { Gives (λ ms. ms) result
        (matchers_form (matcher_fields_view fields.entry) is_root (view value.now)) }
{
    let MatcherFields {
        texts,
        equalities,
        patterns,
    } = fields;
    let found = optional_texts(alloc, is_root, texts, field(value, texts))?;
    let equal = field(value, equalities);
    let found = optional_pairs(alloc, is_root, Op::Equal, equalities, found, equal)?;
    let matched = field(value, patterns);
    optional_pairs(alloc, is_root, Op::Matches, patterns, found, matched)
}

#[tactic(auto, using(am_json::proofs::Readings::steps))]
fn optional_texts(
    alloc: Global,
    is_root: bool,
    key: &str,
    found: Option<&Value>,
) -> Result<Matchers, ReadError>
    ensures { Gives (λ ms. ms) result
        (optional_texts is_root key.now (option_map (λ v. view v.now) found.entry)) }
{
    match found {
        None => Ok(Matchers::empty(alloc)),
        Some(value) => within_field(alloc, key, read_texts(alloc, is_root, value)),
    }
}

#[tactic(auto, using(am_json::proofs::Readings::steps), unfolding(crate::specs::ConfigForm::texts_form))]
fn read_texts(alloc: Global, is_root: bool, value: &Value) -> Result<Matchers, ReadError>
    ensures { Gives (λ ms. ms) result (texts_form is_root (view value.now)) }
{
    let items = as_items(alloc, value)?;
    let found = read_each_text(alloc, items)?;
    refuse_root_matchers(alloc, is_root, found)
}

fn read_each_text(alloc: Global, items: &[Value]) -> Result<Matchers, ReadError>
    ensures { Gives (λ ms. ms) result (each_text_form (map view items.now)) }
{
    let mut all = Matchers::empty(alloc);
    for (i, item) in items.iter().enumerate() {
        all = read_next_matcher_text(alloc, all, i, item)?;
    }
    Ok(all)
}

/// Adds the matchers of a text, which is at this position, to those before it.
#[tactic(auto, using(am_json::proofs::Readings::steps), unfolding(crate::specs::ConfigForm::next_text_form))]
fn read_next_matcher_text(
    alloc: Global,
    before: Matchers,
    i: usize,
    item: &Value,
) -> Result<Matchers, ReadError>
    ensures { Gives (λ ms. ms) result (next_text_form before (i, view item.now)) }
{
    let text = within_item(alloc, i, as_text(alloc, item))?;
    let more = read_matcher_text_at(alloc, &before, i, text)?;
    append_matchers(alloc, before, more)
}

/// Reads the matchers of a text, which follow those before. Too many are refused at the array, and
/// any other fault at the text.
fn read_matcher_text_at(
    alloc: Global,
    before: &Matchers,
    i: usize,
    text: &str,
) -> Result<Matchers, ReadError>
    ensures { Gives (λ ms. ms) result (matcher_text_form (to_item i) [] text.now) }
{
    match parse_more_matchers(alloc, before, text) {
        Ok(found) => Ok(found),
        Err(kind) => refuse_text(alloc, i, kind),
    }
}

fn refuse_text(alloc: Global, i: usize, kind: Kind) -> Result<Matchers, ReadError>
    requires { kind ≢ kinds.Write }
    ensures refusal { IsErrAnd result
        (λ e. IsRefusalOrMemory e (text_refusal (to_item i) [] kind)) }
    ensures memory { kind ≡ kinds.Memory → result ≡ Err errors.Memory }
{
    match kind {
        Kind::Limit => Err(ReadError::refused(alloc, Kind::Limit)),
        other => within_item(alloc, i, Err(ReadError::refused(alloc, other))),
    }
}

/// Adds the second list to the first.
fn append_matchers(alloc: Global, before: Matchers, more: Matchers) -> Result<Matchers, ReadError>
    ensures { Gives (λ ms. ms) result (append_matchers before more) }
{
    let mut all = before;
    or_refused(alloc, all.append(more))?;
    Ok(all)
}

#[tactic(auto, using(am_json::proofs::Readings::steps))]
fn optional_pairs(
    alloc: Global,
    is_root: bool,
    op: Op,
    key: &str,
    before: Matchers,
    found: Option<&Value>,
) -> Result<Matchers, ReadError>
    ensures { Gives (λ ms. ms) result
        (optional_pairs is_root op key.now before (option_map (λ v. view v.now) found.entry)) }
{
    match found {
        None => Ok(before),
        Some(value) => within_field(alloc, key, read_pairs(alloc, is_root, op, before, value)),
    }
}

#[tactic(auto, using(am_json::proofs::Readings::steps), unfolding(crate::specs::ConfigForm::pairs_form))]
fn read_pairs(
    alloc: Global,
    is_root: bool,
    op: Op,
    before: Matchers,
    value: &Value,
) -> Result<Matchers, ReadError>
    ensures { Gives (λ ms. ms) result (pairs_form is_root op before (view value.now)) }
{
    let members = as_object(alloc, value)?;
    let found = read_each_member(before, members, |before, name, value| {
        read_next_pair(alloc, op, before, name, value)
    })?;
    refuse_root_matchers(alloc, is_root, found)
}

#[tactic(auto, using(am_json::proofs::Readings::steps), unfolding(crate::specs::ConfigForm::next_pair_form))]
fn read_next_pair(
    alloc: Global,
    op: Op,
    before: Matchers,
    name: &str,
    value: &Value,
) -> Result<Matchers, ReadError>
    ensures { Gives (λ ms. ms) result (next_pair_form op before (name.now, view value.now)) }
{
    let matcher = within_field(alloc, name, read_matcher_pair(alloc, op, name, value))?;
    push_matcher(alloc, before, matcher)
}

/// Adds a matcher to the list.
fn push_matcher(alloc: Global, before: Matchers, matcher: Matcher) -> Result<Matchers, ReadError>
    ensures { Gives (λ ms. ms) result (append_matchers before (matcher ∷ [])) }
{
    let mut all = before;
    or_refused(alloc, all.push(matcher))?;
    Ok(all)
}

/// Makes the matcher of a name and a text.
#[tactic(auto, using(am_json::proofs::Readings::steps), unfolding(crate::specs::ConfigForm::matcher_pair_form))]
fn read_matcher_pair(alloc: Global, op: Op, name: &str, value: &Value) -> Result<Matcher, ReadError>
    ensures { Gives (λ m. m) result (matcher_pair_form op name.now (view value.now)) }
{
    let text = read_named_text(alloc, name, value)?;
    new_matcher(alloc, name, op, text)
}

/// Refuses matchers on the top-level route.
fn refuse_root_matchers(
    alloc: Global,
    is_root: bool,
    found: Matchers,
) -> Result<Matchers, ReadError>
    ensures { Gives (λ ms. ms) result (refuse_root_matchers is_root found) }
{
    if is_root && !found.is_empty() {
        return Err(ReadError::refused(alloc, Kind::RootMatchers));
    }
    Ok(found)
}
