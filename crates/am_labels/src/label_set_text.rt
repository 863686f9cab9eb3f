//! Reading a label set from the text of a list of matchers, or from words.

ghost use Rattle.std.specs.Prelude.{◌≡◌, ◌≢◌, [], ◌∷◌, map, IfOk, IfErr};
ghost use Rattle.std.specs.List.{list_any};
ghost use Rattle.am_universe.specs.Text.{same_text};
ghost use Rattle.am_labels.specs.ParsedLabelSet.{are_equalities, repeats_name, set_of_list};
ghost use Rattle.am_labels.specs.ParsedLabelSet.{WordsSpellSet, SetWordsRefusedFor};
ghost use Rattle.am_universe.specs.declared.kind.Kind.TheVariants as kinds;

use crate::Matcher;
use crate::matcher_text::parse_words;
use am_universe::{Kind, LabelSet};
use std::alloc::{AllocError, Global};

/// Reads a label set from the text of a list of matchers, as `team="db",severity="warning"`.
///
/// An empty value leaves the label out. Fails with the first of: the refusals of `parse_matchers`;
/// `BadMatcher`, an operator is not `=`; `Duplicate`, a name occurs twice, even if a value is
/// empty. Fails with `Memory` whenever memory runs out.
pub fn parse_set(alloc: Global, text: &str) -> Result<LabelSet, Kind>
    ensures spelled { IfOk result (λ set. WordsSpellSet (text.now ∷ []) set) }
    ensures refused { IfErr result (λ kind. kind ≢ kinds.Memory
        → SetWordsRefusedFor (text.now ∷ []) kind) }
{
    parse_set_words(alloc, &[text])
}

/// Reads a label set from words, each with `=`, as `team=db` and `severity=warning`.
///
/// A single word is read as `parse_set` reads it. Each of several words is one matcher, whose value
/// may have commas, as `note=a,b`. Fails with the first of: `BadMatcher`, one of several words is
/// not a matcher; `Limit`, there are more than `MAX_MATCHERS` matchers; the refusals of their
/// patterns, as in `parse_matchers`; and then `BadMatcher` and `Duplicate`, as in `parse_set`.
/// Fails with `Memory` whenever memory runs out.
pub fn parse_set_words(alloc: Global, words: &[&str]) -> Result<LabelSet, Kind>
    ensures spelled { IfOk result (λ set.
        WordsSpellSet (map (λ word. word.now) words.now) set) }
    ensures refused { IfErr result (λ kind. kind ≢ kinds.Memory
        → SetWordsRefusedFor (map (λ word. word.now) words.now) kind) }
{
    let matchers = parse_words(alloc, None, words)?;
    if !are_equalities(matchers.as_slice()) {
        return Err(Kind::BadMatcher);
    }
    if repeats_name(matchers.as_slice()) {
        return Err(Kind::Duplicate);
    }
    Ok(set_of_list(alloc, matchers.as_slice())?)
}

fn are_equalities(matchers: &[Matcher]) -> bool
    ensures { result ≡ are_equalities matchers.now }
{
    matchers.iter().all(|matcher| matcher.op().is_equality())
}

/// Whether a name occurs twice.
fn repeats_name(matchers: &[Matcher]) -> bool
    ensures { result ≡ repeats_name matchers.now }
{
    for (i, matcher) in matchers.iter().enumerate() {
        if has_name(&matchers[i + 1..], matcher.name()) {
            return true;
        }
    }
    false
}

fn has_name(matchers: &[Matcher], name: &str) -> bool
    ensures { result ≡ list_any (λ other. same_text other.name name.now) matchers.now }
{
    matchers.iter().any(|other| other.name() == name)
}

/// The label set in which each name has its value. An empty value leaves the label out.
fn set_of_list(alloc: Global, matchers: &[Matcher]) -> Result<LabelSet, AllocError>
    ensures { IfOk result (λ set. set ≡ set_of_list matchers.now) }
{
    let mut set = LabelSet::empty(alloc);
    for matcher in matchers {
        let name = String::from_str(alloc, matcher.name())?;
        let value = String::from_str(alloc, matcher.value())?;
        set.put(name, value)?;
    }
    Ok(set)
}
