//! The texts that matchers name, and the patterns of those that name none.
//!
//! A pattern such as `db|web` asks whether a text is `db` or `web`, and nothing else. So it has no
//! automaton: its alternatives are named texts, as the text behind `=` is.

ghost use Rattle.std.specs.Prelude.{◌≡◌, ◌↔◌, ◌++◌, ◌∷◌, [], ℕ, List, Some, IsTrue, IfOk, OnOk};
ghost use Rattle.std.specs.Prelude.{map, slice_get, string_bytes};
ghost use Rattle.std.specs.List.{filter, flat_map};
ghost use Rattle.am_classes.specs.Alphabet.{is_over};
ghost use Rattle.am_classes.specs.Named.{AreEachOnce, names_texts, named_by, named_over};
ghost use Rattle.am_classes.specs.Named.{alternatives_of, other_patterns, text_of};

use crate::Alphabet;
use am_labels::{Comparison, Matcher, is_alternation};
use indexmap::IndexSet;
use std::alloc::{AllocError, Global};

/// Returns the texts over an alphabet that matchers name, each once: first those that they compare
/// with, and then the alternatives of patterns, the shorter ones first.
pub(crate) fn named_texts(
    alloc: Global,
    alphabet: Alphabet,
    matchers: &[&Matcher],
) -> Result<Vec<String>, AllocError>
    ensures { IfOk result (λ texts. AreEachOnce
        (named_over alphabet (map (λ m. m.now) matchers.now)) (map string_bytes texts.items)) }
{
    let compared = compared_texts(alloc, matchers)?;
    let mut parts = all_alternatives(alloc, matchers)?;
    parts.sort_by_key(|part| part.len())?;
    let mut texts = IndexSet::new(alloc);
    add_over(alphabet, compared.as_slice(), &mut texts)?;
    add_over(alphabet, parts.as_slice(), &mut texts)?;
    copied(alloc, texts.as_slice())
}

/// Returns the texts that matchers compare with.
fn compared_texts<'m>(alloc: Global, matchers: &[&'m Matcher]) -> Result<Vec<&'m str>, AllocError>
    ensures { IfOk result (λ texts. map (λ text. text.now) texts.items
        ≡ flat_map text_of (map (λ m. m.now) matchers.now)) }
{
    let mut texts = Vec::new(alloc);
    for matcher in matchers {
        if matcher.op().comparison() == Comparison::Text {
            texts.push(matcher.value())?;
        }
    }
    Ok(texts)
}

/// Returns the alternatives of the patterns of matchers.
fn all_alternatives<'m>(alloc: Global, matchers: &[&'m Matcher]) -> Result<Vec<&'m str>, AllocError>
    ensures { IfOk result (λ parts. map (λ part. part.now) parts.items
        ≡ flat_map alternatives_of (map (λ m. m.now) matchers.now)) }
{
    let mut parts = Vec::new(alloc);
    for matcher in matchers {
        parts.append(&mut alternatives_of(alloc, matcher)?)?;
    }
    Ok(parts)
}

/// Adds those of some texts that are over an alphabet.
fn add_over<'m>(
    alphabet: Alphabet,
    named: &[&'m str],
    texts: &mut IndexSet<&'m str>,
) -> Result<(), AllocError>
    ensures { OnOk result ((wanted : List (List ℕ))
        → AreEachOnce wanted (map (λ t. t.now) texts.old.keys)
        → AreEachOnce (wanted ++ filter (is_over alphabet) (map (λ t. t.now) named.now))
        (map (λ t. t.now) texts.new.keys)) }
{
    for text in named {
        if alphabet.has(text) {
            add(texts, text)?;
        }
    }
    Ok(())
}

/// Adds a text, unless it is there already.
fn add<'m>(texts: &mut IndexSet<&'m str>, text: &'m str) -> Result<(), AllocError>
    ensures { OnOk result ((wanted : List (List ℕ))
        → AreEachOnce wanted (map (λ t. t.now) texts.old.keys)
        → AreEachOnce (wanted ++ text.now ∷ []) (map (λ t. t.now) texts.new.keys)) }
{
    texts.insert(text)?;
    Ok(())
}

/// Returns copies of texts, in their order.
fn copied(alloc: Global, texts: &[&str]) -> Result<Vec<String>, AllocError>
    ensures { IfOk result (λ copies. map string_bytes copies.items ≡ map (λ t. t.now) texts.now) }
{
    let mut copies = Vec::with_capacity(alloc, texts.len())?;
    for text in texts {
        copies.push(String::from_str(alloc, text)?)?;
    }
    Ok(copies)
}

/// Returns the matchers that name texts.
pub(crate) fn naming_matchers<'m>(
    alloc: Global,
    matchers: &[&'m Matcher],
) -> Result<Vec<&'m Matcher>, AllocError>
    ensures { IfOk result (λ naming. map (λ m. m.now) naming.items
        ≡ filter names_texts (map (λ m. m.now) matchers.now)) }
{
    let mut naming = Vec::new(alloc);
    for matcher in matchers {
        if names_texts(matcher) {
            naming.push(*matcher)?;
        }
    }
    Ok(naming)
}

/// Returns the patterns of matchers that name no texts, each once.
pub(crate) fn other_patterns<'m>(
    alloc: Global,
    matchers: &[&'m Matcher],
) -> Result<IndexSet<&'m str>, AllocError>
    ensures { IfOk result (λ patterns. AreEachOnce (other_patterns (map (λ m. m.now) matchers.now))
        (map (λ t. t.now) patterns.keys)) }
{
    let mut patterns = IndexSet::new(alloc);
    for matcher in matchers {
        if !names_texts(matcher) {
            add(&mut patterns, matcher.value())?;
        }
    }
    Ok(patterns)
}

/// Returns the texts that a matcher names.
pub(crate) fn named_by<'m>(alloc: Global, matcher: &'m Matcher) -> Result<Vec<&'m str>, AllocError>
    ensures { IfOk result (λ texts. map (λ text. text.now) texts.items ≡ named_by matcher.now) }
{
    match matcher.op().comparison() {
        Comparison::Text => Ok(vec![in alloc; matcher.value()]?),
        Comparison::Pattern => alternatives_of(alloc, matcher),
    }
}

/// Returns the alternatives of the pattern of a matcher, if they are plain texts.
fn alternatives_of<'m>(alloc: Global, matcher: &'m Matcher) -> Result<Vec<&'m str>, AllocError>
    ensures { IfOk result (λ parts. map (λ part. part.now) parts.items
        ≡ alternatives_of matcher.now) }
{
    let pattern = matcher.value();
    match matcher.op().comparison() {
        Comparison::Pattern if is_alternation(pattern) => pattern.split('|').collect(alloc),
        _ => Ok(Vec::new(alloc)),
    }
}

/// Whether a matcher names texts: it compares with one, or its pattern is an alternation of such.
pub(crate) fn names_texts(matcher: &Matcher) -> bool
    ensures { result ≡ names_texts matcher.now }
{
    match matcher.op().comparison() {
        Comparison::Text => true,
        Comparison::Pattern => is_alternation(matcher.value()),
    }
}

/// Whether a text is one of these.
pub(crate) fn is_among(texts: &[String], text: &[u8]) -> bool
    ensures { IsTrue result
        ↔ ((k : ℕ) × (slice_get (map string_bytes texts.now) k ≡ Some text.now)) }
{
    texts.iter().any(|other| other.as_bytes() == text)
}
