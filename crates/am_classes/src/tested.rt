//! Texts, each with its hits: the matchers of a label whose comparison is true of it. Two texts are
//! alike exactly if their hits are equal.

ghost use Rattle.std.specs.Prelude.{◌≡◌, ℕ, List, [], ◌∷◌, ◌++◌, if◌then◌else◌, IfOk, OnOk};
ghost use Rattle.std.specs.Prelude.{map, string_bytes};
ghost use Rattle.std.specs.HashSet.{IsFromIterResult};
ghost use Rattle.am_labels.specs.Matcher.{Matcher};
ghost use Rattle.am_labels.specs.Pattern.{finds};
ghost use Rattle.am_classes.specs.Truths.{AreHits, AreNewIn, AreTested, texts_of, are_same};

use crate::finder::Finder;
use std::alloc::{AllocError, Global};
use std::collections::HashSet;

/// A text with its hits.
#[derive(Drop)]
pub struct Tested {
    /// The text.
    pub text: String,
    /// The places of the matchers whose comparison is true of the text: first of those that name
    /// texts, then of the others.
    pub hits: Vec<usize>,
}

/// Tests texts by the pattern of the matcher at a place too.
pub(crate) fn tested_by(
    alloc: Global,
    mut finder: Finder<'_, '_>,
    place: usize,
    texts: Vec<Tested>,
) -> Result<Vec<Tested>, AllocError>
    ensures texts { IfOk result (λ all. texts_of all.items ≡ texts_of texts.items) }
    ensures hits { IfOk result (λ all. (hits : List ℕ → List ℕ) → AreHits hits texts.items
        → AreHits (λ text. hits text ++ (if finds finder.entry text then place ∷ [] else []))
        all.items) }
{
    let mut all = Vec::with_capacity(alloc, texts.len())?;
    for text in texts {
        all.push(with_hit(alloc, &mut finder, place, text)?)?;
    }
    Ok(all)
}

/// Adds a hit to those of a text, if a pattern finds the text.
fn with_hit(
    alloc: Global,
    finder: &mut Finder<'_, '_>,
    place: usize,
    mut tested: Tested,
) -> Result<Tested, AllocError>
    ensures text { IfOk result (λ more. more.text ≡ tested.text) }
    ensures hits { IfOk result (λ more. more.hits.items ≡ tested.hits.items
        ++ (if finds finder.old (string_bytes tested.text) then place ∷ [] else [])) }
    ensures same { OnOk result (finder.new ≡ finder.old) }
{
    if finder.finds(alloc, tested.text.as_str())? {
        tested.hits.push(place)?;
    }
    Ok(tested)
}

/// Returns the texts, among the wanted ones, that are new: each is alike to none of those that are
/// there, and to none before it.
pub fn new_texts(
    alloc: Global,
    there: Vec<Tested>,
    wanted: Vec<Tested>,
) -> Result<Vec<String>, AllocError>
    ensures { IfOk result (λ texts. (ms : List Matcher) → AreTested ms there.items
        → AreTested ms wanted.items
        → AreNewIn ms (texts_of there.items) (texts_of wanted.items)
        (map string_bytes texts.items)) }
{
    let mut seen = seen_hits(alloc, there)?;
    let mut texts = Vec::new(alloc);
    for text in wanted {
        let is_new = seen.insert(text.hits)?;
        if !is_new {
            continue;
        }
        texts.push(text.text)?;
    }
    Ok(texts)
}

/// Returns the hits of texts, as a set.
fn seen_hits(alloc: Global, texts: Vec<Tested>) -> Result<HashSet<Vec<usize>>, AllocError>
    ensures { IfOk result (IsFromIterResult are_same (map (λ t. t.hits) texts.items)) }
{
    texts.into_iter().map(|text| text.hits).collect(alloc)
}
