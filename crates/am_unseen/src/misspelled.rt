//! Alternatives of a pattern that may be misspelled.
//!
//! A pattern often names values that just do not fire now. So an alternative that is not known is
//! told only if it is similar to a value that the pattern does not name.

ghost use Rattle.std.specs.Prelude.{◌≡◌, true, false, IfOk, map};
ghost use Rattle.std.specs.List.{flat_map};
ghost use Rattle.am_classes.specs.Named.{alternatives_of};
ghost use Rattle.am_labels.specs.Matcher.{negates};
ghost use Rattle.am_unseen.specs.Unseen.{is_true_of_one, misspelled, misspelled_in};
ghost use Rattle.am_unseen.specs.Unseen.{values_beside};
ghost use Rattle.am_unseen.specs.Search.{texts_of};
ghost use Rattle.am_report_texts.specs.EachOnce.{each_once};

use crate::similar::SimilarTexts;
use crate::unseen_matcher::UnseenMatcher;
use am_complete::Origin;
use am_labels::{Matcher, Op, is_alternation};
use indexmap::IndexSet;
use std::alloc::{AllocError, Global};

/// Returns the alternatives of the pattern of a matcher that may be misspelled beside the values of
/// its label, if the pattern is an alternation of plain texts. It finds one of the values.
pub(crate) fn misspelled_in<'w>(
    alloc: Global,
    values: &IndexSet<&'w str>,
    similar: &mut SimilarTexts<'w>,
    origin: &Origin,
    matcher: &'w Matcher,
) -> Result<Vec<UnseenMatcher<'w>>, AllocError>
    requires asks { negates matcher.now.op ≡ false }
    requires finds { is_true_of_one matcher.now (texts_of values.now) ≡ true }
    requires among { similar.old ≡ texts_of values.now }
    ensures same { similar.new ≡ similar.old }
    ensures found { IfOk result (λ found.
        found.items ≡ misspelled_in (texts_of values.now) (origin.now, matcher.now)) }
{
    let texts = alternatives_of(alloc, matcher)?;
    let but = set_of(alloc, texts.as_slice())?;
    misspelled_among(
        alloc,
        texts.as_slice(),
        &but,
        values,
        similar,
        origin,
        matcher,
    )
}

/// Returns those of the alternatives of the pattern of a matcher that may be misspelled. `but` has
/// all of them.
fn misspelled_among<'w>(
    alloc: Global,
    texts: &[&'w str],
    but: &IndexSet<&'w str>,
    values: &IndexSet<&'w str>,
    similar: &mut SimilarTexts<'w>,
    origin: &Origin,
    matcher: &'w Matcher,
) -> Result<Vec<UnseenMatcher<'w>>, AllocError>
    requires { similar.old ≡ texts_of values.now }
    ensures same { similar.new ≡ similar.old }
    ensures found { IfOk result (λ found. found.items ≡ flat_map
        (misspelled (texts_of values.now) (values_beside (texts_of but.now) (texts_of values.now))
        (origin.now, matcher.now)) (map (λ t. t.now) texts.now)) }
{
    let mut found = Vec::new(alloc);
    for text in texts {
        let mut one = misspelled(alloc, text, but, values, similar, origin, matcher)?;
        found.append(&mut one)?;
    }
    Ok(found)
}

/// Returns an alternative of the pattern of a matcher, if it may be misspelled. `but` has all the
/// alternatives.
fn misspelled<'w>(
    alloc: Global,
    text: &'w str,
    but: &IndexSet<&'w str>,
    values: &IndexSet<&'w str>,
    similar: &mut SimilarTexts<'w>,
    origin: &Origin,
    matcher: &'w Matcher,
) -> Result<Vec<UnseenMatcher<'w>>, AllocError>
    requires { similar.old ≡ texts_of values.now }
    ensures same { similar.new ≡ similar.old }
    ensures found { IfOk result (λ found. found.items
        ≡ misspelled (texts_of values.now) (values_beside (texts_of but.now) (texts_of values.now))
        (origin.now, matcher.now) text.now) }
{
    if text.is_empty() || values.contains(text) {
        return Ok(Vec::new(alloc));
    }
    let similar = similar.most_similar_but(alloc, text, but)?;
    if similar.is_none() {
        return Ok(Vec::new(alloc));
    }
    let unseen = UnseenMatcher {
        origin: *origin,
        name: matcher.name(),
        op: Op::Equal,
        value: text,
        similar,
    };
    Ok(vec![in alloc; unseen]?)
}

/// Returns the alternatives of the pattern of a matcher, if they are plain texts.
pub(crate) fn alternatives_of<'w>(
    alloc: Global,
    matcher: &'w Matcher,
) -> Result<Vec<&'w str>, AllocError>
    ensures { IfOk result (λ texts. map (λ t. t.now) texts.items ≡ alternatives_of matcher.now) }
{
    let pattern = matcher.value();
    if matcher.op().takes_pattern() && is_alternation(pattern) {
        return pattern.split('|').collect(alloc);
    }
    Ok(Vec::new(alloc))
}

/// Returns the set of some texts.
fn set_of<'w>(alloc: Global, texts: &[&'w str]) -> Result<IndexSet<&'w str>, AllocError>
    ensures { IfOk result (λ set. texts_of set ≡ each_once (map (λ t. t.now) texts.now)) }
{
    let mut set = IndexSet::new(alloc);
    for text in texts {
        set.insert(*text)?;
    }
    Ok(set)
}
