//! What one matcher asks for that is none of the known values of its label.

ghost use Rattle.std.specs.Prelude.{◌≡◌, map, option_map, IfOk};
ghost use Rattle.std.specs.List.{list_any};
ghost use Rattle.am_universe.specs.Text.{same_text};
ghost use Rattle.am_unseen.specs.Unseen.{is_true_of_one, similar_value, unseen_beside};
ghost use Rattle.am_unseen.specs.Search.{texts_of};

use crate::misspelled::{alternatives_of, misspelled_in};
use crate::similar::SimilarTexts;
use crate::unseen_matcher::UnseenMatcher;
use am_complete::Origin;
use am_labels::{Matcher, Op};
use indexmap::IndexSet;
use std::alloc::{AllocError, Global};

/// Returns what a matcher asks for that is none of the values of its label: all that it asks for,
/// or alternatives of its pattern that may be misspelled. `similar` looks among these values.
pub(crate) fn unseen_beside<'w>(
    alloc: Global,
    values: &IndexSet<&'w str>,
    similar: &mut SimilarTexts<'w>,
    origin: &Origin,
    matcher: &'w Matcher,
) -> Result<Vec<UnseenMatcher<'w>>, AllocError>
    requires { similar.old ≡ texts_of values.now }
    ensures same { similar.new ≡ similar.old }
    ensures unseen { IfOk result (λ found.
        found.items ≡ unseen_beside (texts_of values.now) (origin.now, matcher.now)) }
{
    if values.is_empty() || !matches!(matcher.op(), Op::Equal | Op::Matches) {
        return Ok(Vec::new(alloc));
    }
    if is_true_of_one(alloc, matcher, values)? {
        return misspelled_in(alloc, values, similar, origin, matcher);
    }
    if matcher.prepare(alloc)?.holds("") {
        return Ok(Vec::new(alloc));
    }
    let unseen = UnseenMatcher {
        origin: *origin,
        name: matcher.name(),
        op: matcher.op(),
        value: matcher.value(),
        similar: similar_value(alloc, matcher, similar)?,
    };
    Ok(vec![in alloc; unseen]?)
}

/// Whether a matcher is true of one of some texts.
fn is_true_of_one(
    alloc: Global,
    matcher: &Matcher,
    texts: &IndexSet<&str>,
) -> Result<bool, AllocError>
    ensures { IfOk result (λ is. is ≡ is_true_of_one matcher.now (texts_of texts.now)) }
{
    if matcher.op() == Op::Equal {
        return Ok(texts.contains(matcher.value()));
    }
    let mut prepared = matcher.prepare(alloc)?;
    for text in texts.as_slice() {
        if prepared.holds(text) {
            return Ok(true);
        }
    }
    Ok(false)
}

/// Returns the value that is most similar to the text that a matcher compares with. Finds none for
/// a pattern.
fn similar_value<'w>(
    alloc: Global,
    matcher: &Matcher,
    similar: &mut SimilarTexts<'w>,
) -> Result<Option<&'w str>, AllocError>
    ensures same { similar.new ≡ similar.old }
    ensures similar { IfOk result (λ found.
        option_map (λ v. v.now) found ≡ similar_value matcher.now similar.old) }
{
    if matcher.op() != Op::Equal {
        return Ok(None);
    }
    similar.most_similar(alloc, matcher.value())
}
