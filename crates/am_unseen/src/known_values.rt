//! The known values of a label, and what was found that matchers ask for beside them.

ghost use Rattle.std.specs.Prelude.{◌≡◌, List, ℕ, map, IfOk};
ghost use Rattle.am_unseen.specs.Unseen.{unseen_beside};
ghost use Rattle.am_unseen.specs.Search.{texts_of, placed_at, AreKept};

use crate::beside::unseen_beside;
use crate::similar::SimilarTexts;
use crate::unseen_matcher::UnseenMatcher;
use am_complete::Origin;
use am_labels::{Matcher, Op};
use indexmap::IndexSet;
use std::alloc::{AllocError, Global};
use std::collections::BTreeMap;
use std::marker::Model;

/// What was found for each text or pattern that a matcher compares with.
type Kept<'w> = BTreeMap<&'w str, Vec<UnseenMatcher<'w>>>;

/// The known values of a label. What a matcher asks for beside them is looked for once, however
/// many matchers ask for it.
#[derive(Drop)]
pub(crate) struct KnownValues<'w> {
    values: IndexSet<&'w str>,
    similar: SimilarTexts<'w>,
    by_text: Kept<'w>,
    by_pattern: Kept<'w>,
}

impl<'w> Model for KnownValues<'w> {
    ghost use Rattle.std.specs.Prelude.{◌≡◌, ℕ, List};
    ghost use Rattle.am_labels.specs.declared.op.Op.TheVariants as op_is;
    ghost use Rattle.am_unseen.specs.Search as spec;

    ghost Value = { List (List ℕ) };

    ghost view = { λ k. spec.texts_of k.values };

    ghost invariant = { λ k. (k.similar ≡ spec.texts_of k.values)
        × spec.AreKept op_is.Equal (spec.texts_of k.values) k.by_text
        × spec.AreKept op_is.Matches (spec.texts_of k.values) k.by_pattern };
}

impl<'w> KnownValues<'w> {
    /// Takes the values of a label.
    pub(crate) fn of(
        alloc: Global,
        values: IndexSet<&'w str>,
    ) -> Result<KnownValues<'w>, AllocError>
        ensures { IfOk result (λ known. known ≡ texts_of values.entry) }
    {
        Ok(KnownValues {
            similar: SimilarTexts::among(alloc, values.as_slice())?,
            values,
            by_text: BTreeMap::new(alloc),
            by_pattern: BTreeMap::new(alloc),
        })
    }

    /// Returns what a matcher on the label asks for that is none of the values.
    pub(crate) fn unseen(
        &mut self,
        alloc: Global,
        origin: &Origin,
        matcher: &'w Matcher,
    ) -> Result<Vec<UnseenMatcher<'w>>, AllocError>
        ensures same { self.new ≡ self.old }
        ensures unseen { IfOk result (λ found.
            found.items ≡ unseen_beside self.old (origin.now, matcher.now)) }
    {
        let (values, similar) = (&self.values, &mut self.similar);
        match matcher.op() {
            Op::Equal => {
                kept_or_found(alloc, &mut self.by_text, values, similar, origin, matcher)
            }
            Op::Matches => {
                kept_or_found(
                    alloc,
                    &mut self.by_pattern,
                    values,
                    similar,
                    origin,
                    matcher,
                )
            }
            Op::NotEqual | Op::NotMatches => Ok(Vec::new(alloc)),
        }
    }
}

/// Returns what a matcher asks for that is none of some values, as it was kept. Otherwise finds it
/// and keeps it.
fn kept_or_found<'w>(
    alloc: Global,
    kept: &mut Kept<'w>,
    values: &IndexSet<&'w str>,
    similar: &mut SimilarTexts<'w>,
    origin: &Origin,
    matcher: &'w Matcher,
) -> Result<Vec<UnseenMatcher<'w>>, AllocError>
    requires among { similar.old ≡ texts_of values.now }
    requires kept { AreKept matcher.now.op (texts_of values.now) kept.old }
    ensures same { similar.new ≡ similar.old }
    ensures kept { AreKept matcher.now.op (texts_of values.now) kept.new }
    ensures unseen { IfOk result (λ found.
        found.items ≡ unseen_beside (texts_of values.now) (origin.now, matcher.now)) }
{
    if let Some(found) = kept.get(matcher.value()) {
        return placed_at(alloc, found.as_slice(), origin, matcher.name());
    }
    let found = unseen_beside(alloc, values, similar, origin, matcher)?;
    let placed = placed_at(alloc, found.as_slice(), origin, matcher.name())?;
    kept.insert(matcher.value(), found)?;
    Ok(placed)
}

/// Returns unseen matchers as they are where another matcher stands, on the label of this name.
fn placed_at<'w>(
    alloc: Global,
    found: &[UnseenMatcher<'w>],
    origin: &Origin,
    name: &'w str,
) -> Result<Vec<UnseenMatcher<'w>>, AllocError>
    ensures { IfOk result (λ placed.
        placed.items ≡ map (placed_at origin.now name.now) found.now) }
{
    let mut placed = Vec::new(alloc);
    for unseen in found {
        placed.push(UnseenMatcher {
            origin: *origin,
            name,
            op: unseen.op,
            value: unseen.value,
            similar: unseen.similar,
        })?;
    }
    Ok(placed)
}
