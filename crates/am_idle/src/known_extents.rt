//! Which alerts lists of matchers match, found once for each list.
//!
//! A silence is often renewed with the same matchers. What they match takes a universe to find out.

ghost use Rattle.std.specs.Prelude.{◌≡◌, ◌++◌, [], ◌∷◌, ℕ, Some, slice_get, IsTrue, IfSome, OnOk};

use am_labels::{Matcher, Matchers};
use std::alloc::{AllocError, Global};
use std::collections::HashMap;
use std::marker::Model;

/// Which alerts a list of matchers matches.
#[derive(Clone, Copy, PartialEq, Eq, Drop)]
pub(crate) enum Extent {
    /// None.
    Nothing,
    /// Some, but not all ordinary ones that have an alertname.
    Part,
    /// All ordinary ones that have an alertname.
    All,
}

/// A list of matchers, and which alerts it matches.
#[derive(Clone, Copy)]
pub(crate) struct KnownExtent<'w> {
    pub(crate) matchers: &'w Matchers,
    pub(crate) extent: Extent,
}

/// Lists of matchers of which it is known which alerts they match.
#[derive(Drop)]
pub(crate) struct KnownExtents<'w> {
    known: Vec<KnownExtent<'w>>,
    /// Where a list may be, by its text.
    places: HashMap<String, usize>,
}

impl<'w> Model for KnownExtents<'w> {
    ghost use Rattle.std.specs.Prelude.{List, map};
    ghost use Rattle.am_labels.specs.Matcher.{Matcher};
    ghost use Rattle.am_idle.specs.declared.known_extents.Extent.{Extent};

    ghost Value = { List (List Matcher × Extent) };

    ghost view = { λ k. map (λ it. (it.matchers.now, it.extent)) k.known.items };
}

impl<'w> KnownExtents<'w> {
    /// No list is known.
    pub(crate) fn none(alloc: Global) -> KnownExtents<'w>
        ensures { result ≡ [] }
    {
        KnownExtents {
            known: Vec::new(alloc),
            places: HashMap::new(alloc),
        }
    }

    /// Returns which alerts a list matches, if it is known. `text` is its text.
    pub(crate) fn extent(&self, text: &str, matchers: &Matchers) -> Option<Extent>
        ensures { IfSome result (λ extent.
            (i : ℕ) × (slice_get self.now i ≡ Some (matchers.now, extent))) }
    {
        let place = *self.places.get(text)?;
        let known = self.known.get(place)?;
        if are_same(known.matchers, matchers) {
            Some(known.extent)
        } else {
            None
        }
    }

    /// Adds a list with this text. Fails only if memory runs out.
    pub(crate) fn add(
        &mut self,
        text: String,
        matchers: &'w Matchers,
        extent: Extent,
    ) -> Result<(), AllocError>
        ensures { OnOk result (self.new ≡ self.old ++ (matchers.now, extent) ∷ []) }
    {
        self.places.insert(text, self.known.len())?;
        self.known.push(KnownExtent { matchers, extent })?;
        Ok(())
    }
}

/// Returns a text of a list of matchers. Lists that are not the same hardly have the same text.
pub(crate) fn text_of(alloc: Global, matchers: &Matchers) -> Result<String, AllocError> {
    let mut text = String::new(alloc);
    for i in 0..matchers.len() {
        let matcher = matchers.get(i);
        text.push_str(matcher.name())?;
        text.push_str(matcher.op().text())?;
        text.push_str(matcher.value())?;
        text.push(',')?;
    }
    Ok(text)
}

/// Whether two lists have the same matchers.
fn are_same(list: &Matchers, other: &Matchers) -> bool
    ensures { IsTrue result → list.now ≡ other.now }
{
    if list.len() != other.len() {
        return false;
    }
    for i in 0..list.len() {
        if !is_same(list.get(i), other.get(i)) {
            return false;
        }
    }
    true
}

fn is_same(matcher: &Matcher, other: &Matcher) -> bool
    ensures { IsTrue result → matcher.now ≡ other.now }
{
    matcher.op() == other.op() && matcher.name() == other.name() && matcher.value() == other.value()
}
