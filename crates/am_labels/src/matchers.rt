ghost use Rattle.std.specs.Prelude.{◌≡◌, ◌≢◌, ◌<◌, ◌≤◌, ◌+◌, ◌==◌, [], ◌∷◌, ◌++◌, Some, length};
ghost use Rattle.std.specs.Prelude.{IfOk, IfErr, OnOk, OnErr, slice_get};
ghost use Rattle.am_labels.specs.Matcher.{all_hold};
ghost use Rattle.am_universe.specs.declared.kind.Kind.TheVariants as kinds;

use crate::Matcher;
use crate::limits::MAX_MATCHERS;
use am_universe::{Kind, LabelSet};
use std::alloc::{AllocError, Global};
use std::marker::Model;

/// A list of at most [`MAX_MATCHERS`] matchers, all of which a label set has to match.
#[derive(Drop)]
pub struct Matchers {
    matchers: Vec<Matcher>,
}

impl Model for Matchers {
    ghost use Rattle.std.specs.Prelude.{List, ◌≤◌, length};
    ghost use Rattle.am_labels.specs.declared.limits.TheConstants.{MAX_MATCHERS};
    ghost use Rattle.am_labels.specs.Matcher.{Matcher};

    ghost Value = { List Matcher };

    ghost view = { λ a. a.matchers.items };

    ghost invariant = { λ a. length a.matchers.items ≤ MAX_MATCHERS };
}

impl Matchers {
    /// The empty list, which every label set matches. It keeps the allocator.
    pub fn empty(alloc: Global) -> Matchers
        ensures no_matcher { result ≡ [] }
    {
        Matchers {
            matchers: Vec::new(alloc),
        }
    }

    /// The list of these matchers, in their order. There must be at most [`MAX_MATCHERS`].
    pub fn of(matchers: Vec<Matcher>) -> Matchers
        requires few { length matchers.items ≤ MAX_MATCHERS }
        ensures matchers { result ≡ matchers.items }
    {
        Matchers { matchers }
    }

    /// Adds a matcher at the end.
    ///
    /// Fails with `Limit` if there are [`MAX_MATCHERS`] already, and with `Memory` if memory runs
    /// out; then nothing has changed.
    pub fn push(&mut self, matcher: Matcher) -> Result<(), Kind>
        ensures ok { OnOk result (self.new ≡ self.old ++ matcher ∷ []) }
        ensures room { OnOk result (length self.old < MAX_MATCHERS) }
        ensures full { length self.old ≡ MAX_MATCHERS → result ≡ Err kinds.Limit }
        ensures refused { IfErr result (λ kind. kind ≢ kinds.Memory
            → (kind ≡ kinds.Limit) × (length self.old ≡ MAX_MATCHERS)) }
        ensures err { OnErr result (self.new ≡ self.old) }
    {
        if self.len() >= MAX_MATCHERS {
            return Err(Kind::Limit);
        }
        match self.matchers.push(matcher) {
            Ok(()) => Ok(()),
            Err(_) => Err(Kind::Memory),
        }
    }

    /// Adds the matchers of another list at the end, in their order.
    ///
    /// Fails with `Limit` exactly if there would be more than [`MAX_MATCHERS`], and with `Memory`
    /// if memory runs out. Then nothing has changed, and the other list is dropped.
    pub fn append(&mut self, other: Matchers) -> Result<(), Kind>
        ensures ok { OnOk result (self.new ≡ self.old ++ other) }
        ensures room { OnOk result (length self.old + length other ≤ MAX_MATCHERS) }
        ensures full { MAX_MATCHERS < length self.old + length other
            → result ≡ Err kinds.Limit }
        ensures refused { IfErr result (λ kind. kind ≢ kinds.Memory
            → (kind ≡ kinds.Limit) × (MAX_MATCHERS < length self.old + length other)) }
        ensures err { OnErr result (self.new ≡ self.old) }
    {
        if self.len() + other.len() > MAX_MATCHERS {
            return Err(Kind::Limit);
        }
        let mut more = other.matchers;
        match self.matchers.append(&mut more) {
            Ok(()) => Ok(()),
            Err(_) => Err(Kind::Memory),
        }
    }

    /// How many matchers there are, at most [`MAX_MATCHERS`].
    pub fn len(&self) -> usize
        ensures len { result ≡ length self.now }
        ensures at_most { result ≤ MAX_MATCHERS }
    {
        self.matchers.len()
    }

    /// Whether there is no matcher.
    pub fn is_empty(&self) -> bool
        ensures empty { result ≡ (length self.now == 0) }
    {
        self.matchers.is_empty()
    }

    /// The matcher at `i`.
    pub fn get(&self, i: usize) -> &Matcher
        requires { i < length self.now }
        ensures matcher { slice_get self.now i ≡ Some result.now }
    {
        &self.matchers[i]
    }

    /// The last matcher, if there is one.
    pub(crate) fn last(&self) -> Option<&Matcher> {
        self.matchers.as_slice().last()
    }

    /// The matchers as a slice.
    pub(crate) fn as_slice(&self) -> &[Matcher]
        ensures { result.now ≡ self.now }
    {
        self.matchers.as_slice()
    }

    /// Whether a label set matches every matcher. A label that is missing has the empty text.
    ///
    /// Fails only if memory runs out.
    pub fn matches(&self, alloc: Global, set: &LabelSet) -> Result<bool, AllocError>
        ensures matched { IfOk result (λ matched. matched ≡ all_hold set.now self.now) }
    {
        self.prepare(alloc).matches(alloc, set)
    }
}
