ghost use Rattle.std.specs.Prelude.{◌≡◌, IfOk};
ghost use Rattle.am_labels.specs.Matcher.{all_hold};

use crate::matcher::PreparedMatcher;
use crate::{Matcher, Matchers};
use am_universe::LabelSet;
use std::alloc::{AllocError, Global};
use std::marker::Model;

/// Tests one label set after another against a list of matchers.
///
/// The search for a pattern is made when the first text reaches it, and serves all later texts. So
/// no search is made that is not needed, even for a single label set.
#[derive(Drop)]
pub struct PreparedMatchers<'m> {
    matchers: &'m [Matcher],
    // A prefix of the list: the matchers that some label set has reached.
    prepared: Vec<PreparedMatcher<'m>>,
}

impl<'m> Model for PreparedMatchers<'m> {
    ghost use Rattle.std.specs.Prelude.{◌≡◌, List, length, take};
    ghost use Rattle.am_labels.specs.Matcher.{Matcher};

    ghost Value = { List Matcher };

    ghost view = { λ p. p.matchers.now };

    ghost invariant = { λ p. p.prepared.items ≡ take (length p.prepared.items) p.matchers.now };
}

impl Matchers {
    /// Prepares this list to test one label set after another. Takes no memory yet.
    pub fn prepare(&self, alloc: Global) -> PreparedMatchers<'_>
        ensures matchers { result ≡ self.now }
    {
        PreparedMatchers {
            matchers: self.as_slice(),
            prepared: Vec::new(alloc),
        }
    }
}

impl<'m> PreparedMatchers<'m> {
    /// Whether a label set matches every matcher. A label that is missing has the empty text.
    ///
    /// Fails only if memory runs out; the next label set is then tested as usual.
    pub fn matches(&mut self, alloc: Global, set: &LabelSet) -> Result<bool, AllocError>
        ensures matched { IfOk result (λ matched. matched ≡ all_hold set.now self.old) }
        ensures same { self.new ≡ self.old }
    {
        for (i, matcher) in self.matchers.iter().enumerate() {
            if i == self.prepared.len() {
                self.prepared.push(matcher.prepare(alloc)?)?;
            }
            if !self.prepared[i].holds(set.get(matcher.name())) {
                return Ok(false);
            }
        }
        Ok(true)
    }
}
