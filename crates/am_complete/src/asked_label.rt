//! A label that matchers ask about, with the operators that come with each value.
ghost use Rattle.std.specs.Prelude.{◌≡◌, ◌≢◌, [], map, IfOk, OnOk, OnErr};
ghost use Rattle.am_complete.specs.AskedLabel.{label_of, with_matcher};
ghost use Rattle.am_complete.specs.Operators.{operators_with};

use crate::Origin;
use am_labels::{Matcher, Op};
use std::alloc::{AllocError, Global};
use std::collections::BTreeMap;
use std::marker::Model;

/// A label that matchers ask about, with these matchers. Equal matchers are kept once.
#[derive(Drop)]
pub struct AskedLabel<'m> {
    name: &'m str,
    matchers: Vec<&'m Matcher>,
    operators: BTreeMap<&'m str, Vec<Op>>,
    first: Origin,
}

impl<'m> Model for AskedLabel<'m> {
    ghost use Rattle.std.specs.Prelude.{◌≢◌, [], map};
    ghost use Rattle.am_complete.specs.AskedLabel as spec;
    ghost use Rattle.am_complete.specs.Operators.{HasOperatorsOf};

    ghost Value = { spec.AskedLabel };

    ghost view = { λ l. record {
      name = l.name.now;
      matchers = map (λ m. m.now) l.matchers.items;
      first = l.first;
    } };

    // The label has a name. The map has the operators that come with each value. It shows whether
    // there is an equal matcher.
    ghost invariant = { λ l. (l.name.now ≢ [])
        × HasOperatorsOf l.operators (map (λ m. m.now) l.matchers.items) };
}

impl<'m> AskedLabel<'m> {
    /// Makes the label of a matcher that has this origin. The label has that matcher alone.
    pub(crate) fn of(
        alloc: Global,
        origin: &Origin,
        matcher: &'m Matcher,
    ) -> Result<AskedLabel<'m>, AllocError>
        ensures { IfOk result (λ label. label ≡ label_of (origin.now, matcher.now)) }
    {
        let mut label = AskedLabel {
            name: matcher.name(),
            matchers: Vec::new(alloc),
            operators: BTreeMap::new(alloc),
            first: *origin,
        };
        label.add(alloc, matcher)?;
        Ok(label)
    }

    /// Adds a matcher on this label, unless it has an equal one. Fails only if memory runs out;
    /// then nothing has changed.
    pub(crate) fn add(&mut self, alloc: Global, matcher: &'m Matcher) -> Result<(), AllocError>
        ensures ok { OnOk result (self.new ≡ with_matcher matcher.now self.old) }
        ensures err { OnErr result (self.new ≡ self.old) }
    {
        let op = matcher.op();
        let found = operators_beside(&self.operators, matcher);
        if found.contains(&op) {
            return Ok(());
        }
        let mut operators = Vec::from_slice(alloc, found)?;
        operators.push(op)?;
        // Room is reserved first, so that nothing has changed if memory runs out.
        self.matchers.reserve(1)?;
        self.operators.insert(matcher.value(), operators)?;
        match self.matchers.push(matcher) {
            Ok(()) => Ok(()),
            // There is room: it was reserved.
            Err(_) => unreachable!(),
        }
    }

    /// Returns the name of the label, which is not empty. It may be a name that no universe can
    /// declare.
    pub fn name(&self) -> &'m str
        ensures name { result.now ≡ self.now.name }
        ensures named { self.now.name ≢ [] }
    {
        self.name
    }

    /// Returns the matchers that ask about the label, in the order in which they were added.
    pub fn matchers(&self) -> &[&'m Matcher]
        ensures matchers { map (λ m. m.now) result.now ≡ self.now.matchers }
    {
        self.matchers.as_slice()
    }

    /// Returns the origin of the first matcher.
    pub fn first(&self) -> Origin
        ensures first { result ≡ self.now.first }
    {
        self.first
    }
}

/// Returns the operators that a map has for the value of a matcher.
fn operators_beside<'a>(operators: &'a BTreeMap<&str, Vec<Op>>, matcher: &Matcher) -> &'a [Op]
    ensures { result.now ≡ operators_with operators.now matcher.now.value }
{
    match operators.get(matcher.value()) {
        Some(found) => found.as_slice(),
        None => &[],
    }
}
