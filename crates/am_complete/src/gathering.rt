//! Gathering matchers by the label that they ask about.
//!
//! `equal` of a rule asks about the values of each alert, and many alerts have the same values. So
//! a label keeps which operators come with each value, and keeps equal matchers once.

ghost use Rattle.std.specs.Prelude.{◌≡◌, [], ◌∷◌, ◌++◌, false, OnOk, OnErr};
ghost use Rattle.std.specs.List.{list_any};
ghost use Rattle.am_universe.specs.Text.{same_text};
ghost use Rattle.am_complete.specs.AskedLabel.{label_of, with_asked};

use crate::{AskedLabel, Origin};
use am_labels::Matcher;
use std::alloc::{AllocError, Global};
use std::collections::BTreeMap;
use std::marker::Model;

/// The labels that the matchers so far ask about, in the order in which they were first asked
/// about.
#[derive(Drop)]
pub struct Gathering<'m> {
    alloc: Global,
    labels: Vec<AskedLabel<'m>>,
    positions: BTreeMap<&'m str, usize>,
}

impl<'m> Model for Gathering<'m> {
    ghost use Rattle.std.specs.Prelude.{List};
    ghost use Rattle.am_complete.specs.AskedLabel.{AskedLabel};
    ghost use Rattle.am_complete.specs.Gathering.{IsIndexed};

    ghost Value = { List AskedLabel };

    ghost view = { λ g. g.labels.items };

    // The map has the position of each label by its name.
    ghost invariant = { λ g. IsIndexed g.positions g.labels.items };
}

impl<'m> Gathering<'m> {
    /// Makes a gathering without labels, which keeps the allocator.
    pub fn empty(alloc: Global) -> Gathering<'m>
        ensures { result ≡ [] }
    {
        Gathering {
            alloc,
            labels: Vec::new(alloc),
            positions: BTreeMap::new(alloc),
        }
    }

    /// Adds a matcher, which has this origin, to those of its label. Fails only if memory runs out;
    /// then nothing has changed.
    pub fn add(&mut self, origin: &Origin, matcher: &'m Matcher) -> Result<(), AllocError>
        ensures ok { OnOk result (self.new ≡ with_asked self.old (origin.now, matcher.now)) }
        ensures err { OnErr result (self.new ≡ self.old) }
    {
        match self.positions.get(matcher.name()).copied() {
            Some(position) => self.labels[position].add(self.alloc, matcher),
            None => self.add_label(origin, matcher),
        }
    }

    /// Adds a matcher on a label that was not asked about before.
    fn add_label(&mut self, origin: &Origin, matcher: &'m Matcher) -> Result<(), AllocError>
        requires { list_any (λ l. same_text l.name matcher.now.name) self.old ≡ false }
        ensures ok { OnOk result (self.new ≡ self.old ++ label_of (origin.now, matcher.now) ∷ []) }
        ensures err { OnErr result (self.new ≡ self.old) }
    {
        let label = AskedLabel::of(self.alloc, origin, matcher)?;
        // Room is reserved first, so that nothing has changed if memory runs out.
        self.labels.reserve(1)?;
        self.positions.insert(matcher.name(), self.labels.len())?;
        match self.labels.push(label) {
            Ok(()) => Ok(()),
            // There is room: it was reserved.
            Err(_) => unreachable!(),
        }
    }

    /// Returns the labels that were gathered.
    pub fn into_labels(self) -> Vec<AskedLabel<'m>>
        ensures { result.items ≡ self.entry }
    {
        self.labels
    }
}
