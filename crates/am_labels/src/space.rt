ghost use Rattle.std.specs.Prelude.{◌≡◌, ◌≤◌, [], length};
ghost use Rattle.am_labels.specs.declared.limits.TheConstants.{MAX_IMPOSSIBLE};

use crate::Matchers;
use am_universe::Universe;
use std::alloc::Global;
use std::marker::Model;
use std::mem;

/// A universe without the label sets that never occur: those that match one of at most
/// `MAX_IMPOSSIBLE` lists of matchers.
#[derive(Drop)]
pub struct Space {
    universe: Universe,
    impossible: Vec<Matchers>,
}

impl Model for Space {
    ghost use Rattle.am_labels.specs.Space as spec;

    ghost Value = { spec.Space };

    ghost view = { λ s. record { labels = s.universe; impossible = s.impossible.items } };

    ghost invariant = { λ s. spec.IsSpace
        (record { labels = s.universe; impossible = s.impossible.items }) };
}

impl Space {
    /// The space of a universe in which nothing is impossible. It keeps the allocator, and takes no
    /// memory.
    pub fn of(alloc: Global, universe: Universe) -> Space
        ensures labels { result.labels ≡ universe }
        ensures impossible { result.impossible ≡ [] }
    {
        Space {
            universe,
            impossible: Vec::new(alloc),
        }
    }

    /// The space of a universe without the label sets that match one of these lists.
    ///
    /// There must be at most `MAX_IMPOSSIBLE` lists. The empty list matches every label set.
    pub fn without(universe: Universe, impossible: Vec<Matchers>) -> Space
        requires few { length impossible.items ≤ MAX_IMPOSSIBLE }
        ensures labels { result.labels ≡ universe }
        ensures impossible { result.impossible ≡ impossible.items }
    {
        Space {
            universe,
            impossible,
        }
    }

    /// Replaces the labels and their values. The impossible lists stay.
    pub fn declare(&mut self, universe: Universe)
        ensures labels { self.new.labels ≡ universe }
        ensures impossible { self.new.impossible ≡ self.old.impossible }
    {
        self.universe = universe;
    }

    /// Takes the labels and their values away, and returns them. The impossible lists stay. This
    /// takes no memory.
    pub fn undeclare(&mut self, alloc: Global) -> Universe
        ensures returned { result ≡ self.old.labels }
        ensures labels { self.new.labels ≡ [] }
        ensures impossible { self.new.impossible ≡ self.old.impossible }
    {
        mem::replace(&mut self.universe, Universe::empty(alloc))
    }

    /// The labels and their values, without regard to what is impossible.
    pub fn universe(&self) -> &Universe
        ensures labels { result.now ≡ self.now.labels }
    {
        &self.universe
    }

    /// The lists of matchers that no label set of the space matches, in declared order.
    pub fn impossible(&self) -> &[Matchers]
        ensures lists { result.now ≡ self.now.impossible }
    {
        self.impossible.as_slice()
    }
}
