//! Boxes: which positions of each label are permitted.

ghost use Rattle.std.specs.Prelude.{◌≡◌, ◌↔◌, ◌<◌, ℕ, List, length, slice_index, IfOk, IsTrue};
ghost use Rattle.std.specs.Prelude.{false, slice_index_or};
ghost use Rattle.am_universe.specs.Universe.{sizes};
ghost use Rattle.am_universe.specs.Choice.{IsWhole};
ghost use Rattle.am_judged_lists.specs.Cube.{matches, permits_position};
ghost use Rattle.am_judged_lists.specs.Boxes.{box_permits, IsInBox, HasChoice, IsOpen};
ghost use Rattle.am_judged_lists.specs.Boxes.{IsMatching};
ghost use Rattle.am_judged_lists.specs.Pairs.{IsTwice};
ghost use Rattle.am_judged_lists.specs.Boxes.{is_in_part, count_positions};

use crate::cube::Cube;
use crate::mask::{Mask, Part};
use am_universe::{Choice, Universe};
use std::alloc::{AllocError, Global};
use std::marker::Model;

/// Which positions of each label of a universe are permitted: a set of choices.
#[derive(Drop)]
pub struct PositionBox {
    /// A mask for each label.
    masks: Vec<Mask>,
}

impl Model for PositionBox {
    ghost use Rattle.std.specs.Prelude.{List, Bool};

    ghost Value = { List (List Bool) };

    ghost view = { λ b. b.masks.items };
}

/// How a cube matches the choices of a box.
#[derive(Clone, Copy)]
pub enum Matching {
    /// It matches none of them.
    Misses,
    /// It matches all of them.
    Covers,
    /// This label of the box has positions that the cube permits and others that it does not. The
    /// second number says how many such labels there are.
    Opens(usize, usize),
}

impl PositionBox {
    /// Makes the box of all choices of a universe. Fails only if memory runs out.
    pub fn all(alloc: Global, universe: &Universe) -> Result<PositionBox, AllocError>
        ensures long { IfOk result (λ b. length b ≡ length universe.now) }
        ensures all { IfOk result (λ b. (c : List ℕ)
            → IsInBox b c ↔ IsWhole (sizes universe.now) c) }
    {
        // The contract of `len` tells the proof that the sizes are those of the labels.
        let labels = universe.len();
        let mut masks = Vec::with_capacity(alloc, labels)?;
        for label in 0..labels {
            masks.push(Mask::full(alloc, universe.size(label))?)?;
        }
        Ok(PositionBox { masks })
    }

    /// Makes a copy. Fails only if memory runs out.
    pub fn try_clone(&self, alloc: Global) -> Result<PositionBox, AllocError>
        ensures same { IfOk result (λ b. b ≡ self.now) }
    {
        let mut masks = Vec::with_capacity(alloc, self.masks.len())?;
        for mask in self.masks.as_slice() {
            masks.push(mask.try_clone(alloc)?)?;
        }
        Ok(PositionBox { masks })
    }

    /// Makes the box of pairs of choices of this box, over twice as many labels: each label stands
    /// twice, one behind the other. Fails only if memory runs out.
    pub fn twice(&self, alloc: Global) -> Result<PositionBox, AllocError>
        ensures { IfOk result (IsTwice self.now) }
    {
        let mut masks = Vec::new(alloc);
        for mask in self.masks.as_slice() {
            masks.push(mask.try_clone(alloc)?)?;
            masks.push(mask.try_clone(alloc)?)?;
        }
        Ok(PositionBox { masks })
    }

    /// The number of labels.
    pub fn len(&self) -> usize
        ensures { result ≡ length self.now }
    {
        self.masks.len()
    }

    /// Whether a position of a label is permitted.
    pub fn permits(&self, label: usize, position: usize) -> bool
        ensures { result ≡ box_permits self.now label position }
    {
        match self.masks.get(label) {
            Some(mask) => mask.contains(position),
            None => false,
        }
    }

    /// Whether a choice is in the box.
    pub fn has(&self, choice: &Choice) -> bool
        ensures { IsTrue result ↔ IsInBox self.now choice.now }
    {
        if choice.len() != self.masks.len() {
            return false;
        }
        for label in 0..self.masks.len() {
            if !self.masks[label].permits(choice.get(label)) {
                return false;
            }
        }
        true
    }

    /// Whether each label has some permitted position.
    pub fn has_choice(&self) -> bool
        ensures { IsTrue result ↔ HasChoice self.now }
    {
        for mask in self.masks.as_slice() {
            if !mask.any_in(Part::Within, mask) {
                return false;
            }
        }
        true
    }

    /// Takes out the positions of a label that are not in a part, by the mask of a cube.
    ///
    /// The label must be open for the cube. So each label still has a position, and there are fewer
    /// positions in all.
    pub fn keep(&mut self, cube: &Cube, label: usize, part: Part)
        requires { IsOpen self.old cube.now label }
        ensures choices { (c : List ℕ) → IsInBox self.new c ↔ IsInBox self.old c
            × IsTrue (is_in_part part (permits_position cube.now label (slice_index c label))) }
        ensures some { HasChoice self.old → HasChoice self.new }
        ensures fewer { count_positions self.new < count_positions self.old }
    {
        if let Some(mask) = cube.mask_of(label) {
            self.masks[label].keep(part, mask);
        }
    }

    /// Takes out all choices that a cube does not match.
    ///
    /// Returns `false` if the cube matches no choice of any box with these labels. Then nothing
    /// has changed.
    pub fn keep_matching(&mut self, cube: &Cube) -> bool
        ensures kept { IsTrue result → (c : List ℕ)
            → IsInBox self.new c ↔ IsInBox self.old c × IsTrue (matches cube.now c) }
        ensures none { result ≡ false → (c : List ℕ)
            → IsInBox self.old c → matches cube.now c ≡ false }
    {
        if cube.is_empty() || !cube.is_within(self.masks.len()) {
            return false;
        }
        for mask in cube.masks() {
            self.keep_permitted(mask.label, &mask.mask);
        }
        true
    }

    /// Takes out the positions of a label that a mask does not permit.
    fn keep_permitted(&mut self, label: usize, mask: &Mask)
        requires { label < length self.old }
        ensures same { length self.new ≡ length self.old }
        ensures choices { (c : List ℕ) → IsInBox self.new c ↔ IsInBox self.old c
            × IsTrue (slice_index_or mask.now (slice_index c label) false) }
    {
        self.masks[label].keep(Part::Within, mask);
    }

    /// Takes out all positions of a label but one.
    pub fn keep_only(&mut self, label: usize, position: usize)
        requires { label < length self.old }
        ensures choices { (c : List ℕ)
            → IsInBox self.new c ↔ IsInBox self.old c × (slice_index c label ≡ position) }
    {
        self.masks[label].keep_only(position);
    }

    /// How a cube matches the choices of this box. Takes no memory.
    pub fn matching(&self, cube: &Cube) -> Matching
        ensures { IsMatching self.now cube.now result }
    {
        if cube.is_empty() {
            return Matching::Misses;
        }
        // The last open label, and how many there are.
        let mut last = 0;
        let mut labels: usize = 0;
        for mask in cube.masks() {
            let Some(own) = self.masks.get(mask.label) else {
                return Matching::Misses;
            };
            if !own.any_in(Part::Within, &mask.mask) {
                return Matching::Misses;
            }
            if own.any_in(Part::Outside, &mask.mask) {
                last = mask.label;
                labels = labels.saturating_add(1);
            }
        }
        if labels == 0 {
            Matching::Covers
        } else {
            Matching::Opens(last, labels)
        }
    }
}
