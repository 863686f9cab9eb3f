//! Sets of the cubes of a table.

ghost use Rattle.std.specs.Prelude.{◌≡◌, ◌==◌, ◌&&◌, ◌||◌, ℕ, ◌<◌, ◌/◌, ◌%◌, false, if◌then◌else◌};
ghost use Rattle.am_judged_lists.specs.ListSetView.{has};
ghost use Rattle.am_judged_lists.specs.CubeSetView.{contains, is_subset, are_apart};

use crate::list_set::{ListSet, ROOM};

/// How many parts a set has, each with room for `ROOM` cubes.
pub(crate) const PARTS: usize = 8;

/// How many cubes a set has room for: the first ones of a table.
pub const MAX_CUBES: usize = PARTS * ROOM;

/// A set of the first [`MAX_CUBES`] cubes of a table, by their indices.
#[derive(Clone, Copy, Drop)]
pub struct CubeSet {
    parts: [ListSet; PARTS],
}

impl CubeSet {
    /// The empty set.
    pub fn none() -> CubeSet
        ensures none { (k : ℕ) → contains result k ≡ false }
    {
        CubeSet {
            parts: [ListSet::none(); PARTS],
        }
    }

    /// Adds the cube at an index, if it is chosen.
    pub fn insert_if(&mut self, place: usize, chosen: bool)
        requires { place < MAX_CUBES }
        ensures inserted { (k : ℕ)
            → contains self.new k ≡ (contains self.old k || (k == place && chosen)) }
    {
        self.parts[place / ROOM].insert_if(place % ROOM, chosen);
    }

    /// Replaces one part of the set.
    pub(crate) fn put(&mut self, part: usize, cubes: ListSet)
        requires { part < PARTS }
        ensures put { (k : ℕ) → contains self.new k
            ≡ (if k / ROOM == part then has cubes (k % ROOM) else contains self.old k) }
    {
        self.parts[part] = cubes;
    }

    /// Whether the cube at an index is in the set.
    pub fn contains(&self, place: usize) -> bool
        ensures there { result ≡ contains self.now place }
    {
        match self.parts.get(place / ROOM) {
            Some(part) => part.contains(place % ROOM),
            None => false,
        }
    }

    /// Whether the other set has each cube of this one.
    pub fn is_within(&self, other: &CubeSet) -> bool
        ensures within { result ≡ is_subset (contains self.now) (contains other.now) }
    {
        for i in 0..PARTS {
            if !self.parts[i].without(other.parts[i]).is_empty() {
                return false;
            }
        }
        true
    }

    /// Whether the other set has no cube of this one.
    pub fn misses(&self, other: &CubeSet) -> bool
        ensures apart { result ≡ are_apart (contains self.now) (contains other.now) }
    {
        for i in 0..PARTS {
            if !self.parts[i].and(other.parts[i]).is_empty() {
                return false;
            }
        }
        true
    }
}
