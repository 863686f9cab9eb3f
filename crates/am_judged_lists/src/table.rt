//! Cubes that are asked together.
//!
//! The routes, the silences and the pairs of a world, and the impossible lists of a space, are many
//! lists. A judge asks which of them pass, or whether any does.
//!
//! The cubes are kept in blocks of up to 128. For each position of a label that has a mask, a block
//! has the set of its cubes that permit the position, as the bits of one number. A cube passes at a
//! prefix if it is in the sets of all its positions, and in the set of those that can pass at a
//! prefix of this length.
//!
//! A table goes through each prefix anew, and keeps nothing of the prefix before it. To remember
//! something, a judge would have to change when it is asked, and `judge` takes it unchanged.

ghost use Rattle.std.specs.Prelude.{◌≡◌, ℕ, ◌<◌, ◌*◌, length, IfOk, IfSome, IfNone};
ghost use Rattle.std.specs.List.{list_any};
ghost use Rattle.am_judged_lists.specs.Cube.{verdict_at};
ghost use Rattle.am_judged_lists.specs.Certainty.{passes};
ghost use Rattle.am_judged_lists.specs.CubeSetView.{contains};
ghost use Rattle.am_judged_lists.specs.BlockView.{IsSetOf};
ghost use Rattle.am_judged_lists.specs.Places.{is_at, IsNext, NoneBetween};
ghost use Rattle.am_judged_lists.specs.TableView.{part_at, AreBlocksOf};

use crate::block::Block;
use crate::certainty::Certainty;
use crate::cube::Cube;
use crate::cube_set::{CubeSet, MAX_CUBES, PARTS};
use crate::list_set::{ListSet, ROOM};
use am_universe::{Choice, Universe};
use std::alloc::{AllocError, Global};
use std::marker::Model;

/// Cubes, and sets of bits by which many cubes are asked at once.
#[derive(Drop)]
pub struct Table {
    cubes: Vec<Cube>,
    /// The cubes in their order, as many in each block as a set has room for.
    blocks: Vec<Block>,
}

impl Model for Table {
    ghost use Rattle.std.specs.Prelude.{List};
    ghost use Rattle.am_judged_lists.specs.Cube.{MaskedLabels};
    ghost use Rattle.am_judged_lists.specs.TableView.{AreBlocksOf};

    ghost Value = { List MaskedLabels };

    ghost view = { λ a. a.cubes.items };

    ghost invariant = { λ a. AreBlocksOf a.cubes.items a.blocks.items };
}

impl Table {
    /// Makes the table of some cubes over a universe. Fails only if memory runs out.
    pub fn of(alloc: Global, universe: &Universe, cubes: Vec<Cube>) -> Result<Table, AllocError>
        ensures cubes { IfOk result (λ table. table ≡ cubes.items) }
    {
        let blocks = blocks_of(alloc, universe, cubes.as_slice())?;
        Ok(Table { cubes, blocks })
    }

    /// The first cube, from the index `from` on, whose verdict at a prefix passes. Takes no memory.
    pub fn next(&self, certainty: Certainty, prefix: &Choice, from: usize) -> Option<usize>
        ensures some { IfSome result (λ i.
            IsNext (λ cube. passes certainty (verdict_at cube prefix.now)) self.now from i) }
        ensures none { IfNone result (NoneBetween
            (λ cube. passes certainty (verdict_at cube prefix.now)) self.now from
            (length self.now)) }
    {
        for i in from / ROOM..self.blocks.len() {
            let first = i * ROOM;
            let set = self.blocks[i].passing(part_at(&self.cubes, i), certainty, prefix);
            if let Some(place) = set.first_from(from.max(first) - first) {
                return Some(first + place);
            }
        }
        None
    }

    /// Whether the verdict of some cube passes at a prefix.
    pub fn any(&self, certainty: Certainty, prefix: &Choice) -> bool
        ensures any { result
            ≡ list_any (λ cube. passes certainty (verdict_at cube prefix.now)) self.now }
    {
        self.next(certainty, prefix, 0).is_some()
    }

    /// Which of the first [`MAX_CUBES`] cubes have verdicts that pass at a prefix. Takes no memory.
    pub fn passing(&self, certainty: Certainty, prefix: &Choice) -> CubeSet
        ensures passing { (k : ℕ) → k < MAX_CUBES → contains result k
            ≡ is_at (λ cube. passes certainty (verdict_at cube prefix.now)) self.now k }
    {
        let mut set = CubeSet::none();
        for i in 0..PARTS.min(self.blocks.len()) {
            let cubes = part_at(&self.cubes, i);
            set.put(i, self.blocks[i].passing(cubes, certainty, prefix));
        }
        set
    }
}

/// The cubes of the block at the index `i`.
fn part_at(cubes: &[Cube], i: usize) -> &[Cube]
    requires { i * ROOM < length cubes.now }
    ensures { result.now ≡ part_at cubes.now i }
{
    let first = i * ROOM;
    let end = cubes.len().min(first + ROOM);
    &cubes[first..end]
}

/// The blocks of some cubes, in order. Fails only if memory runs out.
fn blocks_of(alloc: Global, universe: &Universe, cubes: &[Cube]) -> Result<Vec<Block>, AllocError>
    ensures blocks { IfOk result (λ blocks. AreBlocksOf cubes.now blocks.items) }
{
    let mut blocks = Vec::new(alloc);
    for i in 0..cubes.len().div_ceil(ROOM) {
        blocks.push(Block::of(alloc, universe, part_at(cubes, i))?)?;
    }
    Ok(blocks)
}
