//! The lists of matchers that no label set of a space matches, as cubes.

ghost use Rattle.std.specs.Prelude.{◌≡◌, ℕ, List, map, IsTrue, IfOk};
ghost use Rattle.am_universe.specs.Universe.{sizes};
ghost use Rattle.am_universe.specs.Choice.{admits};
ghost use Rattle.am_judged_lists.specs.Cube.{verdict_at};
ghost use Rattle.am_judged_lists.specs.Verdicts.{verdict_of_list};

use crate::cube::Cube;
use am_labels::Space;
use std::alloc::{AllocError, Global};

/// The cube of each impossible list of a space, in declared order. Fails only if memory runs out.
pub fn impossible_cubes(alloc: Global, space: &Space) -> Result<Vec<Cube>, AllocError>
    ensures verdicts { IfOk result (λ cubes. (prefix : List ℕ)
        → IsTrue (admits (sizes space.now.labels) prefix)
        → map (λ cube. verdict_at cube prefix) cubes.items
        ≡ map (λ ms. verdict_of_list space.now.labels ms prefix) space.now.impossible) }
{
    let universe = space.universe();
    let lists = space.impossible();
    let mut cubes = Vec::with_capacity(alloc, lists.len())?;
    for list in lists {
        let cube = Cube::of(alloc, list, universe)?;
        cubes.push(cube)?;
    }
    Ok(cubes)
}
