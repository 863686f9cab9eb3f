ghost use Rattle.std.specs.Prelude.{◌≡◌, map, IfOk};
ghost use Rattle.am_labels.specs.Row.{row_of};

use am_labels::{Matchers, Row};
use am_universe::Universe;
use std::alloc::{AllocError, Global};

/// The row of each matcher of a list, in order. Fails only if memory runs out.
pub fn rows_of(
    alloc: Global,
    universe: &Universe,
    matchers: &Matchers,
) -> Result<Vec<Row>, AllocError>
    ensures rows { IfOk result (λ rows. rows.items ≡ map (row_of universe.now) matchers.now) }
{
    let mut rows = Vec::with_capacity(alloc, matchers.len())?;
    for i in 0..matchers.len() {
        rows.push(matchers.get(i).row(alloc, universe)?)?;
    }
    Ok(rows)
}
