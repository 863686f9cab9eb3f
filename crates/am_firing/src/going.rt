//! Which firing alerts go to each receiver.

ghost use Rattle.std.specs.Prelude.{◌≡◌, ◌==◌, ◌<◌, false, length, map, slice_index_or, vec_len};
ghost use Rattle.std.specs.Prelude.{IfOk};
ghost use Rattle.std.specs.List.{All, list_any, range_with_len};
ghost use Rattle.am_eval.specs.Silencing.{positions_where};
ghost use Rattle.am_firing.specs.Going.{marks_of, positions_of};

use am_eval::{World, receivers_of};
use std::alloc::{AllocError, Global};

/// Returns for each receiver the alerts of a world that go to it, by their positions, in order.
/// Fails only if memory runs out.
pub(crate) fn alerts_of_receivers(
    alloc: Global,
    world: &World,
) -> Result<Vec<Vec<usize>>, AllocError>
    ensures { IfOk result (λ found. map (λ positions. positions.items) found.items
        ≡ map (positions_of world.now)
        (range_with_len 0 (length world.now.config.receivers))) }
{
    let marks = marks_of_alerts(alloc, world)?;
    let mut found = Vec::with_capacity(alloc, world.config().receivers())?;
    for receiver in 0..world.config().receivers() {
        found.push(positions_marked(alloc, marks.as_slice(), receiver)?)?;
    }
    Ok(found)
}

/// Returns for each alert of a world the marks of the receivers to which it goes.
fn marks_of_alerts(alloc: Global, world: &World) -> Result<Vec<Vec<bool>>, AllocError>
    ensures { IfOk result (λ found. map (λ marks. marks.items) found.items
        ≡ map (marks_of world.now.config) world.now.alerts) }
{
    let mut found = Vec::with_capacity(alloc, world.alerts().len())?;
    for i in 0..world.alerts().len() {
        let receivers = receivers_of(alloc, world.config(), world.alerts().get(i))?;
        let count = world.config().receivers();
        found.push(marks_at(alloc, receivers.as_slice(), count)?)?;
    }
    Ok(found)
}

/// Returns for each position below `count` whether it is one of the given ones.
fn marks_at(alloc: Global, positions: &[usize], count: usize) -> Result<Vec<bool>, AllocError>
    requires { All (λ position. position < count) positions.now }
    ensures { IfOk result (λ marks. marks.items
        ≡ map (λ i. list_any (λ position. position == i) positions.now)
        (range_with_len 0 count)) }
{
    let mut marks = vec![in alloc; false; count]?;
    for position in positions {
        marks[*position] = true;
    }
    Ok(marks)
}

/// Returns the positions of the rows that are marked in a column.
fn positions_marked(
    alloc: Global,
    rows: &[Vec<bool>],
    column: usize,
) -> Result<Vec<usize>, AllocError>
    requires { All (λ row. column < vec_len row) rows.now }
    ensures { IfOk result (λ found. found.items
        ≡ positions_where (λ row. slice_index_or row.items column false) 0 rows.now) }
{
    let mut found = Vec::new(alloc);
    for (i, row) in rows.iter().enumerate() {
        if row[column] {
            found.push(i)?;
        }
    }
    Ok(found)
}
