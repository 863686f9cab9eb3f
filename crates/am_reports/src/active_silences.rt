//! The silences of a world that are active.

ghost use Rattle.std.specs.Prelude.{◌≡◌, IfOk};
ghost use Rattle.am_outcomes.specs.Configurations.{silences_view};
ghost use Rattle.am_reports.specs.ActiveSilences.{active_silences};

use am_eval::World;
use am_outcomes::ActiveSilence;
use std::alloc::{AllocError, Global};

/// Returns the silences that are active at the instant of a world, in the order of their file.
/// Fails only if memory runs out.
pub(crate) fn active_silences(
    alloc: Global,
    world: &World,
) -> Result<Vec<ActiveSilence<'_>>, AllocError>
    ensures { IfOk result (λ found. silences_view found.items ≡ active_silences world.now) }
{
    let silences = world.silences();
    let mut found = Vec::new(alloc);
    for position in 0..silences.len() {
        if world.active(position) {
            found.push(ActiveSilence {
                position,
                matchers: silences.get(position).matchers(),
            })?;
        }
    }
    Ok(found)
}
