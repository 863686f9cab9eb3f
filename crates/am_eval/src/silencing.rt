//! Silencing: which silences hide an alert.

ghost use Rattle.std.specs.Prelude.{◌≡◌, IfOk};
ghost use Rattle.am_eval.specs.Silencing.{hides, silencers};

use crate::world::World;
use am_list_files::Silence;
use am_universe::LabelSet;
use std::alloc::{AllocError, Global};

/// Returns the silences that hide an alert with these labels, by their positions, in the order of
/// the file.
///
/// A silence hides an alert if it is active at the instant of the world and all its matchers match
/// the alert (Alertmanager documentation 0.25, "Silences"). Fails only if memory runs out.
pub fn silenced_by(alloc: Global, world: &World, set: &LabelSet) -> Result<Vec<usize>, AllocError>
    ensures silencers { IfOk result (λ found. found.items ≡ silencers world.now set.now) }
{
    let mut found = Vec::new(alloc);
    for i in 0..world.silences().len() {
        if hides(alloc, world, world.silences().get(i), set)? {
            found.push(i)?;
        }
    }
    Ok(found)
}

/// Whether a silence hides an alert with these labels. Fails only if memory runs out.
fn hides(
    alloc: Global,
    world: &World,
    silence: &Silence,
    set: &LabelSet,
) -> Result<bool, AllocError>
    ensures { IfOk result (λ hidden. hidden ≡ hides world.now set.now silence.now) }
{
    if !world.is_active(silence) {
        return Ok(false);
    }
    silence.matchers().matches(alloc, set)
}
