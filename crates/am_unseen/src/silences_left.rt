//! The matchers of the silences that are not over.

ghost use Rattle.std.specs.Prelude.{◌≡◌, fold, OnOk};
ghost use Rattle.am_unseen.specs.Unseen.{placed_in_silences_left};

use am_asked::{Visitor, visit_matchers};
use am_complete::Origin;
use am_eval::World;
use std::alloc::AllocError;

/// Visits the matchers of the silences that are not over. Fails only if memory runs out.
pub(crate) fn visit_silences_left<'w, V: Visitor<'w>>(
    visitor: &mut V,
    world: &'w World,
) -> Result<(), AllocError>
    ensures { OnOk result (visitor.new
        ≡ fold V.after visitor.old (placed_in_silences_left world.now)) }
{
    let silences = world.silences();
    for i in 0..silences.len() {
        if !world.over(i) {
            visit_matchers(visitor, &Origin::Silence(i), silences.get(i).matchers())?;
        }
    }
    Ok(())
}
