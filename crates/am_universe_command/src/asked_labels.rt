//! The labels that matchers ask about.

ghost use Rattle.std.specs.Prelude.{◌≡◌, map, IfOk};
ghost use Rattle.am_eval.specs.QuestionView.{question_view};
ghost use Rattle.am_complete.specs.AskedLabel.{IsAskedOf};
ghost use Rattle.am_asked.specs.Placed.{placed_in_equal};
ghost use Rattle.am_universe_command.specs.Universes.{deciding_matchers, deciding_labels};

use crate::read_inputs::ReadInputs;
use am_asked::{EqualMatcher, asked_by_routes, asked_in_world};
use am_complete::AskedLabel;
use std::alloc::{AllocError, Global};

/// The labels that matchers ask about: those of the routes alone, or all that decide in a world;
/// then those of questions; and then those of impossible lists. Fails only if memory runs out.
pub(crate) fn labels_asked<'m>(
    alloc: Global,
    read: &'m ReadInputs,
    equal: &'m [EqualMatcher],
    routes: bool,
) -> Result<Vec<AskedLabel<'m>>, AllocError>
    requires { equal.now ≡ placed_in_equal read.now.world }
    ensures asked { IfOk result (λ labels. IsAskedOf labels.items (deciding_matchers routes
        read.now.world (map question_view read.now.questions.items) read.now.space.impossible)) }
    ensures labels { IfOk result (λ labels. labels.items ≡ deciding_labels routes
        read.now.world (map question_view read.now.questions.items) read.now.space.impossible) }
{
    let questions = read.questions.as_slice();
    let lists = read.space.impossible();
    if routes {
        asked_by_routes(alloc, read.world.config(), questions, lists)
    } else {
        asked_in_world(alloc, &read.world, equal, questions, lists)
    }
}
