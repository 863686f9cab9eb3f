//! Pairs of label sets of a space that share the values of some labels.
//!
//! A pair of choices over n labels is one choice over 2n labels: the label `2 * i` has the position
//! of the label `i` of the first choice, and the label `2 * i + 1` that of the second. Of a label
//! that both share, the second choice is seen at `2 * i` too. So what a side has to match is a cube
//! over these labels, and the searches for single choices find pairs too.

ghost use Rattle.std.specs.Prelude.{◌≡◌, ◌≤◌, ◌*◌, ℕ, List, length, IfOk};
ghost use Rattle.std.proofs.Props.{props};
ghost use Rattle.am_universe.specs.declared.limits.TheConstants.{MAX_LABELS};
ghost use Rattle.am_judged_lists.specs.Cube.{matches};
ghost use Rattle.am_first_sets.specs.PossibleChoices.{IsPossible};
ghost use Rattle.am_first_sets.specs.PossibleSets.{possible_space};

use crate::possible_choices::PossibleChoices;
use crate::possible_sets::PossibleSets;
use am_judged_lists::{Cube, Side};
use am_universe::limits::MAX_LABELS;
use std::alloc::{AllocError, Global};

/// The pairs of label sets of a space that have the same values of some labels, as choices.
#[derive(Drop)]
pub struct Pairs {
    choices: PossibleChoices,
    /// The labels whose values both sides share.
    shared: Vec<usize>,
    /// The number of labels of a side.
    labels: usize,
    ghost few: { labels ≤ MAX_LABELS } by { Prim.hlevel props },
    ghost twice: { length choices.all ≡ 2 * labels } by { Prim.hlevel props },
}

impl Pairs {
    ghost use Rattle.am_first_sets.specs.Pairs.{ArePairsOf, pair_choices, side_of};

    /// Makes the pairs of a space: both sides have the same positions at the shared labels. Fails
    /// only if memory runs out.
    pub fn of(
        alloc: Global,
        possible: &PossibleSets<'_>,
        shared: &[usize],
    ) -> Result<Pairs, AllocError>
        ensures pairs { IfOk result (ArePairsOf (possible_space possible.now) shared.now) }
    {
        let labels = possible.space.universe().len();
        let shared = shared.to_vec(alloc)?;
        let all = possible.choices.all.twice(alloc)?;
        let mut impossible = Vec::new(alloc);
        for cube in &possible.choices.impossible {
            impossible.push(cube.through(alloc, Side::First, shared.as_slice(), labels)?)?;
            impossible.push(cube.through(alloc, Side::Second, shared.as_slice(), labels)?)?;
        }
        Ok(Pairs {
            choices: PossibleChoices { all, impossible },
            shared,
            labels,
        })
    }

    /// The choices that stand for the pairs.
    pub fn choices(&self) -> &PossibleChoices
        ensures { result.now ≡ pair_choices self.now }
    {
        &self.choices
    }

    /// Makes the cube that matches a pair exactly if a cube matches one side of it. Fails only if
    /// memory runs out.
    pub fn cube(&self, alloc: Global, side: Side, cube: &Cube) -> Result<Cube, AllocError>
        ensures { IfOk result (λ asked. (e : List ℕ) → IsPossible (pair_choices self.now) e
            → matches asked e ≡ matches cube.now (side_of self.now side e)) }
    {
        cube.through(alloc, side, self.shared.as_slice(), self.labels)
    }
}
