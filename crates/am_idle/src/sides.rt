//! The two sides of a rule, as literals over the pairs of label sets of a space.

ghost use Rattle.std.specs.Prelude.{◌≡◌, ◌≤◌, ◌↔◌, ◌++◌, List, IfOk, IfSome, IfNone, OnOk, IsTrue};
ghost use Rattle.std.specs.Prelude.{length, string_bytes};
ghost use Rattle.std.specs.List.{filter_map};
ghost use Rattle.am_universe.specs.Universe.{label_position};
ghost use Rattle.am_labels.specs.Space.{Space};
ghost use Rattle.am_config.specs.ConfigFile.{Rule};
ghost use Rattle.am_judged_lists.specs.Cube.{IsCubeOf};
ghost use Rattle.am_first_sets.specs.declared.candidate.Candidate.{Candidate};
ghost use Rattle.am_first_sets.specs.Literals.{IsMet};
ghost use Rattle.am_first_sets.specs.Pairs.{ArePairsOf};
ghost use Rattle.am_first_sets.specs.PossibleChoices.{IsPossible};
ghost use Rattle.am_first_sets.specs.Reason.{AreSameLiterals, IsReason};
ghost use Rattle.am_idle.specs.RuleChoices.{labels_named, AreMeeting, AreCubesOfMatchers};
ghost use Rattle.am_idle.specs.RuleChoices.{AreWantedFor, AreAllNamed, AreNamedIn, named_of};
ghost use Rattle.am_idle.specs.Rules.{SomeMeet, SomeInhibit, Matches, IsWhyNone};

use crate::rules::IdleReason;
use am_config::Rule;
use am_first_sets::{
    Budget, Candidate, Pairs, PossibleChoices, Side, Unfinished, leave_out, some_meeting,
};
use am_judged_lists::Cube;
use am_labels::Matchers;
use am_universe::Universe;
use std::alloc::{AllocError, Global};

/// Returns the positions of the labels with these names. Names that the universe does not declare
/// are ignored.
pub(crate) fn labels_named(
    alloc: Global,
    universe: &Universe,
    names: &[String],
) -> Result<Vec<usize>, AllocError>
    ensures { IfOk result (λ labels. labels.items
        ≡ filter_map (λ name. label_position universe.now (string_bytes name)) names.now) }
{
    names
        .iter()
        .filter_map(|name| universe.position(name.as_str()))
        .collect(alloc)
}

/// Finds which matchers of the two sides of a rule contradict each other. Returns `None` if some
/// pair of label sets matches one side each. Fails if the budget is used up or memory runs out.
pub(crate) fn why_contradicting(
    alloc: Global,
    pairs: &Pairs,
    universe: &Universe,
    rule: &Rule,
    budget: &mut Budget,
) -> Result<Option<IdleReason>, Unfinished>
    ensures some { IfOk result (λ found. IfSome found (λ reason. (s : Space)
        → universe.now ≡ s.labels
        → ArePairsOf s (labels_named s.labels rule.now.equal) pairs.now
        → IsWhyNone (AreMeeting s rule.now.equal) rule.now reason)) }
    ensures none { IfOk result (λ found. IfNone found ((s : Space) → universe.now ≡ s.labels
        → ArePairsOf s (labels_named s.labels rule.now.equal) pairs.now
        → SomeMeet (AreMeeting s rule.now.equal)
        (Matches rule.now.source) (Matches rule.now.target))) }
{
    let source = cubes_of_matchers(alloc, pairs, Side::First, universe, rule.source())?;
    let target = cubes_of_matchers(alloc, pairs, Side::Second, universe, rule.target())?;
    let mut literals = Vec::new(alloc);
    push_literals(&mut literals, source.as_slice())?;
    push_literals(&mut literals, target.as_slice())?;
    let sources = rule.source().len();
    contradiction_of(alloc, pairs.choices(), &mut literals, sources, budget)
}

/// Finds which of the named literals of two sides contradict each other. The first `sources` are
/// those of the source side. Returns `None` if some possible choice meets all that are named. Fails
/// if the budget is used up or memory runs out.
fn contradiction_of(
    alloc: Global,
    choices: &PossibleChoices,
    literals: &mut [Candidate<'_>],
    sources: usize,
    budget: &mut Budget,
) -> Result<Option<IdleReason>, Unfinished>
    requires { sources ≤ length literals.old }
    ensures some { IfOk result (λ found. IfSome found (λ reason. (ks : List Candidate)
        × AreSameLiterals literals.old ks × IsReason (IsPossible choices.now) 0 ks
        × AreNamedIn sources ks reason)) }
    ensures none { IfOk result (λ found. IfNone found (IsMet (IsPossible choices.now)
        literals.old)) }
{
    if some_meeting(alloc, choices, literals, budget)?.is_some() {
        return Ok(None);
    }
    leave_out(alloc, choices, literals, 0, budget)?;
    let source = named_positions(alloc, &literals[..sources])?;
    let target = named_positions(alloc, &literals[sources..])?;
    Ok(Some(IdleReason::Contradiction { source, target }))
}

/// Returns the cube of each matcher of a list, asked of one side of a pair. Fails only if memory
/// runs out.
fn cubes_of_matchers(
    alloc: Global,
    pairs: &Pairs,
    side: Side,
    universe: &Universe,
    matchers: &Matchers,
) -> Result<Vec<Cube>, AllocError>
    ensures { IfOk result (λ cubes. AreCubesOfMatchers universe.now pairs.now side matchers.now
        cubes.items) }
{
    let mut cubes = Vec::with_capacity(alloc, matchers.len())?;
    for i in 0..matchers.len() {
        let row = matchers.get(i).row(alloc, universe)?;
        let cube = Cube::of_rows(alloc, universe, &[row], &[])?;
        cubes.push(pairs.cube(alloc, side, &cube)?)?;
    }
    Ok(cubes)
}

/// Adds a named literal for each cube, which asks for the cube to match. Fails only if memory runs
/// out.
fn push_literals<'a>(literals: &mut Vec<Candidate<'a>>, cubes: &'a [Cube]) -> Result<(), AllocError>
    ensures { OnOk result ((more : List Candidate)
        × (literals.new.items ≡ literals.old.items ++ more)
        × AreWantedFor cubes.now more × AreAllNamed more) }
{
    for (i, cube) in cubes.iter().enumerate() {
        literals.push(Candidate {
            cube,
            wanted: true,
            named: true,
            tag: i,
        })?;
    }
    Ok(())
}

/// Returns the positions of the literals that are named. Fails only if memory runs out.
fn named_positions(alloc: Global, literals: &[Candidate<'_>]) -> Result<Vec<usize>, AllocError>
    ensures { IfOk result (λ positions. positions.items ≡ named_of literals.now) }
{
    literals
        .iter()
        .enumerate()
        .filter(|(_, literal)| literal.named)
        .map(|(i, _)| i)
        .collect(alloc)
}

/// Whether some pair of label sets matches one side each, and not both of them match both sides.
/// The cubes are those of the sides. Fails if the budget is used up or memory runs out.
pub(crate) fn has_inhibiting(
    alloc: Global,
    pairs: &Pairs,
    source: &Cube,
    target: &Cube,
    budget: &mut Budget,
) -> Result<bool, Unfinished>
    ensures { IfOk result (λ has. (s : Space) (rule : Rule)
        → IsCubeOf s.labels rule.source source.now → IsCubeOf s.labels rule.target target.now
        → ArePairsOf s (labels_named s.labels rule.equal) pairs.now
        → IsTrue has ↔ SomeInhibit (AreMeeting s rule.equal) rule) }
{
    let in_source = pairs.cube(alloc, Side::First, source)?;
    let in_target = pairs.cube(alloc, Side::Second, target)?;
    let first_in_target = pairs.cube(alloc, Side::First, target)?;
    let second_in_source = pairs.cube(alloc, Side::Second, source)?;
    let wanted = [&in_source, &in_target];
    let choices = pairs.choices();
    let first = choices.meeting(alloc, &wanted, &[&first_in_target], budget)?;
    if first.is_some() {
        return Ok(true);
    }
    let second = choices.meeting(alloc, &wanted, &[&second_in_source], budget)?;
    Ok(second.is_some())
}
