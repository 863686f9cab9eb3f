//! Why an inhibition rule is idle.
//!
//! The matchers of the two sides are literals over the pairs of label sets that agree in the labels
//! of `equal`. A search looks for a pair that meets one side each. If there is none, `leave_out`
//! leaves out each literal that is not needed. If there is, two more searches find out whether such
//! a pair exists of which not both label sets match both sides.

ghost use Rattle.std.specs.Prelude.{◌≡◌, ◌≢◌, List, [], IfOk, IfErr, IfSome, OnOk};
ghost use Rattle.am_universe.specs.declared.kind.Kind.TheVariants as kinds;
ghost use Rattle.am_universe.specs.Universe.{Label};
ghost use Rattle.am_idle.specs.Lists.{StandsForLists, IsRefusalForLists};
ghost use Rattle.am_idle.specs.RuleChoices.{AreMeeting, IsFoundOf};
ghost use Rattle.am_idle.specs.Rules.{IsIdleReason, sides_of};
ghost use Rattle.am_idle.specs.RuleLines.{HasPositionsIn};

use crate::found::found_or_used_up;
use crate::lists::universe_for_lists;
use crate::sides::{has_inhibiting, labels_named, why_contradicting};
use am_classes::Alphabet;
use am_config::Rule;
use am_first_sets::{Budget, Pairs, PossibleSets, Unfinished, UsedUp};
use am_judged_lists::Cube;
use am_labels::Space;
use am_universe::{Kind, Universe};
use std::alloc::Global;

/// Why no alert inhibits another by a rule.
#[derive(Drop)]
pub enum IdleReason {
    /// These matchers of the source side and of the target side, given by their positions,
    /// contradict each other: no two alerts with the same values for the labels in `equal` meet
    /// them. If any one of them is left out, two such alerts meet the others.
    Contradiction {
        source: Vec<usize>,
        target: Vec<usize>,
    },
    /// Two such alerts match one side each, but any two that do both match both sides.
    Both,
}

/// Finds why no alert inhibits another by a rule, or `None` if one does, for the alerts over an
/// alphabet that no impossible list of a space matches. This is not known if the budget is used up.
/// The space declares no label, before and after. Which alerts inhibit others is as in the
/// Alertmanager configuration reference 0.25, "<inhibit_rule>".
///
/// Fails with `Limit` if there is no room for the labels that the matchers of the rule and the
/// impossible lists ask about; with `Unproved` if it could not be computed which texts of a label
/// these tell apart; and with `Memory`.
pub fn idle_reason(
    alloc: Global,
    alphabet: Alphabet,
    space: &mut Space,
    rule: &Rule,
    budget: &mut Budget,
) -> Result<Result<Option<IdleReason>, UsedUp>, Kind>
    requires { space.old.labels ≡ [] }
    ensures reason { IfOk result (λ found. IfOk found (IsIdleReason alphabet space.old rule.now)) }
    ensures positions { IfOk result (λ found. IfOk found (λ reason.
        IfSome reason (HasPositionsIn rule.now))) }
    ensures made { OnOk result ((u : List Label)
        × StandsForLists alphabet space.old (sides_of rule.now) u) }
    ensures refused { IfErr result (λ kind. kind ≢ kinds.Memory
        → IsRefusalForLists alphabet space.old (sides_of rule.now) kind) }
    ensures labels { space.new.labels ≡ [] }
    ensures impossible { space.new.impossible ≡ space.old.impossible }
{
    let universe = universe_for_lists(alloc, alphabet, space, &[rule.source(), rule.target()])?;
    space.declare(universe);
    let reason = reason_in(alloc, space, rule, budget);
    space.declare(Universe::empty(alloc));
    Ok(found_or_used_up(reason)?)
}

/// Finds why no label set of a space inhibits another by a rule, if none does. Fails if the budget
/// is used up or memory runs out.
fn reason_in(
    alloc: Global,
    space: &Space,
    rule: &Rule,
    budget: &mut Budget,
) -> Result<Option<IdleReason>, Unfinished>
    ensures { IfOk result (IsFoundOf (AreMeeting space.now rule.now.equal) rule.now) }
{
    let universe = space.universe();
    let possible = PossibleSets::of(alloc, space)?;
    let shared = labels_named(alloc, universe, rule.equal())?;
    let pairs = Pairs::of(alloc, &possible, shared.as_slice())?;
    if let Some(reason) = why_contradicting(alloc, &pairs, universe, rule, budget)? {
        return Ok(Some(reason));
    }
    let source = Cube::of(alloc, rule.source(), universe)?;
    let target = Cube::of(alloc, rule.target(), universe)?;
    let inhibits = has_inhibiting(alloc, &pairs, &source, &target, budget)?;
    if inhibits {
        return Ok(None);
    }
    Ok(Some(IdleReason::Both))
}
