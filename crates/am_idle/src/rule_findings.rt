//! Which inhibition rules of a configuration are idle.

ghost use Rattle.std.specs.Prelude.{◌≡◌, ◌≢◌, [], IfOk, IfErr, OnOk};
ghost use Rattle.std.specs.List.{AllZip};
ghost use Rattle.am_universe.specs.declared.kind.Kind.TheVariants as kinds;
ghost use Rattle.am_idle.specs.Rules.{IsRuleFinding};
ghost use Rattle.am_idle.specs.RuleFindings.{IsRuleAccepted, IsRuleRefused, IsFirstRefusedRule};

use crate::found::{FindingFault, push_finding};
use crate::rules::{IdleReason, idle_reason};
use am_classes::Alphabet;
use am_config::Rule;
use am_first_sets::{Budget, UsedUp};
use am_labels::Space;
use am_universe::Kind;
use std::alloc::Global;

/// What is wrong with an inhibition rule, or worth a note.
#[derive(Drop)]
pub enum RuleFinding {
    /// No alert inhibits another by it, for this reason.
    Idle(IdleReason),
    /// It is not known which alerts match its sides.
    Unproved,
    /// It is not known whether some alert inhibits another by it, because the budget was used up.
    Undecided(UsedUp),
}

/// Finds what is wrong with each of some inhibition rules, in their order, for every alert over an
/// alphabet that no impossible list of a space matches. It is `None` for a rule by which some alert
/// inhibits another. The space declares no label, before and after.
///
/// A rule is `Unproved` if no universe can be made for its matchers and the impossible lists,
/// because it could not be computed which texts of a label these tell apart. It is `Undecided` if
/// the searches for it used up the budget.
///
/// Fails for the first rule that is refused: with `Limit` if there is no room for the labels that
/// its matchers and the impossible lists ask about; or with `Memory` for any rule.
pub fn find_rules(
    alloc: Global,
    alphabet: Alphabet,
    space: &mut Space,
    rules: &[Rule],
    budget: &mut Budget,
) -> Result<Vec<Option<RuleFinding>>, FindingFault>
    requires { space.old.labels ≡ [] }
    ensures found { IfOk result (λ found.
        AllZip (IsRuleFinding alphabet space.old) rules.now found.items) }
    ensures refused { IfErr result (λ fault. fault.kind ≢ kinds.Memory
        → IsFirstRefusedRule alphabet space.old rules.now fault.position fault.kind) }
    ensures labels { space.new.labels ≡ [] }
    ensures impossible { space.new.impossible ≡ space.old.impossible }
{
    let mut found = Vec::new(alloc);
    for i in 0..rules.len() {
        match find_rule(alloc, alphabet, space, &rules[i], budget) {
            Ok(finding) => push_finding(&mut found, i, finding)?,
            Err(kind) => return Err(FindingFault { position: i, kind }),
        }
    }
    Ok(found)
}

/// Finds what is wrong with a rule. Fails as [`find_rules`] does.
fn find_rule(
    alloc: Global,
    alphabet: Alphabet,
    space: &mut Space,
    rule: &Rule,
    budget: &mut Budget,
) -> Result<Option<RuleFinding>, Kind>
    requires { space.old.labels ≡ [] }
    ensures found { IfOk result (IsRuleFinding alphabet space.old rule.now) }
    ensures accepted { OnOk result (IsRuleAccepted alphabet space.old rule.now) }
    ensures refused { IfErr result (λ kind. kind ≢ kinds.Memory
        → IsRuleRefused alphabet space.old rule.now kind) }
    ensures labels { space.new.labels ≡ [] }
    ensures impossible { space.new.impossible ≡ space.old.impossible }
{
    budget.begin_item();
    match idle_reason(alloc, alphabet, space, rule, budget) {
        Ok(Ok(Some(reason))) => Ok(Some(RuleFinding::Idle(reason))),
        Ok(Ok(None)) => Ok(None),
        Ok(Err(evidence)) => Ok(Some(RuleFinding::Undecided(evidence))),
        Err(Kind::Unproved) => Ok(Some(RuleFinding::Unproved)),
        Err(kind) => Err(kind),
    }
}
