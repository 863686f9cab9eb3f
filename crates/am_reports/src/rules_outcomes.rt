//! The outcomes of the alerts of alerting rules.

ghost use Rattle.std.specs.Prelude.{◌≡◌, ◌≢◌, map, IfOk, IfErr, OnOk};
ghost use Rattle.std.specs.List.{AllByRecursion};
ghost use Rattle.am_universe.specs.declared.kind.Kind.TheVariants as kinds;
ghost use Rattle.am_json.specs.Reading.{refusal_of};
ghost use Rattle.am_outcomes.specs.Configurations.{configurations_of};
ghost use Rattle.am_rule_outcomes.specs.Narrowed.{HaveWholeChoices};
ghost use Rattle.am_rule_outcomes.specs.Narrowing.{rule_narrowing};
ghost use Rattle.am_rule_outcomes.specs.NarrowingView.{narrowed_in, narrowing_view};
ghost use Rattle.am_rule_outcomes.specs.NarrowingView.{rule_outcomes_view};
ghost use Rattle.am_reports.specs.RoutingLabels.{labels_of_routes};
ghost use Rattle.am_reports.specs.Made.{AreDeclaredWhole};
ghost use Rattle.am_reports.specs.RulesOutcomes.{AreFoundFor, IsRulesRefusal};

use crate::configs::labels_asked;
use crate::cut_off::routes_cut_off;
use crate::made::{check_declared, universe_for_routes};
use am_alerting_rules::AlertingRule;
use am_classes::Alphabet;
use am_first_sets::{Budget, Unfinished};
use am_labels::Space;
use am_outcomes::Configs;
use am_rule_outcomes::{Narrowing, RuleOutcomes, narrowings, outcomes_of_rules};
use am_universe::{Fault, Kind, Place, Universe};
use std::alloc::{AllocError, Global};

/// Finds the outcomes of the alerts of each rule that count. The labels that the universe file
/// declares are checked first. At the end the space has no labels.
///
/// Fails as [`check_declared`] and [`universe_for_routes`] do; then with `Limit`, at `Universe`, if
/// for some rule there are more ways through the routes than there is room for, or with the pointer
/// of the top-level route, if the search was cut off; and with `Memory`.
pub(crate) fn outcomes_of_all_rules(
    alloc: Global,
    alphabet: Alphabet,
    space: &mut Space,
    configs: Configs<'_>,
    rules: &[AlertingRule],
    budget: &mut Budget,
) -> Result<RuleOutcomes, Fault>
    ensures whole { OnOk result (AreDeclaredWhole alphabet space.old
        (configurations_of configs.entry) space.old.labels) }
    ensures found { IfOk result (λ found. AreFoundFor alphabet space.old.impossible
        (configurations_of configs.entry) rules.now (rule_outcomes_view found)) }
    ensures impossible { space.new.impossible ≡ space.old.impossible }
    ensures choices { IfOk result (λ found. AllByRecursion HaveWholeChoices (narrowed_in found)) }
    ensures refused { IfErr result (λ fault. fault.kind ≢ kinds.Memory
        → IsRulesRefusal alphabet space.old (configurations_of configs.entry) rules.now fault.place
        (refusal_of fault)) }
{
    check_declared(alloc, alphabet, space, configs)?;
    space.declare(Universe::empty(alloc));
    let universe = universe_for_routes(alloc, alphabet, space, configs)?;
    let Ok(narrowings) = narrowings_for(alloc, alphabet, &universe, space, configs, rules) else {
        return Err(Fault::memory(alloc));
    };
    space.declare(universe);
    match outcomes_of_rules(alloc, space, configs, narrowings, budget) {
        Ok(Some(found)) => Ok(found),
        Ok(None) => Err(Fault::at(alloc, Kind::Limit, Place::Universe)),
        Err(Unfinished::Memory) => Err(Fault::memory(alloc)),
        Err(Unfinished::UsedUp(evidence)) => Err(routes_cut_off(alloc, configs, &evidence)),
    }
}

/// Returns how a universe that was made for the configurations is narrowed to the alerts of each
/// rule. Fails only if memory runs out.
fn narrowings_for(
    alloc: Global,
    alphabet: Alphabet,
    universe: &Universe,
    space: &Space,
    configs: Configs<'_>,
    rules: &[AlertingRule],
) -> Result<Vec<Option<Narrowing>>, AllocError>
    ensures { IfOk result (λ found. map narrowing_view found.items
        ≡ map (rule_narrowing alphabet
        (labels_of_routes (configurations_of configs.entry) space.now.impossible) universe.now)
        rules.now) }
{
    let asked = labels_asked(alloc, configs, space)?;
    narrowings(alloc, alphabet, universe, asked.as_slice(), rules)
}
