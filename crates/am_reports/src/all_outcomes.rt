//! The outcomes of every alert.
//!
//! The space is made in memory, over all texts or over those of printable ASCII. Its universe is
//! complete for the routes of all configurations of the call together, and for the impossible
//! lists. So each alert has the outcome of a choice, under both configurations at once, and each
//! choice is an alert. The labels are in the order in which the files first ask about them, the
//! old configuration before the new one.

ghost use Rattle.std.specs.Prelude.{◌≡◌, ◌≢◌, ◌⊎◌, [], IfOk, IfErr, OnOk};
ghost use Rattle.am_universe.specs.declared.kind.Kind.TheVariants as kinds;
ghost use Rattle.am_universe.specs.declared.place.Place.TheVariants as places;
ghost use Rattle.am_json.specs.Pointer.{refusal_here};
ghost use Rattle.am_json.specs.Reading.{refusal_of};
ghost use Rattle.am_outcomes.specs.Configurations.{configurations_of, tried_of};
ghost use Rattle.am_outcomes.specs.Outcomes.{outcomes_of};
ghost use Rattle.am_outcomes.specs.Ways.{HaveManyWays};
ghost use Rattle.am_reports.specs.Made.{AreDeclaredWhole};
ghost use Rattle.am_reports.specs.AllOutcomes.{AreAllOutcomes};
ghost use Rattle.am_reports.specs.CutOff.{IsCutOff, routes_file};
ghost use Rattle.am_reports.specs.LaterStages.{IsOutcomesRefusal};

use crate::cut_off::routes_cut_off;
use crate::made::{check_declared, universe_for_routes};
use am_classes::Alphabet;
use am_first_sets::{Budget, Unfinished};
use am_labels::Space;
use am_outcomes::{Configs, Outcomes, find_outcomes};
use am_universe::{Fault, Kind, Place, Universe};
use std::alloc::Global;

/// Finds the outcomes of every alert that counts, under each of the configurations. The labels that
/// the universe file declares are checked first. Then the space gets the universe whose choices
/// have the outcomes.
///
/// Fails as [`check_declared`] and [`universe_for_routes`] do; then with `Limit`, at `Universe`, if
/// there are more ways through the routes than there is room for, or with the pointer of the
/// top-level route, if the search was cut off; and with `Memory`.
pub(crate) fn all_outcomes(
    alloc: Global,
    alphabet: Alphabet,
    space: &mut Space,
    configs: Configs<'_>,
) -> Result<Outcomes, Fault>
    ensures whole { OnOk result (AreDeclaredWhole alphabet space.old
        (configurations_of configs.entry) space.old.labels) }
    ensures are { IfOk result
        (AreAllOutcomes alphabet space.old (configurations_of configs.entry) space.new.labels) }
    ensures refused { IfErr result (λ fault. fault.kind ≢ kinds.Memory
        → IsOutcomesRefusal alphabet space.old (configurations_of configs.entry) fault.place
        (refusal_of fault)) }
{
    check_declared(alloc, alphabet, space, configs)?;
    space.declare(Universe::empty(alloc));
    let universe = universe_for_routes(alloc, alphabet, space, configs)?;
    space.declare(universe);
    outcomes_of_choices(alloc, space, configs)
}

/// Finds the outcomes of the choices of a space.
///
/// Fails with `Limit`, at `Universe`, if there are more ways through the routes than there is room
/// for, or with the pointer of the top-level route, if the search was cut off; and with `Memory`.
fn outcomes_of_choices(
    alloc: Global,
    space: &Space,
    configs: Configs<'_>,
) -> Result<Outcomes, Fault>
    ensures outcomes { IfOk result (λ outcomes.
        outcomes ≡ outcomes_of space.now (configurations_of configs.entry)) }
    ensures refused { IfErr result (λ fault. fault.kind ≢ kinds.Memory
        → ((fault.place ≡ places.Universe)
        × HaveManyWays space.now (tried_of (configurations_of configs.entry))
        × (refusal_of fault ≡ refusal_here kinds.Limit))
        ⊎ IsCutOff (routes_file (configurations_of configs.entry)) [] fault.place
        (refusal_of fault)) }
{
    match find_outcomes(alloc, space, configs, &mut Budget::limited()) {
        Ok(Some(found)) => Ok(found),
        Ok(None) => Err(Fault::at(alloc, Kind::Limit, Place::Universe)),
        Err(Unfinished::Memory) => Err(Fault::memory(alloc)),
        Err(Unfinished::UsedUp(evidence)) => Err(routes_cut_off(alloc, configs, &evidence)),
    }
}
