//! Universes that stand for every alert, made in memory.

ghost use Rattle.std.specs.Prelude.{◌≡◌, ◌≢◌, ◌<◌, ◌++◌, IfOk, IfErr, OnOk, length, codes, decimal};
ghost use Rattle.std.specs.Prelude.{[], string_bytes, IsTrue};
ghost use Rattle.am_universe.specs.declared.kind.Kind.TheVariants as kinds;
ghost use Rattle.am_universe.specs.declared.place.Place.TheVariants as places;
ghost use Rattle.am_json.specs.Reading.{refusal_of};
ghost use Rattle.am_complete.specs.LabelState.{is_settled};
ghost use Rattle.am_outcomes.specs.Configurations.{configurations_of};
ghost use Rattle.am_reports.specs.Made.{StandsForAll, AreDeclaredWhole, IsMadeRefusal};
ghost use Rattle.am_reports.specs.Made.{IsDeclaredRefusal, IsStateRefusal};

use crate::configs::{labels_asked, unproved_label};
use am_asked::universe_for;
use am_classes::Alphabet;
use am_complete::{AllowedNames, Completeness, LabelState, label_states};
use am_labels::Space;
use am_outcomes::Configs;
use am_universe::{Fault, Kind, Place, Universe};
use std::alloc::Global;

/// Makes a universe that stands for every alert over an alphabet, for the matchers of the routes
/// and of the impossible lists of a space that declares no label. It stays in memory, so its labels
/// may have any name that is not empty.
///
/// Fails with the first of: `Limit`, at `Universe`, if there is no room for the labels that are
/// asked about; `Unproved`, at the file and with the pointer of the route or list that first asks
/// about the first label whose classes could not be computed. `Memory` may come at any point.
pub(crate) fn universe_for_routes(
    alloc: Global,
    alphabet: Alphabet,
    space: &Space,
    configs: Configs<'_>,
) -> Result<Universe, Fault>
    requires { space.now.labels ≡ [] }
    ensures stands { IfOk result
        (StandsForAll alphabet space.now.impossible (configurations_of configs.entry)) }
    ensures refused { IfErr result (λ fault. fault.kind ≢ kinds.Memory
        → IsMadeRefusal alphabet space.now.impossible (configurations_of configs.entry) fault.place
        (refusal_of fault)) }
{
    let Ok(asked) = labels_asked(alloc, configs, space) else {
        return Err(Fault::memory(alloc));
    };
    let found = universe_for(
        alloc,
        alphabet,
        AllowedNames::Any,
        false,
        space,
        asked.as_slice(),
        None,
    )?;
    match found {
        Ok(universe) => Ok(universe),
        Err(label) => Err(unproved_label(alloc, configs, label.name(), &label.first())),
    }
}

/// Checks that no label of a space lacks a value, for the matchers of the routes and of the
/// impossible lists.
///
/// Fails for the first label of which this is not known: with `Incomplete`, at `Universe` and with
/// the label's pointer, if it lacks a value; with `Unproved`, at the file and with the pointer of
/// the route or list that first asks about it, if its classes could not be computed; and with
/// `Memory`.
pub(crate) fn check_declared(
    alloc: Global,
    alphabet: Alphabet,
    space: &Space,
    configs: Configs<'_>,
) -> Result<(), Fault>
    ensures whole { OnOk result
        (AreDeclaredWhole alphabet space.now (configurations_of configs.entry) space.now.labels) }
    ensures refused { IfErr result (λ fault. fault.kind ≢ kinds.Memory
        → IsDeclaredRefusal alphabet space.now (configurations_of configs.entry) fault.place
        (refusal_of fault)) }
{
    if space.universe().len() == 0 {
        return Ok(());
    }
    let Ok(asked) = labels_asked(alloc, configs, space) else {
        return Err(Fault::memory(alloc));
    };
    let Ok(states) = label_states(alloc, alphabet, space, asked.as_slice(), None) else {
        return Err(Fault::memory(alloc));
    };
    for i in 0..space.universe().len() {
        check_state(alloc, configs, i, &states[i])?;
    }
    Ok(())
}

/// Checks the state of the label at a position: it lacks no value, and that is known.
fn check_state(
    alloc: Global,
    configs: Configs<'_>,
    position: usize,
    state: &LabelState,
) -> Result<(), Fault>
    ensures settled { OnOk result (IsTrue (is_settled state.now.completeness)) }
    ensures refused { IfErr result (λ fault. fault.kind ≢ kinds.Memory
        → IsStateRefusal (configurations_of configs.entry) position (string_bytes state.now.name)
        state.now.completeness fault.place (refusal_of fault)) }
{
    match &state.completeness {
        Completeness::Complete(_) | Completeness::Unasked => Ok(()),
        Completeness::Unproved(origin) => {
            Err(unproved_label(alloc, configs, state.name.as_str(), origin))
        }
        Completeness::Lacks(_) | Completeness::Undeclarable => {
            Err(incomplete_fault(alloc, position))
        }
    }
}

/// The fault of the label at a position, which lacks a value. It is `Memory` only if memory runs
/// out here.
fn incomplete_fault(alloc: Global, position: usize) -> Fault
    ensures refusal { result.kind ≢ kinds.Memory → (result.place ≡ places.Universe)
        × (refusal_of result
        ≡ record { kind = kinds.Incomplete; pointer = codes "/labels/" ++ decimal position }) }
{
    match format!(in alloc; "/labels/{position}") {
        Ok(pointer) => Fault::within(Kind::Incomplete, Place::Universe, pointer),
        Err(_) => Fault::memory(alloc),
    }
}
