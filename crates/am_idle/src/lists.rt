//! A universe that stands for every alert, for some lists of matchers.
//!
//! A rule and a silence ask about a few labels. So each gets a universe of its own, made of its
//! matchers and of the impossible lists alone. One universe for all might have no room: the routes
//! may ask about 64 labels, and a rule for others.

ghost use Rattle.std.specs.Prelude.{◌≡◌, ◌≢◌, [], map, IfOk, IfErr};
ghost use Rattle.am_universe.specs.declared.kind.Kind.TheVariants as kinds;
ghost use Rattle.am_idle.specs.Lists.{StandsForLists, IsRefusalForLists};

use am_asked::{asked_by_lists, universe_for};
use am_classes::Alphabet;
use am_complete::AllowedNames;
use am_labels::{Matchers, Space};
use am_universe::{Kind, Universe};
use std::alloc::Global;

/// Makes a universe that stands for every alert over an alphabet, for some lists of matchers and
/// the impossible lists of a space that declares no label.
///
/// The universe stays in memory, so its labels may have any name that is not empty.
///
/// Fails with `Limit` if there is no room for the labels that the lists ask about; with `Unproved`
/// if the classes of one could not be computed; and with `Memory`.
pub fn universe_for_lists(
    alloc: Global,
    alphabet: Alphabet,
    space: &Space,
    lists: &[&Matchers],
) -> Result<Universe, Kind>
    requires { space.now.labels ≡ [] }
    ensures stands { IfOk result
        (StandsForLists alphabet space.now (map (λ list. list.now) lists.now)) }
    ensures refused { IfErr result (λ kind. kind ≢ kinds.Memory
        → IsRefusalForLists alphabet space.now (map (λ list. list.now) lists.now) kind) }
{
    let asked = asked_by_lists(alloc, lists, space.impossible())?;
    match universe_for(
        alloc,
        alphabet,
        AllowedNames::Any,
        false,
        space,
        asked.as_slice(),
        None,
    ) {
        Ok(Ok(universe)) => Ok(universe),
        Ok(Err(_)) => Err(Kind::Unproved),
        Err(fault) => Err(fault.kind),
    }
}
