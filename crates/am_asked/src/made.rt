//! A universe for the labels that matchers ask about.

ghost use Rattle.std.specs.Prelude.{◌≡◌, ◌≢◌, ◌<◌, ℕ, List, [], Some, IfOk, IfErr, IfSome, IfNone};
ghost use Rattle.std.specs.Prelude.{false, length, slice_get};
ghost use Rattle.std.specs.List.{AllByRecursion};
ghost use Rattle.std.specs.Option.{option_map_or};
ghost use Rattle.am_universe.specs.declared.kind.Kind.TheVariants as kinds;
ghost use Rattle.am_labels.specs.Matcher.{Matcher};
ghost use Rattle.am_json.specs.Reading.{refusal_of};
ghost use Rattle.am_complete.specs.AskedLabel.{IsAskedOf};
ghost use Rattle.am_complete.specs.Complete.{AreAmong, impossible_matchers};
ghost use Rattle.am_asked.specs.Made.{IsMadeBeside, IsFirstUnproved, NoRoomFor};
ghost use Rattle.am_asked.specs.OriginPointer.{origin_place, origin_pointer};

use crate::origin_pointer::{place_of, pointer_to};
use am_classes::Alphabet;
use am_complete::{AllowedNames, AskedLabel, Origin, universe_beside};
use am_labels::Space;
use am_list_files::Alerts;
use am_universe::{Fault, Kind, Place, Universe};
use std::alloc::Global;

/// Makes a universe for the labels that matchers ask about, beside the labels of a space, as
/// [`universe_beside`] does. If some label is unproved, and the universe may not lack values, it
/// returns the first such label instead.
///
/// Fails with `Limit`, at `Universe`, if there is no room for the labels, and with `Memory`.
pub fn universe_for<'a, 'm>(
    alloc: Global,
    alphabet: Alphabet,
    allowed: AllowedNames,
    may_lack: bool,
    space: &Space,
    asked: &'a [AskedLabel<'m>],
    alerts: Option<&Alerts>,
) -> Result<Result<Universe, &'a AskedLabel<'m>>, Fault>
    requires { (ms : List Matcher) × IsAskedOf asked.now ms
        × AreAmong (impossible_matchers space.now.impossible) ms }
    ensures made { IfOk result (λ found. IfOk found (λ universe. (ms : List Matcher)
        → IsAskedOf asked.now ms → IsMadeBeside alphabet allowed may_lack space.now asked.now
        (option_map_or (λ a. a.now) alerts.entry []) ms universe)) }
    ensures unproved { IfOk result (λ found. IfErr found (λ label. (may_lack ≡ false)
        × IsFirstUnproved alphabet allowed space.now asked.now label.now)) }
    ensures refused { IfErr result (λ fault. fault.kind ≢ kinds.Memory
        → NoRoomFor alphabet allowed space.now asked.now fault.place (refusal_of fault)) }
{
    let made = match universe_beside(alloc, alphabet, allowed, space, asked, alerts) {
        Ok(made) => made,
        Err(Kind::Limit) => return Err(Fault::at(alloc, Kind::Limit, Place::Universe)),
        Err(_) => return Err(Fault::memory(alloc)),
    };
    match first_unproved(asked, made.unproved.as_slice(), may_lack) {
        Some(label) => Ok(Err(label)),
        None => Ok(Ok(made.universe)),
    }
}

/// The first unproved label, unless the universe may lack values. `positions` are those of the
/// unproved labels.
fn first_unproved<'a, 'm>(
    asked: &'a [AskedLabel<'m>],
    positions: &[usize],
    may_lack: bool,
) -> Option<&'a AskedLabel<'m>>
    requires { AllByRecursion (λ i. i < length asked.now) positions.now }
    ensures some { IfSome result (λ label. (may_lack ≡ false)
        × ((i : ℕ) × (slice_get positions.now 0 ≡ Some i)
        × (slice_get asked.now i ≡ Some label.now))) }
    ensures none { IfNone result (may_lack ≡ false → positions.now ≡ []) }
{
    if may_lack {
        return None;
    }
    match positions.first() {
        Some(position) => Some(&asked[*position]),
        None => None,
    }
}

/// Returns the fault `Unproved` of a label that `origin` asks about first, with the pointer to
/// `origin`. Its place is the file of `origin`, or `Question`. It is `Memory` only if memory runs
/// out here.
pub fn unproved_fault(alloc: Global, origin: &Origin) -> Fault
    ensures refusal { result.kind ≢ kinds.Memory → (result.place ≡ origin_place origin.now)
        × (refusal_of result
        ≡ record { kind = kinds.Unproved; pointer = origin_pointer origin.now }) }
{
    match pointer_to(alloc, origin) {
        Ok(pointer) => Fault::within(Kind::Unproved, place_of(origin), pointer),
        Err(_) => Fault::memory(alloc),
    }
}
