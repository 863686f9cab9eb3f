//! The receivers that a command is asked about, by their names.

ghost use Rattle.std.specs.Prelude.{◌≡◌, ◌≢◌, List, map, IfOk, IfErr};
ghost use Rattle.std.specs.List.{AllZip};
ghost use Rattle.am_universe.specs.declared.kind.Kind.TheVariants as kinds;
ghost use Rattle.am_universe.specs.declared.place.Place.TheVariants as places;
ghost use Rattle.am_json.specs.Reading.{refusal_of};
ghost use Rattle.am_config.specs.ConfigView.{config_view};
ghost use Rattle.am_reports.specs.AskedReceivers.{ArePositions, IsUnknownReceiver};

use am_config::Config;
use am_universe::{Fault, Kind, Place};
use std::alloc::Global;

/// Returns the positions of the receivers that have these names, in their order.
///
/// Fails with `UnknownReceiver`, at `Question`, if the configuration does not declare one of them,
/// and with `Memory`.
pub(crate) fn receiver_positions(
    alloc: Global,
    config: &Config,
    names: &[&str],
) -> Result<Vec<usize>, Fault>
    ensures positions { IfOk result (λ positions.
        ArePositions (config_view config.now) (map (λ name. name.now) names.now) positions.items) }
    ensures refused { IfErr result (λ fault. fault.kind ≢ kinds.Memory
        → (fault.place ≡ places.Question) × IsUnknownReceiver (config_view config.now)
        (map (λ name. name.now) names.now) (refusal_of fault)) }
{
    let Ok(mut positions) = Vec::with_capacity(alloc, names.len()) else {
        return Err(Fault::memory(alloc));
    };
    for name in names {
        let Some(position) = config.receiver_position(name) else {
            return Err(Fault::at(alloc, Kind::UnknownReceiver, Place::Question));
        };
        if positions.push(position).is_err() {
            return Err(Fault::memory(alloc));
        }
    }
    Ok(positions)
}
