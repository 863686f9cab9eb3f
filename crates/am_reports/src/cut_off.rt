//! The faults of searches that were cut off.

ghost use Rattle.std.specs.Prelude.{◌≡◌, ◌≢◌, []};
ghost use Rattle.am_universe.specs.declared.kind.Kind.TheVariants as kinds;
ghost use Rattle.am_json.specs.Reading.{refusal_of};
ghost use Rattle.am_outcomes.specs.Configurations.{configurations_of};
ghost use Rattle.am_reports.specs.CutOff.{IsCutOff, routes_file};

use crate::listed_findings::fault_at;
use am_complete::Origin;
use am_config::Path;
use am_first_sets::UsedUp;
use am_outcomes::Configs;
use am_universe::{Fault, Kind, Place};
use std::alloc::Global;

/// The fault of a search that was cut off at the route at a path of the file at `place`, or below
/// it. It is `Memory` only if memory runs out here.
pub(crate) fn cut_off(alloc: Global, place: Place, path: &Path, _evidence: &UsedUp) -> Fault
    ensures refusal { result.kind ≢ kinds.Memory
        → IsCutOff place path.now result.place (refusal_of result) }
{
    fault_at(alloc, Kind::Limit, place, &Origin::Route(*path))
}

/// The fault of a search through all routes of some configurations that was cut off. It is `Memory`
/// only if memory runs out here.
pub(crate) fn routes_cut_off(alloc: Global, configs: Configs<'_>, evidence: &UsedUp) -> Fault
    ensures refusal { result.kind ≢ kinds.Memory → IsCutOff
        (routes_file (configurations_of configs.entry)) [] result.place (refusal_of result) }
{
    cut_off(alloc, routes_file(configs), &Path::root(), evidence)
}

/// The file whose routes are named: of an old and a new configuration, the new one.
fn routes_file(configs: Configs<'_>) -> Place
    ensures { result ≡ routes_file (configurations_of configs.entry) }
{
    match configs {
        Configs::Pair(_, _) => Place::New,
        Configs::One(_) | Configs::Silenced(_, _) | Configs::Ends(_) | Configs::Matched(_) => {
            Place::Config
        }
    }
}
