ghost use Rattle.std.specs.Prelude.{◌≡◌, None, map, option_map, option_copied, IfOk, IfErr};
ghost use Rattle.am_universe.specs.declared.place.Place.TheVariants as places;
ghost use Rattle.am_labels.specs.ParsedLabelSet.{WordsSpellSet};
ghost use Rattle.am_json.specs.Reading.{IsRefusalAt};
ghost use Rattle.am_config.specs.ConfigView.{config_view};
ghost use Rattle.am_config.specs.ConfigFile.{FileSaysConfig};
ghost use Rattle.am_files.specs.AcceptedWorld.{AcceptsFiles, AcceptsWorld, file_stages};
ghost use Rattle.am_files.specs.AcceptedWorld.{timeless_stages, world_stages};
ghost use Rattle.am_files.specs.Faults.{IsFirstFault, SilencesRefusedFor, AlertsRefusedFor};
ghost use Rattle.am_files.specs.Faults.{InstantRefusedFor, SetStageRefusedFor, UniverseRefusedFor};
ghost use Rattle.am_files.specs.Files.{SaysSilencesIfAny, config_of, SaysAlertsIfAny};
ghost use Rattle.am_files.specs.Files.{SaysUniverseIfAny};
ghost use Rattle.am_files.specs.AskedInstant.{asked_instant, instant_fault};

use crate::files::Files;
use am_config::{Config, read_config};
use am_eval::World;
use am_labels::{Space, parse_set_words};
use am_list_files::{
    Alerts, Silences, Timestamp, parse_instant, read_alerts, read_silences, read_universe,
};
use am_universe::{Fault, Kind, LabelSet, Place, Universe};
use std::alloc::Global;

/// Reads a world from its files.
///
/// It reads the configuration, the silences, the alerts and the instant, in this order, and then
/// makes the pairs of rules and alerts. Fails with the first fault, at `Config`, `Silences`,
/// `Alerts` or `Instant`, and at `Alerts` for too many pairs. At `Instant` it is `BadTime` if the
/// text is not an instant, and `NeedAt` if there is a file of silences and no text. If memory runs
/// out, it is `Memory`.
pub fn read_world(alloc: Global, files: &Files<'_>) -> Result<World, Fault>
    ensures accepts { IfOk result (AcceptsWorld files.now) }
    ensures first { IfErr result (IsFirstFault (world_stages files.now)) }
{
    let read = read_files(alloc, files)?;
    let instant = read_instant_for(alloc, files)?;
    World::new(alloc, read.config, read.silences, read.alerts, instant)
}

/// Reads a world as [`read_world`] does, but ignores the instant. So no silence is active.
pub fn read_timeless_world(alloc: Global, files: &Files<'_>) -> Result<World, Fault>
    ensures accepts { IfOk result (AcceptsFiles files.now) }
    ensures first { IfErr result (IsFirstFault (timeless_stages files.now)) }
{
    let read = read_files(alloc, files)?;
    World::new(alloc, read.config, read.silences, read.alerts, None)
}

/// Reads the space of a universe file. Without a file the space has no label, and nothing is
/// impossible in it. Fails as `read_universe` does.
pub fn read_universe_if_any(alloc: Global, file: Option<&[u8]>) -> Result<Space, Fault>
    ensures says { IfOk result (SaysUniverseIfAny (option_copied file.entry)) }
    ensures first { IfErr result (IsRefusalAt places.Universe
        (UniverseRefusedFor (option_copied file.entry))) }
{
    match file {
        Some(bytes) => read_universe(alloc, bytes),
        None => Ok(Space::of(alloc, Universe::empty(alloc))),
    }
}

/// What the files of a world say.
#[derive(Drop)]
struct ReadFiles {
    config: Config,
    silences: Silences,
    alerts: Alerts,
}

/// Reads the files: the configuration file, the file of silences, and then the file of alerts.
fn read_files(alloc: Global, files: &Files<'_>) -> Result<ReadFiles, Fault>
    ensures config { IfOk result (λ read.
        FileSaysConfig (config_of files.now.config) (config_view read.config)) }
    ensures silences { IfOk result (λ read. SaysSilencesIfAny files.now.silences read.silences) }
    ensures alerts { IfOk result (λ read. SaysAlertsIfAny files.now.alerts read.alerts) }
    ensures first { IfErr result (IsFirstFault (file_stages files.now)) }
{
    let config = read_config(alloc, files.config())?;
    let silences = read_silences_if_any(alloc, files.silences)?;
    let alerts = read_alerts_if_any(alloc, files.alerts)?;
    Ok(ReadFiles {
        config,
        silences,
        alerts,
    })
}

/// Reads the silences of a file. Without a file there are none. A fault is at `Silences`, as in
/// `read_silences`, or is `Memory`.
fn read_silences_if_any(alloc: Global, file: Option<&[u8]>) -> Result<Silences, Fault>
    ensures says { IfOk result (SaysSilencesIfAny (option_copied file.entry)) }
    ensures first { IfErr result (IsRefusalAt places.Silences
        (SilencesRefusedFor (option_copied file.entry))) }
{
    match file {
        Some(bytes) => read_silences(alloc, bytes),
        None => Ok(Silences::none(alloc)),
    }
}

/// Reads the alerts of a file. Without a file there are none. A fault is at `Alerts`, as in
/// `read_alerts`, or is `Memory`.
fn read_alerts_if_any(alloc: Global, file: Option<&[u8]>) -> Result<Alerts, Fault>
    ensures says { IfOk result (SaysAlertsIfAny (option_copied file.entry)) }
    ensures first { IfErr result (IsRefusalAt places.Alerts
        (AlertsRefusedFor (option_copied file.entry))) }
{
    match file {
        Some(bytes) => read_alerts(alloc, bytes),
        None => Ok(Alerts::none(alloc)),
    }
}

/// Reads the instant that is asked about, if there is one. Fails with `BadTime` if the text is not
/// an instant, and with `NeedAt` if there is a file of silences and no text.
fn read_instant_for(alloc: Global, files: &Files<'_>) -> Result<Option<Timestamp>, Fault>
    ensures asked { IfOk result (λ instant.
        option_map (λ t. t.nanosecond) instant ≡ asked_instant files.now.at) }
    ensures accepted { IfOk result (λ _. instant_fault files.now.silences files.now.at ≡ None) }
    ensures refused { IfErr result (IsRefusalAt places.Instant
        (InstantRefusedFor files.now.silences files.now.at)) }
{
    match files.at {
        Some(text) => match parse_instant(alloc, text) {
            Ok(instant) => Ok(Some(instant)),
            Err(kind) => Err(Fault::at(alloc, kind, Place::Instant)),
        },
        None => {
            if files.silences.is_some() {
                return Err(Fault::at(alloc, Kind::NeedAt, Place::Instant));
            }
            Ok(None)
        }
    }
}

/// Reads a label set from words, as `parse_set_words` does, with its faults at the place `Set`.
pub fn read_set(alloc: Global, words: &[&str]) -> Result<LabelSet, Fault>
    ensures spelled { IfOk result (WordsSpellSet (map (λ word. word.now) words.now)) }
    ensures refused { IfErr result (IsRefusalAt places.Set
        (SetStageRefusedFor (map (λ word. word.now) words.now))) }
{
    match parse_set_words(alloc, words) {
        Ok(set) => Ok(set),
        Err(kind) => Err(Fault::at(alloc, kind, Place::Set)),
    }
}
