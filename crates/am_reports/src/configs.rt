//! The labels that the configurations of a call ask about.

ghost use Rattle.std.specs.Prelude.{◌≡◌, ◌≢◌, ◌++◌, fold, IfOk, OnOk};
ghost use Rattle.std.specs.List.{list_any};
ghost use Rattle.am_universe.specs.Text.{same_text};
ghost use Rattle.am_universe.specs.declared.kind.Kind.TheVariants as kinds;
ghost use Rattle.am_json.specs.Reading.{refusal_of};
ghost use Rattle.am_config.specs.ConfigView.{config_view};
ghost use Rattle.am_complete.specs.AskedLabel.{IsAskedOf};
ghost use Rattle.am_complete.specs.AskedLabel.{with_asked};
ghost use Rattle.am_complete.specs.Complete.{impossible_matchers};
ghost use Rattle.am_reports.specs.RoutingLabels.{routing_matchers, labels_of_routes, asks_of};
ghost use Rattle.am_reports.specs.RoutingLabels.{placed_in_active};
ghost use Rattle.am_rule_outcomes.specs.StandsForOutcomes.{outcome_matchers};
ghost use Rattle.am_outcomes.specs.Configurations.{Silenced, configurations_of, silences_view};
ghost use Rattle.am_reports.specs.Made.{IsUnprovedAt};

use am_asked::{
    asked_by_both, asked_by_lists, asked_by_routes, unproved_fault, visit_lists, visit_matchers,
    visit_routes,
};
use am_complete::{AskedLabel, Gathering, Origin};
use am_config::Config;
use am_labels::{Matchers, Space};
use am_outcomes::{ActiveSilence, Configs};
use am_universe::{Fault, Place};
use std::alloc::{AllocError, Global};

/// The labels that the routes of the configurations, or the list of matchers, ask about, and then
/// those that the impossible lists of a space ask about. Fails only if memory runs out.
pub(crate) fn labels_asked<'a>(
    alloc: Global,
    configs: Configs<'a>,
    space: &'a Space,
) -> Result<Vec<AskedLabel<'a>>, AllocError>
    ensures asked { IfOk result (λ labels.
        IsAskedOf labels.items (routing_matchers space.now (configurations_of configs.entry))) }
    ensures labels { IfOk result (λ labels.
        labels.items ≡ labels_of_routes (configurations_of configs.entry) space.now.impossible) }
{
    match configs {
        Configs::One(config) | Configs::Ends(config) => {
            asked_by_routes(alloc, config, &[], space.impossible())
        }
        Configs::Pair(old, new) => asked_by_both(alloc, old, new, space.impossible()),
        Configs::Silenced(config, silences) => {
            asked_with_silences(alloc, config, silences, space.impossible())
        }
        Configs::Matched(matchers) => asked_by_lists(alloc, &[matchers], space.impossible()),
    }
}

/// The labels that routes ask about, then those that active silences ask about, and then those that
/// impossible lists ask about. Fails only if memory runs out.
fn asked_with_silences<'a>(
    alloc: Global,
    config: &'a Config,
    silences: &'a [ActiveSilence<'a>],
    impossible: &'a [Matchers],
) -> Result<Vec<AskedLabel<'a>>, AllocError>
    ensures asked { IfOk result (λ labels. IsAskedOf labels.items
        (outcome_matchers (Silenced (config_view config.now) (silences_view silences.now))
        ++ impossible_matchers impossible.now)) }
    ensures labels { IfOk result (λ labels. labels.items ≡ labels_of_routes
        (Silenced (config_view config.now) (silences_view silences.now)) impossible.now) }
{
    let mut gathering = Gathering::empty(alloc);
    visit_routes(alloc, &mut gathering, config)?;
    add_silences(&mut gathering, silences)?;
    visit_lists(&mut gathering, impossible)?;
    Ok(gathering.into_labels())
}

/// Adds the matchers of active silences.
fn add_silences<'a>(
    gathering: &mut Gathering<'a>,
    silences: &[ActiveSilence<'a>],
) -> Result<(), AllocError>
    ensures { OnOk result (gathering.new
        ≡ fold with_asked gathering.old (placed_in_active (silences_view silences.now))) }
{
    for silence in silences {
        visit_matchers(
            gathering,
            &Origin::Silence(silence.position),
            silence.matchers,
        )?;
    }
    Ok(())
}

/// The fault of an unproved label that `origin` asks about first. It is `Memory` only if memory
/// runs out here.
pub(crate) fn unproved_label(
    alloc: Global,
    configs: Configs<'_>,
    name: &str,
    origin: &Origin,
) -> Fault
    ensures refusal { result.kind ≢ kinds.Memory
        → IsUnprovedAt (configurations_of configs.entry) name.now origin.now result.place
        (refusal_of result) }
{
    let fault = unproved_fault(alloc, origin);
    let (Configs::Pair(old, _), Origin::Route(_)) = (configs, origin) else {
        return fault;
    };
    match asks_of(alloc, old, name) {
        Ok(true) => Fault::within(fault.kind, Place::Old, fault.pointer),
        Ok(false) => Fault::within(fault.kind, Place::New, fault.pointer),
        Err(_) => Fault::memory(alloc),
    }
}

/// Whether the routes of a configuration ask about the label of this name. Fails only if memory
/// runs out.
fn asks_of(alloc: Global, config: &Config, name: &str) -> Result<bool, AllocError>
    ensures { IfOk result (λ asks. asks ≡ asks_of (config_view config.now) name.now) }
{
    let asked = asked_by_routes(alloc, config, &[], &[])?;
    Ok(has_name(asked.as_slice(), name))
}

fn has_name(labels: &[AskedLabel<'_>], name: &str) -> bool
    ensures { result ≡ list_any (λ l. same_text l.name name.now) labels.now }
{
    labels.iter().any(|label| label.name() == name)
}
