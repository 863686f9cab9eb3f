//! Label sets, matchers, texts and the names of receivers, as lines show them.
#![tactic(auto, using(crate::proofs::PieceSteps::text_steps))]

ghost use Rattle.std.specs.Prelude.{◌≡◌, map, string_bytes, IfOk, OnOk};
ghost use Rattle.std.specs.List.{list_any};
ghost use Rattle.am_universe.specs.Universe.{sizes};
ghost use Rattle.am_universe.specs.Choice.{IsWhole};
ghost use Rattle.am_universe.specs.LabelSet.{label_pairs};
ghost use Rattle.am_universe.specs.Text.{same_text};
ghost use Rattle.am_config.specs.ConfigView.{config_view};
ghost use Rattle.am_report_texts.specs.EachOnce.{with_text};
ghost use Rattle.am_report_texts.specs.Line as spec;
ghost use Rattle.am_report_texts.specs.LineView.{shown_view};
ghost use Rattle.am_report_texts.specs.ReceiverNames.{receiver_name, receiver_names};

use crate::lines::Shown;
use am_config::Config;
use am_labels::{Matcher, Matchers};
use am_universe::{Choice, Universe};
use std::alloc::{AllocError, Global};

/// Returns the label set of a whole choice, with its labels in declared order. Fails only if memory
/// runs out.
pub fn label_set<'a>(
    alloc: Global,
    universe: &'a Universe,
    choice: &Choice,
) -> Result<Shown<'a>, AllocError>
    requires { IsWhole (sizes universe.now) choice.now }
    ensures labels { IfOk result (λ shown.
        shown_view shown ≡ spec.Labels (label_pairs universe.now choice.now)) }
{
    let mut labels = Vec::new(alloc);
    for i in 0..universe.len() {
        if let Some(value) = universe.value(i, usize::from(choice.get(i))) {
            labels.push((universe.name(i), value))?;
        }
    }
    Ok(Shown::Labels(labels))
}

/// Returns the matchers of a list. Fails only if memory runs out.
pub fn all_matchers<'a>(
    alloc: Global,
    matchers: &'a Matchers,
) -> Result<Vec<&'a Matcher>, AllocError>
    ensures matchers { IfOk result (λ found. map (λ m. m.now) found.items ≡ matchers.now) }
{
    let mut found = Vec::with_capacity(alloc, matchers.len())?;
    for i in 0..matchers.len() {
        found.push(matchers.get(i))?;
    }
    Ok(found)
}

/// Returns texts as they are. Fails only if memory runs out.
pub fn texts_of(alloc: Global, texts: &[String]) -> Result<Vec<&str>, AllocError>
    ensures texts { IfOk result (λ found.
        map (λ t. t.now) found.items ≡ map string_bytes texts.now) }
{
    let mut found = Vec::with_capacity(alloc, texts.len())?;
    for text in texts {
        found.push(text.as_str())?;
    }
    Ok(found)
}

/// Returns the names of receivers. Fails only if memory runs out.
pub fn receiver_names<'a>(
    alloc: Global,
    config: &'a Config,
    receivers: &[usize],
) -> Result<Vec<&'a str>, AllocError>
    ensures names { IfOk result (λ names. map (λ n. n.now) names.items
        ≡ receiver_names (config_view config.now) receivers.now) }
{
    let mut names = Vec::with_capacity(alloc, receivers.len())?;
    for receiver in receivers {
        names.push(receiver_name(config, *receiver))?;
    }
    Ok(names)
}

/// The name of the receiver at a position, or the empty text if none is declared there.
pub fn receiver_name(config: &Config, receiver: usize) -> &str
    ensures name { result.now ≡ receiver_name (config_view config.now) receiver }
{
    if receiver < config.receivers() {
        config.receiver_name(receiver)
    } else {
        ""
    }
}

/// Adds a text, unless it is there. Fails only if memory runs out.
pub fn push_new<'a>(text: &'a str, texts: &mut Vec<&'a str>) -> Result<(), AllocError>
    ensures texts { OnOk result (map (λ t. t.now) texts.new.items
        ≡ with_text (map (λ t. t.now) texts.old.items) text.now) }
{
    if !is_one_of(text, texts.as_slice()) {
        texts.push(text)?;
    }
    Ok(())
}

fn is_one_of(text: &str, texts: &[&str]) -> bool
    ensures { result ≡ list_any (same_text text.now) (map (λ t. t.now) texts.now) }
{
    texts.iter().any(|other| text == *other)
}
