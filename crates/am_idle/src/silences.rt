//! Which silences do nothing, or hide everything.

ghost use Rattle.std.specs.Prelude.{◌≡◌, ◌≢◌, [], slice_get, Some, IfOk};
ghost use Rattle.std.specs.Prelude.{IfErr, IsFalse, OnOk, option_map};
ghost use Rattle.std.specs.List.{AllZip, list_any};
ghost use Rattle.am_universe.specs.declared.kind.Kind.TheVariants as kinds;
ghost use Rattle.am_labels.specs.Matcher.{all_hold};
ghost use Rattle.am_labels.specs.Space.{Space};
ghost use Rattle.am_eval.specs.Silencing.{is_over};
ghost use Rattle.am_classes.specs.declared.alphabet.Alphabet.{Alphabet};
ghost use Rattle.am_every_alert.specs.EveryAlert.{IsAlertOf};
ghost use Rattle.am_idle.specs.Extent.{MatchesOne};
ghost use Rattle.am_idle.specs.Silences.{IsSilenceFinding, IsAccepted, IsSilenceRefused};
ghost use Rattle.am_idle.specs.Silences.{IsFirstRefused, is_unused};
ghost use Rattle.am_idle.specs.KnownExtents.{HasExtent, IsMade, AreKnown, IsFound, IsRefused};

use crate::extent::matches_some;
use crate::found::{FindingFault, push_finding};
use crate::known_extents::{Extent, KnownExtents, text_of};
use crate::named_alerts::matches_all_named;
use am_classes::Alphabet;
use am_eval::World;
use am_first_sets::{Budget, UsedUp};
use am_labels::{Matchers, Space};
use am_list_files::{Alerts, Silence};
use am_universe::Kind;
use std::alloc::{AllocError, Global};

/// What is wrong with a silence that is not over, or worth a note.
#[derive(Drop)]
pub enum SilenceFinding {
    /// It hides no alert, at any instant.
    Idle,
    /// It hides every ordinary alert that has an alertname, while it is active.
    All,
    /// It is active and hides none of the alerts that fire, though it hides others.
    Unused,
    /// It is not known which alerts it hides.
    Unproved,
    /// Likewise, because the budget was used up.
    Undecided(UsedUp),
}

/// Finds what is wrong with each silence of a world, in their order, for every alert over an
/// alphabet that no impossible list of a space matches. It is `None` for a silence that is over at
/// the world's instant, or with which nothing is wrong. `Unused` is found only with `alerts`, which
/// are those that fire. The space declares no label, before and after.
///
/// A silence is `Unproved` if no universe can be made for its matchers and the impossible lists,
/// because it could not be computed which texts of a label these tell apart. It also is if some
/// alert matches it, but no universe can be made for the ordinary alerts that have an alertname. It
/// is `Undecided` if the searches for it used up the budget.
///
/// Fails for the first silence that is refused: with `Limit` if there is no room for the labels
/// that its matchers and the impossible lists ask about; or with `Memory` for any silence. A
/// silence that is over is never refused.
pub fn find_silences(
    alloc: Global,
    alphabet: Alphabet,
    space: &mut Space,
    world: &World,
    alerts: Option<&Alerts>,
    budget: &mut Budget,
) -> Result<Vec<Option<SilenceFinding>>, FindingFault>
    requires { space.old.labels ≡ [] }
    ensures found { IfOk result (λ found. AllZip
        (IsSilenceFinding alphabet space.old world.now (option_map (λ a. a.now) alerts.entry))
        world.now.silences found.items) }
    ensures refused { IfErr result (λ fault. fault.kind ≢ kinds.Memory
        → IsFirstRefused alphabet space.old world.now fault.position fault.kind) }
    ensures labels { space.new.labels ≡ [] }
    ensures impossible { space.new.impossible ≡ space.old.impossible }
{
    let mut known = KnownExtents::none(alloc);
    let mut found = Vec::new(alloc);
    for i in 0..world.silences().len() {
        let silence = world.silences().get(i);
        let finding = find_silence(
            alloc, alphabet, space, world, i, silence, alerts, &mut known, budget,
        );
        match finding {
            Ok(finding) => push_finding(&mut found, i, finding)?,
            Err(kind) => return Err(FindingFault { position: i, kind }),
        }
    }
    Ok(found)
}

/// Finds what is wrong with the silence at a position. Fails as [`find_silences`] does.
fn find_silence<'w>(
    alloc: Global,
    alphabet: Alphabet,
    space: &mut Space,
    world: &World,
    position: usize,
    silence: &'w Silence,
    alerts: Option<&Alerts>,
    known: &mut KnownExtents<'w>,
    budget: &mut Budget,
) -> Result<Option<SilenceFinding>, Kind>
    requires none { space.old.labels ≡ [] }
    requires silence { slice_get world.now.silences position ≡ Some silence.now }
    requires known { AreKnown alphabet space.old known.old }
    ensures found { IfOk result (IsSilenceFinding alphabet space.old world.now
        (option_map (λ a. a.now) alerts.entry) silence.now) }
    ensures accepted { OnOk result (IsAccepted alphabet space.old world.now silence.now) }
    ensures refused { IfErr result (λ kind. kind ≢ kinds.Memory
        → IsSilenceRefused alphabet space.old world.now silence.now kind) }
    ensures known { OnOk result (AreKnown alphabet space.old known.new) }
    ensures labels { space.new.labels ≡ [] }
    ensures impossible { space.new.impossible ≡ space.old.impossible }
{
    if world.over(position) {
        return Ok(None);
    }
    match known_or_found(alloc, alphabet, space, silence.matchers(), known, budget) {
        Ok(Ok(extent)) => Ok(finding_of(alloc, world, position, silence, alerts, extent)?),
        Ok(Err(finding)) => Ok(Some(finding)),
        Err(kind) => Err(kind),
    }
}

/// Returns which alerts a list of matchers matches, as it is known. Otherwise finds it. If that is
/// not known then, returns what is said of a silence instead. Fails as [`find_silences`] does.
fn known_or_found<'w>(
    alloc: Global,
    alphabet: Alphabet,
    space: &mut Space,
    matchers: &'w Matchers,
    known: &mut KnownExtents<'w>,
    budget: &mut Budget,
) -> Result<Result<Extent, SilenceFinding>, Kind>
    requires none { space.old.labels ≡ [] }
    requires known { AreKnown alphabet space.old known.old }
    ensures found { IfOk result (IsFound alphabet space.old matchers.now) }
    ensures refused { IfErr result (λ kind. kind ≢ kinds.Memory
        → IsRefused alphabet space.old matchers.now kind) }
    ensures known { OnOk result (AreKnown alphabet space.old known.new) }
    ensures labels { space.new.labels ≡ [] }
    ensures impossible { space.new.impossible ≡ space.old.impossible }
{
    let text = text_of(alloc, matchers)?;
    if let Some(extent) = known.extent(text.as_str(), matchers) {
        return Ok(Ok(extent));
    }
    budget.begin_item();
    let found = extent_of(alloc, alphabet, space, matchers, budget)?;
    if let Ok(extent) = &found {
        known.add(text, matchers, *extent)?;
    }
    Ok(found)
}

/// Finds which alerts a list of matchers matches. If that is not known, returns what is said of a
/// silence instead. Fails as [`find_silences`] does.
fn extent_of(
    alloc: Global,
    alphabet: Alphabet,
    space: &mut Space,
    matchers: &Matchers,
    budget: &mut Budget,
) -> Result<Result<Extent, SilenceFinding>, Kind>
    requires { space.old.labels ≡ [] }
    ensures found { IfOk result (IsFound alphabet space.old matchers.now) }
    ensures refused { IfErr result (λ kind. kind ≢ kinds.Memory
        → IsRefused alphabet space.old matchers.now kind) }
    ensures labels { space.new.labels ≡ [] }
    ensures impossible { space.new.impossible ≡ space.old.impossible }
{
    match matches_some(alloc, alphabet, space, matchers, budget) {
        Ok(Ok(true)) => Ok(extent_of_matching(alloc, space, matchers, budget)?),
        Ok(Ok(false)) => Ok(Ok(Extent::Nothing)),
        Ok(Err(evidence)) => Ok(Err(SilenceFinding::Undecided(evidence))),
        Err(Kind::Unproved) => Ok(Err(SilenceFinding::Unproved)),
        Err(kind) => Err(kind),
    }
}

/// Finds which alerts a list of matchers matches that matches some alert. Fails only if memory runs
/// out.
fn extent_of_matching(
    alloc: Global,
    space: &mut Space,
    matchers: &Matchers,
    budget: &mut Budget,
) -> Result<Result<Extent, SilenceFinding>, AllocError>
    requires { space.old.labels ≡ [] }
    ensures found { IfOk result (λ found. (a : Alphabet)
        → IsMade a space.old matchers.now → MatchesOne (IsAlertOf a space.old) matchers.now
        → IsFound a space.old matchers.now found) }
    ensures labels { space.new.labels ≡ [] }
    ensures impossible { space.new.impossible ≡ space.old.impossible }
{
    match matches_all_named(alloc, space, matchers, budget) {
        Ok(Ok(true)) => Ok(Ok(Extent::All)),
        Ok(Ok(false)) => Ok(Ok(Extent::Part)),
        Ok(Err(evidence)) => Ok(Err(SilenceFinding::Undecided(evidence))),
        Err(Kind::Memory) => Err(AllocError),
        Err(_) => Ok(Err(SilenceFinding::Unproved)),
    }
}

/// Returns what is wrong with the silence at a position, which is not over, by which alerts its
/// matchers match. Fails only if memory runs out.
fn finding_of(
    alloc: Global,
    world: &World,
    position: usize,
    silence: &Silence,
    alerts: Option<&Alerts>,
    extent: Extent,
) -> Result<Option<SilenceFinding>, AllocError>
    requires { slice_get world.now.silences position ≡ Some silence.now }
    ensures { IfOk result (λ finding. (a : Alphabet) (s : Space)
        → IsFalse (is_over world.now.instant silence.now)
        → HasExtent a s silence.now.matchers extent
        → IsSilenceFinding a s world.now (option_map (λ a. a.now) alerts.entry)
        silence.now finding) }
{
    match extent {
        Extent::Nothing => Ok(Some(SilenceFinding::Idle)),
        Extent::All => Ok(Some(SilenceFinding::All)),
        Extent::Part => {
            if is_unused(alloc, world, position, silence, alerts)? {
                return Ok(Some(SilenceFinding::Unused));
            }
            Ok(None)
        }
    }
}

/// Whether the silence at a position is active, and hides none of the alerts that fire. It is false
/// if these are not known. Fails only if memory runs out.
fn is_unused(
    alloc: Global,
    world: &World,
    position: usize,
    silence: &Silence,
    alerts: Option<&Alerts>,
) -> Result<bool, AllocError>
    requires { slice_get world.now.silences position ≡ Some silence.now }
    ensures { IfOk result (λ unused. unused
        ≡ is_unused world.now (option_map (λ a. a.now) alerts.entry) silence.now) }
{
    match alerts {
        Some(alerts) if world.active(position) => {
            Ok(!matches_any(alloc, silence.matchers(), alerts)?)
        }
        _ => Ok(false),
    }
}

/// Whether a list of matchers matches one of some alerts. Fails only if memory runs out.
fn matches_any(alloc: Global, matchers: &Matchers, alerts: &Alerts) -> Result<bool, AllocError>
    ensures { IfOk result (λ found.
        found ≡ list_any (λ alert. all_hold alert matchers.now) alerts.now) }
{
    let mut prepared = matchers.prepare(alloc);
    for i in 0..alerts.len() {
        if prepared.matches(alloc, alerts.get(i))? {
            return Ok(true);
        }
    }
    Ok(false)
}
