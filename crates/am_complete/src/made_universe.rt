//! A universe that is made from matchers, beside the labels and values of a space.
//!
//! Without `--from` the space is empty, so one promise covers both. To make a universe by itself,
//! and then to join two files, would add texts that impossible lists rule out. It would also be
//! refused if a label has too many classes only without these lists.
//!
//! `classes` gives the texts of each label. A text that no `=` or `!=` names is replaced by a text
//! of its class that a reader knows: one that the alerts have, or `other`. The truths of the
//! matchers on two texts show whether these are alike. So the universe is complete, whichever text
//! stands for a class.

ghost use Rattle.std.specs.Prelude.{◌≡◌, ◌≢◌, ◌++◌, ◌<◌, [], List, length, map, Contains, false};
ghost use Rattle.std.specs.Prelude.{Bool};
ghost use Rattle.std.specs.Prelude.{IfOk, IfErr, OnOk, IsTrue, string_bytes, unwrap_or, option_map};
ghost use Rattle.std.specs.List.{AllByRecursion, AllZip, IsDistinct};
ghost use Rattle.std.specs.Option.{option_map_or};
ghost use Rattle.am_universe.specs.Text.{same_text};
ghost use Rattle.am_universe.specs.Universe.{is_empty_text, IsUniverse, names};
ghost use Rattle.am_universe.specs.declared.kind.Kind.TheVariants as kinds;
ghost use Rattle.am_universe.specs.UniverseView.{texts_of};
ghost use Rattle.am_labels.specs.Matcher.{Matcher};
ghost use Rattle.am_complete.specs.Complete.{AreAmong, impossible_matchers, IsSpaceComplete};
ghost use Rattle.am_complete.specs.AskedLabel.{IsAskedOf};
ghost use Rattle.am_complete.specs.LabelState.{is_declared};
ghost use Rattle.am_complete.specs.Covering.{KeepsLabels, AddsNeeded, CoversEachBut, HasTextsOver};
ghost use Rattle.am_complete.specs.Covering.{AddsInOrder, IsWithLabel, IsFullFor, IsLimitOrMemory};
ghost use Rattle.am_complete.specs.AllowedNames.{MayHaveLabel};
ghost use Rattle.am_complete.specs.Room.{AreUnproved, HaveNoRoom};
ghost use Rattle.am_complete.specs.Missing.{AreMissing, missing_for, whole_texts, IsWhole};
ghost use Rattle.am_complete.specs.Missing.{is_to_declare, names_to_declare, CanBeDeclared};
ghost use Rattle.am_complete.specs.Missing.{AreTooLarge, open_positions};
ghost use Rattle.am_complete.specs.Representatives.{AreRepresentatives, AddsRepresentatives};

use crate::label_texts::standing_texts;
use crate::missing_texts::{Missing, missing_at};
use crate::{AllowedNames, AskedLabel};
use am_classes::{Alphabet, SpareAutomata};
use am_labels::Space;
use am_list_files::Alerts;
use am_universe::{Kind, Universe};
use std::alloc::{AllocError, Global};

/// A universe that is made from matchers.
#[derive(Drop)]
pub struct MadeUniverse {
    /// The labels of the space, and then those that had to be declared.
    pub universe: Universe,
    /// The positions, among the labels that were asked about and in their order, of those that the
    /// universe need not cover. Either the classes of such a label could not be computed, and it
    /// has values that were found; or it needs a value, and its name may not be declared.
    pub unproved: Vec<usize>,
}

/// Makes the smallest universe that keeps the labels of a space and, but for labels that are
/// unproved, is complete for those that are asked about. For each text over the alphabet that such
/// a label may have in an alert of the space, it has a value that the matchers of the label cannot
/// tell from the text. The matchers of the space's impossible lists must be among those that ask.
///
/// The labels of the space come first, each with its own values first. Then come the labels that
/// have to be declared, in the order in which they are asked about. Such a label has absence first,
/// if that is possible; then the values that matchers name, in their order; then a value for each
/// other class: the one that most of the alerts have, or else `other`, or else a shortest one; and
/// last values with a line feed. A label of the space gets those of these that it lacks.
///
/// A label whose classes could not be computed gets values that were found, and may lack some. A
/// label that needs a value, and whose name is not `allowed`, is not declared. Both are listed as
/// unproved. If any name is allowed, no label is unproved for its name.
///
/// Fails with `Limit` if there is no room for a label or its values, and with `Memory`.
pub fn universe_beside(
    alloc: Global,
    alphabet: Alphabet,
    allowed: AllowedNames,
    space: &Space,
    asked: &[AskedLabel<'_>],
    alerts: Option<&Alerts>,
) -> Result<MadeUniverse, Kind>
    requires { (ms : List Matcher) × IsAskedOf asked.now ms
        × AreAmong (impossible_matchers space.now.impossible) ms }
    ensures universe { IfOk result (λ made. IsUniverse made.universe) }
    ensures keeps { IfOk result (λ made. KeepsLabels space.now.labels made.universe) }
    ensures names { IfOk result (λ made. AllByRecursion
        (λ label. MayHaveLabel allowed space.now.labels label.name) made.universe) }
    ensures adds { IfOk result (λ made. (ms : List Matcher) → IsAskedOf asked.now ms
        → AddsNeeded alphabet space.now ms made.universe) }
    ensures order { IfOk result (λ made.
        AddsInOrder space.now.labels asked.now made.universe) }
    ensures covers { IfOk result (λ made. CoversEachBut alphabet space.now.impossible
        made.universe asked.now made.unproved.items) }
    ensures within { IfOk result (λ made.
        AllByRecursion (λ i. i < length asked.now) made.unproved.items) }
    ensures unproved { IfOk result (λ made.
        AreUnproved alphabet allowed space.now asked.now made.unproved.items) }
    ensures representatives { IfOk result (λ made. (ms : List Matcher) (may_lack : Bool)
        → IsAskedOf asked.now ms → (may_lack ≡ false → made.unproved.items ≡ [])
        → AddsRepresentatives may_lack alphabet space.now
        (option_map_or (λ a. a.now) alerts.entry []) ms made.universe) }
    ensures complete { IfOk result (λ made. made.unproved.items ≡ []
        → (ms : List Matcher) → IsAskedOf asked.now ms
        → IsSpaceComplete alphabet
        (record { labels = made.universe; impossible = space.now.impossible }) ms) }
    ensures over { IfOk result (λ made. HasTextsOver alphabet space.now.labels
        → HasTextsOver alphabet made.universe) }
    ensures kind { IfErr result IsLimitOrMemory }
    ensures limit { IfErr result (λ kind. kind ≡ kinds.Limit
        → HaveNoRoom alphabet allowed space.now asked.now) }
{
    let mut names = names_of(alloc, space.universe())?;
    let missing = missing_of_each(alloc, alphabet, allowed, space, asked, alerts)?;
    add_names(&mut names, space.universe(), missing.as_slice())?;
    let universe = universe_of(alloc, space, names.as_slice(), missing.as_slice())?;
    let unproved = open_positions(alloc, missing.as_slice())?;
    Ok(MadeUniverse { universe, unproved })
}

/// Returns the names of the labels of a universe.
fn names_of(alloc: Global, universe: &Universe) -> Result<Vec<&str>, AllocError>
    ensures universe { OnOk result (IsUniverse universe.now) }
    ensures names { IfOk result (λ found. map (λ n. n.now) found.items ≡ names universe.now) }
{
    let mut names = Vec::with_capacity(alloc, universe.len())?;
    for i in 0..universe.len() {
        names.push(universe.name(i))?;
    }
    Ok(names)
}

/// Finds what each label that is asked about lacks in a space.
fn missing_of_each<'m>(
    alloc: Global,
    alphabet: Alphabet,
    allowed: AllowedNames,
    space: &Space,
    asked: &[AskedLabel<'m>],
    alerts: Option<&Alerts>,
) -> Result<Vec<Missing<'m>>, AllocError>
    requires { (ms : List Matcher) × IsAskedOf asked.now ms
        × AreAmong (impossible_matchers space.now.impossible) ms }
    ensures missing { IfOk result (λ missing.
        AreMissing alphabet allowed space.now asked.now missing.items) }
    ensures representatives { IfOk result (λ missing. AllZip
        (AreRepresentatives alphabet (option_map_or (λ a. a.now) alerts.entry []))
        asked.now missing.items) }
{
    let mut missing = Vec::with_capacity(alloc, asked.len())?;
    let mut spare = SpareAutomata::none(alloc);
    for label in asked {
        let found = missing_at(alloc, alphabet, allowed, space, label, alerts, &mut spare)?;
        missing.push(found)?;
    }
    Ok(missing)
}

/// Adds the names of the labels that have to be declared and that a universe does not declare.
fn add_names<'n>(
    names: &mut Vec<&'n str>,
    universe: &Universe,
    missing: &[Missing<'n>],
) -> Result<(), AllocError>
    ensures { OnOk result (map (λ n. n.now) names.new.items
        ≡ map (λ n. n.now) names.old.items ++ names_to_declare universe.now missing.now) }
{
    for label in missing {
        if is_to_declare(universe, label) {
            names.push(label.name())?;
        }
    }
    Ok(())
}

/// Whether a label has to be declared, and a universe does not declare it.
fn is_to_declare(universe: &Universe, label: &Missing<'_>) -> bool
    ensures { result ≡ is_to_declare universe.now label.now }
{
    label.needs_label() && !is_declared(universe, label.name())
}

/// Whether a universe declares the label of this name.
pub(crate) fn is_declared(universe: &Universe, name: &str) -> bool
    ensures { result ≡ is_declared universe.now name.now }
{
    universe.position(name).is_some()
}

/// Makes the universe whose labels have these names. Each label has the texts that stand for it in
/// a space, followed by those that it lacks there. Fails with `Limit` if there is no room for them,
/// and with `Memory`.
fn universe_of(
    alloc: Global,
    space: &Space,
    named: &[&str],
    missing: &[Missing<'_>],
) -> Result<Universe, Kind>
    requires distinct { IsDistinct same_text (map (λ n. n.now) named.now) }
    requires labels { AllByRecursion (CanBeDeclared space.now missing.now)
        (map (λ n. n.now) named.now) }
    ensures universe { IfOk result (λ universe. IsUniverse universe) }
    ensures names { IfOk result (λ universe. names universe ≡ map (λ n. n.now) named.now) }
    ensures whole { IfOk result (AllByRecursion (IsWhole space.now missing.now)) }
    ensures kind { IfErr result IsLimitOrMemory }
    ensures limit { IfErr result (λ kind. kind ≡ kinds.Limit
        → AreTooLarge space.now missing.now (map (λ n. n.now) named.now)) }
{
    let mut universe = Universe::empty(alloc);
    for name in named {
        let texts = whole_texts(alloc, space, missing, name)?;
        declare(alloc, &mut universe, name, texts.as_slice())?;
    }
    Ok(universe)
}

/// Returns the texts that stand in a space for the label of a name, followed by those that it lacks
/// there.
fn whole_texts(
    alloc: Global,
    space: &Space,
    missing: &[Missing<'_>],
    name: &str,
) -> Result<Vec<String>, AllocError>
    ensures { IfOk result (λ texts.
        map string_bytes texts.items ≡ whole_texts space.now missing.now name.now) }
{
    let mut texts = standing_texts(alloc, space, name)?;
    if let Some(label) = missing_for(missing, name) {
        add_texts(alloc, &mut texts, label.texts())?;
    }
    Ok(texts)
}

/// Returns what the label of a name lacks, if it is asked about.
fn missing_for<'a, 'm>(missing: &'a [Missing<'m>], name: &str) -> Option<&'a Missing<'m>>
    ensures { option_map (λ m. m.now) result ≡ missing_for missing.now name.now }
{
    missing.iter().find(|label| label.name() == name)
}

/// Adds texts after others.
fn add_texts(alloc: Global, texts: &mut Vec<String>, more: &[String]) -> Result<(), AllocError>
    ensures { OnOk result (map string_bytes texts.new.items
        ≡ map string_bytes texts.old.items ++ map string_bytes more.now) }
{
    for text in more {
        texts.push(String::from_str(alloc, text.as_str())?)?;
    }
    Ok(())
}

/// Returns the positions of the labels that a universe with their texts may not cover.
fn open_positions(alloc: Global, missing: &[Missing<'_>]) -> Result<Vec<usize>, AllocError>
    ensures { IfOk result (λ positions. positions.items ≡ open_positions missing.now) }
{
    let mut positions = Vec::new(alloc);
    for (i, label) in missing.iter().enumerate() {
        if !label.is_covered() {
            positions.push(i)?;
        }
    }
    Ok(positions)
}

/// Declares a label with these texts. The empty text is absence. Fails with `Memory` if memory runs
/// out, and with `Limit` for every other fault. For a new name that is not empty and distinct
/// texts, at least one, the only other fault is that there is no room.
pub(crate) fn declare(
    alloc: Global,
    universe: &mut Universe,
    name: &str,
    texts: &[String],
) -> Result<(), Kind>
    requires { IsUniverse universe.old }
    ensures universe { OnOk result (IsUniverse universe.new) }
    ensures declared { OnOk result
        (IsWithLabel universe.old universe.new name.now (map string_bytes texts.now)) }
    ensures kind { IfErr result IsLimitOrMemory }
    ensures limit { IfErr result (λ kind. kind ≡ kinds.Limit → name.now ≢ []
        → ¬ Contains (names universe.old) name.now → texts.now ≢ []
        → IsDistinct same_text (map string_bytes texts.now)
        → IsFullFor universe.old (map string_bytes texts.now)) }
{
    let name = String::from_str(alloc, name)?;
    let values = values_of(alloc, texts)?;
    match universe.add_any(name, values) {
        Ok(()) => Ok(()),
        Err(fault) => Err(limit_or_memory(fault.kind)),
    }
}

/// Returns `Memory` for `Memory`, and `Limit` for every other kind.
fn limit_or_memory(kind: Kind) -> Kind
    ensures either { IsLimitOrMemory result }
    ensures memory { kind ≡ kinds.Memory → result ≡ kinds.Memory }
{
    if kind == Kind::Memory {
        Kind::Memory
    } else {
        Kind::Limit
    }
}

/// Returns texts as values of a label.
fn values_of(alloc: Global, texts: &[String]) -> Result<Vec<Option<String>>, AllocError>
    ensures texts { IfOk result (λ values. map (λ v. unwrap_or v []) (texts_of values.items)
        ≡ map string_bytes texts.now) }
    ensures values { IfOk result (λ values.
        AllByRecursion (λ v. is_empty_text v ≡ false) (texts_of values.items)) }
{
    let mut values = Vec::with_capacity(alloc, texts.len())?;
    for text in texts {
        values.push(value_of(alloc, text.as_str())?)?;
    }
    Ok(values)
}

/// Returns a text as a value of a label. The empty text is absence.
fn value_of(alloc: Global, text: &str) -> Result<Option<String>, AllocError>
    ensures text { IfOk result (λ value.
        unwrap_or (option_map string_bytes value) [] ≡ text.now) }
    ensures value { IfOk result (λ value.
        is_empty_text (option_map string_bytes value) ≡ false) }
{
    if text.is_empty() {
        return Ok(None);
    }
    Ok(Some(String::from_str(alloc, text)?))
}
