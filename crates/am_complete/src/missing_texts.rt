//! The texts that a label lacks in a space, and what that says about the label.

ghost use Rattle.std.specs.Prelude.{◌≡◌, ◌≢◌, List, [], IfOk, IfSome, IfNone, map, string_bytes};
ghost use Rattle.std.specs.Prelude.{◌++◌, Contains, false};
ghost use Rattle.std.specs.List.{AllByRecursion};
ghost use Rattle.std.specs.Option.{option_map_or};
ghost use Rattle.am_universe.specs.LabelSet.{LabelMap};
ghost use Rattle.am_labels.specs.Matcher.{Matcher};
ghost use Rattle.am_classes.specs.LabelTests.{IsTestsOf};
ghost use Rattle.am_classes.specs.Limits.{MayBePastLimits};
ghost use Rattle.am_classes.specs.Truths.{AreNewIn};
ghost use Rattle.am_complete.specs.Covering.{standing_texts};
ghost use Rattle.am_complete.specs.FoundState.{HasThoseOfLists, IsFoundAt};
ghost use Rattle.am_complete.specs.Missing.{IsMissingAt, needs_label, is_covered};
ghost use Rattle.am_complete.specs.Representatives.{AreFoundTexts, AreRepresentatives};

use crate::allowed_names::may_declare;
use crate::found_texts::found_texts;
use crate::label_texts::standing_texts;
use crate::possible_texts::possible_texts;
use crate::representatives::representatives;
use crate::{AllowedNames, AskedLabel, Completeness};
use am_classes::{Alphabet, ClassTexts, LabelTests, SpareAutomata, classes, new_texts};
use am_labels::Space;
use am_list_files::Alerts;
use am_universe::limits::MAX_VALUES;
use std::alloc::{AllocError, Global};
use std::collections::HashSet;
use std::marker::Model;

/// The texts that a label lacks in a space. If they are all, `count` is the number of classes of
/// texts that the label may have.
#[derive(Drop)]
pub(crate) struct Missing<'m> {
    name: &'m str,
    named: bool,
    texts: Vec<String>,
    all: bool,
    count: usize,
}

impl<'m> Model for Missing<'m> {
    ghost use Rattle.std.specs.Prelude.{map, string_bytes};
    ghost use Rattle.am_complete.specs.Missing as spec;

    ghost Value = { spec.MissingTexts };

    ghost view = { λ m. record {
      name = m.name.now;
      named = m.named;
      texts = map string_bytes m.texts.items;
      all = m.all;
      count = m.count;
    } };
}

impl<'m> Missing<'m> {
    /// The name of the label.
    pub(crate) fn name(&self) -> &'m str
        ensures { result.now ≡ self.now.name }
    {
        self.name
    }

    /// Texts that the label lacks, each of another class.
    pub(crate) fn texts(&self) -> &[String]
        ensures { map string_bytes result.now ≡ self.now.texts }
    {
        self.texts.as_slice()
    }

    /// Whether a universe may declare the label, and has to, because it lacks texts.
    pub(crate) fn needs_label(&self) -> bool
        ensures { result ≡ needs_label self.now }
    {
        self.named && !self.texts.is_empty()
    }

    /// Whether a universe with these texts covers the label: they are known to be all, and it may
    /// declare the label if it has to.
    pub(crate) fn is_covered(&self) -> bool
        ensures { result ≡ is_covered self.now }
    {
        self.all && (self.named || self.texts.is_empty())
    }
}

/// Finds what a space lacks at a label that is asked about. A label that is not declared has
/// absence alone. If texts are missing, returns the first of them, in the order of a made universe.
/// If not all classes were found, but more than a label may have values, every universe lacks one.
pub(crate) fn completeness_at<'m>(
    alloc: Global,
    alphabet: Alphabet,
    space: &Space,
    label: &AskedLabel<'m>,
    alerts: Option<&Alerts>,
    spare: &mut SpareAutomata<'m>,
) -> Result<Completeness, AllocError>
    requires { label.now.name ≢ [] → HasThoseOfLists space.now.impossible label.now }
    ensures { IfOk result (IsFoundAt alphabet space.now label.now) }
{
    let Some(found) = known_texts(alloc, alphabet, label, alerts, spare)? else {
        return Ok(Completeness::Unproved(label.first()));
    };
    let allowed = AllowedNames::OfFiles;
    let missing = missing_of(alloc, alphabet, allowed, space, label, found, spare)?;
    let (named, all) = (missing.named, missing.all);
    if !all && (!named || missing.count <= MAX_VALUES) {
        return Ok(Completeness::Unproved(label.first()));
    }
    match missing.texts.first() {
        Some(text) if named => Ok(Completeness::Lacks(String::from_str(alloc, text.as_str())?)),
        Some(_) => Ok(Completeness::Undeclarable),
        None if all => Ok(Completeness::Complete(missing.count)),
        None => Ok(Completeness::Unproved(label.first())),
    }
}

/// Finds which texts a label that is asked about lacks in a space. Of one text for each class that
/// the label may have, or else of texts that were found, these are the texts that are alike to none
/// that stands there.
pub(crate) fn missing_at<'m>(
    alloc: Global,
    alphabet: Alphabet,
    allowed: AllowedNames,
    space: &Space,
    label: &AskedLabel<'m>,
    alerts: Option<&Alerts>,
    spare: &mut SpareAutomata<'m>,
) -> Result<Missing<'m>, AllocError>
    requires { label.now.name ≢ [] → HasThoseOfLists space.now.impossible label.now }
    ensures missing { IfOk result (IsMissingAt alphabet allowed space.now label.now) }
    ensures representatives { IfOk result
        (AreRepresentatives alphabet (option_map_or (λ a. a.now) alerts.entry []) label.now) }
{
    let Some(known) = known_texts(alloc, alphabet, label, alerts, spare)? else {
        let found = found_texts(alloc, alphabet, label, alerts)?;
        return missing_of(alloc, alphabet, allowed, space, label, found, spare);
    };
    missing_of(alloc, alphabet, allowed, space, label, known, spare)
}

/// Returns one text for each class of a label's texts, as a reader would choose them, or more texts
/// than a label may have values, no two of which are alike. Returns `None` if the classes cannot be
/// computed.
fn known_texts<'m>(
    alloc: Global,
    alphabet: Alphabet,
    label: &AskedLabel<'m>,
    alerts: Option<&Alerts>,
    spare: &mut SpareAutomata<'m>,
) -> Result<Option<ClassTexts<'m>>, AllocError>
    ensures some { IfOk result (λ found. IfSome found (λ known. AreFoundTexts alphabet
        (option_map_or (λ a. a.now) alerts.entry []) label.now known
        × (known.all ≡ false → MayBePastLimits alphabet label.now.matchers))) }
    ensures none { IfOk result (λ found. IfNone found
        (MayBePastLimits alphabet label.now.matchers)) }
{
    let Some(known) = classes(alloc, alphabet, label.matchers(), spare)? else {
        return Ok(None);
    };
    if !known.all {
        return Ok(Some(known));
    }
    let ClassTexts { texts, all, tests } = known;
    let texts = representatives(alloc, alphabet, label, alerts, &tests, texts)?;
    Ok(Some(ClassTexts { texts, all, tests }))
}

/// Finds which of these texts of a label it lacks in a space. The automata of their tests are spare
/// then.
fn missing_of<'m>(
    alloc: Global,
    alphabet: Alphabet,
    allowed: AllowedNames,
    space: &Space,
    label: &AskedLabel<'m>,
    found: ClassTexts<'m>,
    spare: &mut SpareAutomata<'m>,
) -> Result<Missing<'m>, AllocError>
    requires { label.now.name ≢ [] → HasThoseOfLists space.now.impossible label.now }
    ensures { IfOk result (λ missing. (alerts : List LabelMap)
        → AreFoundTexts alphabet alerts label.now found.entry
        → (found.entry.all ≡ false → MayBePastLimits alphabet label.now.matchers)
        → IsMissingAt alphabet allowed space.now label.now missing
        × AreRepresentatives alphabet alerts label.now missing) }
{
    let name = label.name();
    let ClassTexts { texts, all, tests } = found;
    let wanted = possible_texts(alloc, space.impossible(), name, texts)?;
    let count = wanted.len();
    let texts = missing_texts(alloc, space, name, &tests, wanted)?;
    *spare = SpareAutomata::of(alloc, tests);
    Ok(Missing {
        name,
        named: may_declare(alloc, allowed, name),
        texts,
        all,
        count,
    })
}

/// Returns those of these texts that are alike to none that stands in a space for the label of this
/// name, and to none before them.
fn missing_texts(
    alloc: Global,
    space: &Space,
    name: &str,
    tests: &LabelTests<'_>,
    texts: Vec<String>,
) -> Result<Vec<String>, AllocError>
    ensures { IfOk result (λ missing. (ms : List Matcher) → IsTestsOf ms tests.now
        → AreNewIn ms (standing_texts space.now name.now) (map string_bytes texts.items)
        (map string_bytes missing.items)) }
{
    let standing = standing_texts(alloc, space, name)?;
    // A text that stands is alike to itself, so no test is needed for it.
    let wanted = texts_beside(alloc, standing.as_slice(), texts)?;
    if wanted.is_empty() {
        return Ok(wanted);
    }
    let standing = tests.tested(alloc, standing)?;
    let wanted = tests.tested(alloc, wanted)?;
    new_texts(alloc, standing, wanted)
}

/// Returns those of these texts that are not among others.
fn texts_beside(
    alloc: Global,
    others: &[String],
    texts: Vec<String>,
) -> Result<Vec<String>, AllocError>
    ensures from { IfOk result (λ beside. AllByRecursion (Contains (map string_bytes texts.items))
        (map string_bytes beside.items)) }
    ensures all { IfOk result (λ beside.
        AllByRecursion (Contains (map string_bytes others.now ++ map string_bytes beside.items))
        (map string_bytes texts.items)) }
{
    let known = set_of(alloc, others)?;
    let mut beside = Vec::new(alloc);
    for text in texts {
        if known.contains(text.as_str()) {
            continue;
        }
        beside.push(text)?;
    }
    Ok(beside)
}

/// Returns texts as a set.
fn set_of<'t>(alloc: Global, texts: &'t [String]) -> Result<HashSet<&'t str>, AllocError>
    ensures { IfOk result (λ set.
        AllByRecursion (λ text. Contains (map string_bytes texts.now) text.now) set.keys) }
{
    let mut set = HashSet::new(alloc);
    for text in texts {
        set.insert(text.as_str())?;
    }
    Ok(set)
}
