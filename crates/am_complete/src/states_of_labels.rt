//! What a space lacks at each label.
//!
//! The texts of a label's classes are compared with its values. Texts that an impossible list about
//! that label alone takes away are left out. The matchers of such a list are among those of the
//! label, so if the list takes one text away, it takes the whole class away.

ghost use Rattle.std.specs.Prelude.{◌≡◌, List, IfOk, IsTrue, map, string_bytes, option_map};
ghost use Rattle.std.specs.List.{AllByRecursion, find, list_all, list_any};
ghost use Rattle.am_labels.specs.Matcher.{Matcher};
ghost use Rattle.am_universe.specs.Text.{same_text};
ghost use Rattle.am_complete.specs.AskedLabel.{IsAskedOf};
ghost use Rattle.am_complete.specs.LabelState.{IsSoIfNamed, is_settled, reported_names};
ghost use Rattle.am_complete.specs.Complete.{IsSpaceComplete, AreAmong, impossible_matchers};
ghost use Rattle.am_complete.specs.FoundState.{is_unseen, has_label, IsSoOfName};

use crate::made_universe::is_declared;
use crate::missing_texts::completeness_at;
use crate::{AskedLabel, Completeness, LabelState};
use am_classes::{Alphabet, SpareAutomata};
use am_labels::Space;
use am_list_files::Alerts;
use am_universe::LabelSet;
use std::alloc::{AllocError, Global};

/// Finds what a space lacks at each label to stand for every alert whose texts are over an
/// alphabet. The labels are those of the space, in declared order, and then the others that are
/// asked about, in the order of `asked`. With alerts, each state also says whether none of them has
/// the label. The matchers of the space's impossible lists must be among those that ask. Fails only
/// if memory runs out.
pub fn label_states<'m>(
    alloc: Global,
    alphabet: Alphabet,
    space: &Space,
    asked: &[AskedLabel<'m>],
    alerts: Option<&Alerts>,
) -> Result<Vec<LabelState>, AllocError>
    requires { (ms : List Matcher) × IsAskedOf asked.now ms
        × AreAmong (impossible_matchers space.now.impossible) ms }
    ensures names { IfOk result (λ states. map (λ s. string_bytes s.name) states.items
        ≡ reported_names space.now.labels asked.now) }
    ensures each { IfOk result (λ states. (ms : List Matcher) → IsAskedOf asked.now ms
        → AllByRecursion
        (λ s. IsSoIfNamed alphabet space.now ms asked.now (string_bytes s.name) s.completeness)
        states.items) }
    ensures complete { IfOk result (λ states. (ms : List Matcher) → IsAskedOf asked.now ms
        → IsTrue (list_all (λ s. is_settled s.completeness) states.items)
        → IsSpaceComplete alphabet space.now ms) }
    ensures unseen { IfOk result (λ states. AllByRecursion
        (λ s. s.unseen ≡ is_unseen (option_map (λ a. a.now) alerts.entry) (string_bytes s.name))
        states.items) }
{
    let universe = space.universe();
    let mut states = Vec::new(alloc);
    let mut spare = SpareAutomata::none(alloc);
    for i in 0..universe.len() {
        let name = universe.name(i);
        states.push(state_of(alloc, alphabet, space, asked, alerts, name, &mut spare)?)?;
    }
    for label in asked {
        let name = label.name();
        if !is_declared(universe, name) {
            states.push(state_of(alloc, alphabet, space, asked, alerts, name, &mut spare)?)?;
        }
    }
    Ok(states)
}

/// Returns the state of the label of this name.
fn state_of<'m>(
    alloc: Global,
    alphabet: Alphabet,
    space: &Space,
    asked: &[AskedLabel<'m>],
    alerts: Option<&Alerts>,
    name: &str,
    spare: &mut SpareAutomata<'m>,
) -> Result<LabelState, AllocError>
    requires { (ms : List Matcher) × IsAskedOf asked.now ms
        × AreAmong (impossible_matchers space.now.impossible) ms }
    ensures name { IfOk result (λ state. string_bytes state.name ≡ name.now) }
    ensures so { IfOk result (IsSoOfName alphabet space.now asked.now
        (option_map (λ a. a.now) alerts.entry)) }
{
    let completeness = completeness_of(alloc, alphabet, space, asked, alerts, name, spare)?;
    Ok(LabelState {
        name: String::from_str(alloc, name)?,
        completeness,
        unseen: is_unseen(alerts, name),
    })
}

/// Finds what a space lacks at the label of a name.
fn completeness_of<'m>(
    alloc: Global,
    alphabet: Alphabet,
    space: &Space,
    asked: &[AskedLabel<'m>],
    alerts: Option<&Alerts>,
    name: &str,
    spare: &mut SpareAutomata<'m>,
) -> Result<Completeness, AllocError>
    requires { (ms : List Matcher) × IsAskedOf asked.now ms
        × AreAmong (impossible_matchers space.now.impossible) ms }
    ensures { IfOk result (λ found. (ms : List Matcher) → IsAskedOf asked.now ms
        → IsSoIfNamed alphabet space.now ms asked.now name.now found) }
{
    let Some(label) = label_of(asked, name) else {
        return Ok(Completeness::Unasked);
    };
    if label.matchers().is_empty() {
        return Ok(Completeness::Unasked);
    }
    completeness_at(alloc, alphabet, space, label, alerts, spare)
}

/// Returns the label of this name among those that are asked about, if it is one.
fn label_of<'a, 'm>(asked: &'a [AskedLabel<'m>], name: &str) -> Option<&'a AskedLabel<'m>>
    ensures { option_map (λ l. l.now) result ≡ find (λ l. same_text l.name name.now) asked.now }
{
    asked.iter().find(|label| label.name() == name)
}

/// Whether there are alerts, and none of them has the label of this name.
fn is_unseen(alerts: Option<&Alerts>, name: &str) -> bool
    ensures { result ≡ is_unseen (option_map (λ a. a.now) alerts.entry) name.now }
{
    match alerts {
        Some(alerts) => !is_seen(alerts, name),
        None => false,
    }
}

/// Whether some alert has the label of this name.
fn is_seen(alerts: &Alerts, name: &str) -> bool
    ensures { result ≡ list_any (has_label name.now) alerts.now }
{
    for i in 0..alerts.len() {
        if has_label(alerts.get(i), name) {
            return true;
        }
    }
    false
}

/// Whether an alert has the label of this name.
fn has_label(alert: &LabelSet, name: &str) -> bool
    ensures { result ≡ has_label name.now alert.now }
{
    !alert.get(name).is_empty()
}
