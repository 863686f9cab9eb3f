ghost use Rattle.std.specs.Prelude.{◌≡◌, ◌<◌, [], false, IsTrue, IfOk, IfSome, IfNone};
ghost use Rattle.std.specs.Prelude.{OnOk, length, vec_len, string_bytes};
ghost use Rattle.am_classes.specs.Enough.{AreEnough};
ghost use Rattle.am_classes.specs.State.{FollowsLabel, IsNamed, named_texts, patterns_of};
ghost use Rattle.am_classes.specs.Candidates.{AreCandidates, AreApartCandidates, Represents};
ghost use Rattle.am_classes.specs.Candidates.{HasEachFound, AreShortest, RepresentShorter};
ghost use Rattle.am_classes.specs.Candidates.{AreTied};
ghost use Rattle.am_classes.specs.Exploration.{HasManyLabelStates};
ghost use Rattle.am_classes.specs.ClassTexts.{IsOther};
ghost use Rattle.am_scan.specs.Automaton.{Grows};
ghost use Rattle.am_classes.specs.Alphabet.{IsOrdinary};

use crate::candidate::Candidate;
use crate::exploration::explored;
use crate::questions::Questions;
use crate::reached_state::ReachedState;
use std::alloc::{AllocError, Global};
use std::collections::HashSet;
use std::str::from_utf8;

/// Texts that no matcher names. No two of them are found by exactly the same patterns.
#[derive(Drop)]
pub(crate) struct CandidateTexts {
    pub(crate) items: Vec<Candidate>,
    /// Whether they stand for all such texts. If not, there are more of them than there is room
    /// for.
    pub(crate) all: bool,
}

/// Finds texts that no matcher names: one for each set of patterns that finds such a text, or more
/// of them than there is room for. Returns `None` if there are patterns and too many states.
pub(crate) fn candidates(
    alloc: Global,
    questions: &Questions,
    room: usize,
) -> Result<Option<CandidateTexts>, AllocError>
    requires { AreEnough questions.now.alphabet (named_texts questions.now)
        (patterns_of questions.now) questions.now.bytes }
    ensures distinct { IfOk result (λ found. IfSome found (λ candidates.
        AreApartCandidates questions.now candidates.items.items)) }
    ensures all { IfOk result (λ found. IfSome found (λ candidates.
        IsTrue candidates.all → AreCandidates questions.now candidates.items.items)) }
    ensures many { IfOk result (λ found. IfSome found (λ candidates. candidates.all ≡ false
        → (room < vec_len candidates.items) × (0 < length questions.now.automata.items))) }
    ensures tied { IfOk result (λ found. IfSome found (λ candidates.
        AreTied questions.now candidates.items.items)) }
    ensures none { IfOk result (λ found. IfNone found
        ((0 < length questions.now.automata.items) × HasManyLabelStates questions.now)) }
{
    if questions.automata.is_empty() {
        let items = other_candidate(alloc, questions)?;
        return Ok(Some(CandidateTexts { items, all: true }));
    }
    explored(alloc, questions, room)
}

/// Returns a text that is not named, as the only candidate. There must be no pattern.
fn other_candidate(alloc: Global, questions: &Questions) -> Result<Vec<Candidate>, AllocError>
    requires { questions.now.automata.items ≡ [] }
    ensures candidates { IfOk result (λ candidates.
        AreCandidates questions.now candidates.items) }
    ensures tied { IfOk result (λ candidates. AreTied questions.now candidates.items) }
{
    let text = other_text(alloc, questions)?;
    let found = Vec::new(alloc);
    Ok(vec![in alloc; Candidate { text, found }]?)
}

/// Returns a text that is not named: the empty text, which stands for absence, or else `other`,
/// `otherother`, and so on. There is one, because the text becomes longer than each named text.
#[tactic(auto, using(crate::proofs::AskedLemmas::no_longer))]
fn other_text(alloc: Global, questions: &Questions) -> Result<String, AllocError>
    ensures unnamed { IfOk result (λ text. ¬ IsNamed questions.now (string_bytes text)) }
    ensures ordinary { IfOk result (λ text. IsOrdinary (string_bytes text)) }
    ensures other { IfOk result (λ text. IsOther (IsNamed questions.now) (string_bytes text)) }
{
    let mut text = String::new(alloc);
    while questions.names(text.as_bytes()) {
        text.push_str("other")?;
    }
    Ok(text)
}

/// Adds the text of a state to the candidates, unless the text begins inside a character, or is
/// named, or a candidate is found by the same patterns. A set has the patterns of each candidate.
pub(crate) fn add(
    alloc: Global,
    questions: &Questions,
    item: &ReachedState<'_>,
    seen: &mut HashSet<Vec<usize>>,
    candidates: &mut Vec<Candidate>,
) -> Result<(), AllocError>
    requires follows { FollowsLabel questions.now item.now.state item.now.text.items }
    requires distinct { AreApartCandidates questions.now candidates.old.items }
    requires seen { HasEachFound seen.old candidates.old.items }
    ensures seen { OnOk result (HasEachFound seen.new candidates.new.items) }
    ensures distinct { AreApartCandidates questions.now candidates.new.items }
    ensures grows { Grows candidates.old.items candidates.new.items }
    ensures added { OnOk result
        (Represents questions.now candidates.new.items item.now.state) }
    ensures shortest { AreShortest questions.now candidates.old.items
        → RepresentShorter questions.now candidates.old.items (length item.now.text.items)
        → AreShortest questions.now candidates.new.items }
{
    if !item.state.tail.is_whole() || questions.names_followed(&item.state) {
        return Ok(());
    }
    let found = questions.found(alloc, &item.state)?;
    let copy = found.clone()?;
    let is_new = seen.insert(copy)?;
    if !is_new {
        return Ok(());
    }
    let Ok(text) = from_utf8(item.text.as_slice()) else {
        // A text with a whole tail is UTF-8.
        unreachable!()
    };
    let text = String::from_str(alloc, text)?;
    candidates.push(Candidate { text, found })?;
    Ok(())
}
