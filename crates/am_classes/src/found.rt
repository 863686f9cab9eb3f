//! What was found of a label, for whoever asks the same again.
//!
//! Labels are often asked the same: the same texts are named, and the same patterns taken. What is
//! found of a label does not depend on its name.

ghost use Rattle.std.specs.Prelude.{◌≡◌, ℕ, List, Some, slice_get, IfOk, IfSome, IsTrue, map};
ghost use Rattle.std.specs.Prelude.{string_bytes};
ghost use Rattle.am_scan.specs.Automaton.{pattern_of};
ghost use Rattle.am_scan.specs.declared.pattern_automaton.PatternAutomaton.{PatternAutomaton};
ghost use Rattle.am_classes.specs.Automata.{found_by};
ghost use Rattle.am_classes.specs.declared.candidate.Candidate.{Candidate};
ghost use Rattle.am_classes.specs.Found.{IsFoundFor, asks};

use crate::Alphabet;
use crate::candidate::Candidate;
use crate::candidates::CandidateTexts;
use crate::questions::Questions;
use am_scan::{ByteSet, PatternAutomaton};
use std::alloc::{AllocError, Global};
use std::marker::Model;

/// What a label is asked, and the candidates that were found.
#[derive(Drop)]
pub(crate) struct Found {
    questions: Questions,
    candidates: CandidateTexts,
    /// The places of the candidates, in the order of their texts.
    order: Vec<usize>,
}

impl Model for Found {
    ghost use Rattle.std.specs.Prelude.{ℕ, List};
    ghost use Rattle.am_classes.specs.declared.alphabet.Alphabet.{Alphabet};

    // Over which alphabet the texts are, and which texts are named and which patterns are taken.
    ghost Value = { Alphabet × (List (List ℕ) × List (List ℕ)) };

    ghost use Rattle.am_classes.specs.Found.{IsFoundFor, asks};

    ghost view = { λ f. asks f.questions };

    ghost invariant = { λ f. IsFoundFor f.questions f.candidates };
}

impl Found {
    /// Keeps what was found. Fails only if memory runs out.
    pub(crate) fn of(
        alloc: Global,
        questions: Questions,
        candidates: CandidateTexts,
    ) -> Result<Found, AllocError>
        requires found { IsFoundFor questions candidates }
        ensures { IfOk result (λ found. found ≡ asks questions) }
    {
        let order = order_of(alloc, candidates.items.as_slice())?;
        Ok(Found {
            questions,
            candidates,
            order,
        })
    }

    /// What the label is asked.
    pub(crate) fn questions(&self) -> &Questions
        ensures { asks result.now ≡ self.now }
    {
        &self.questions
    }

    /// Returns what the label is asked, and the candidates.
    pub(crate) fn into_parts(self) -> (Questions, CandidateTexts)
        ensures asks { asks result.0 ≡ self }
        ensures found { IsFoundFor result.0 result.1 }
    {
        let Found {
            questions,
            candidates,
            ..
        } = self;
        (questions, candidates)
    }

    /// Returns the places of the patterns that find a text, if the text is a candidate.
    pub(crate) fn found(&self, text: &str) -> Option<&[usize]>
        ensures { (automata : List PatternAutomaton) → map pattern_of automata ≡ self.now.1.1
            → IfSome result (λ found. found.now ≡ found_by automata text.now) }
    {
        found_in(
            self.candidates.items.as_slice(),
            self.order.as_slice(),
            text,
        )
    }

    /// Whether this was asked about texts over an alphabet, by these named texts and patterns.
    pub(crate) fn is_for(&self, alphabet: Alphabet, texts: &[String], patterns: &[&str]) -> bool
        ensures { IsTrue result → self.now
            ≡ (alphabet, (map string_bytes texts.now, map (λ p. p.now) patterns.now)) }
    {
        let questions = &self.questions;
        questions.alphabet == alphabet
            && are_same(questions.texts.as_slice(), texts)
            && are_of(questions.automata.as_slice(), patterns, &questions.bytes)
    }
}

/// Returns the places of the patterns that find a text, if it is the text of one of these
/// candidates. `order` has the places of the candidates, sorted by their texts; by any other order
/// a candidate may be missed.
fn found_in<'f>(candidates: &'f [Candidate], order: &[usize], text: &str) -> Option<&'f [usize]>
    ensures { IfSome result (λ found. (k : ℕ) × (candidate : Candidate)
        × (slice_get candidates.now k ≡ Some candidate)
        × (string_bytes candidate.text ≡ text.now) × (found.now ≡ candidate.found.items)) }
{
    let at = order.partition_point(|place| text_at(candidates, *place) < text);
    let Some(place) = order.get(at) else {
        return None;
    };
    let Some(candidate) = candidates.get(*place) else {
        return None;
    };
    if is_same(candidate.text.as_str(), text) {
        Some(candidate.found.as_slice())
    } else {
        None
    }
}

/// Returns the places of candidates, in the order of their texts.
fn order_of(alloc: Global, candidates: &[Candidate]) -> Result<Vec<usize>, AllocError> {
    let mut order = Vec::with_capacity(alloc, candidates.len())?;
    for place in 0..candidates.len() {
        order.push(place)?;
    }
    order.sort_unstable_by_key(|place| text_at(candidates, *place));
    Ok(order)
}

/// The text of the candidate at a place, or the empty text if there is none.
fn text_at(candidates: &[Candidate], place: usize) -> &str {
    match candidates.get(place) {
        Some(candidate) => candidate.text.as_str(),
        None => "",
    }
}

/// Whether texts are the same as others, in the same order.
fn are_same(texts: &[String], others: &[String]) -> bool
    ensures { IsTrue result → map string_bytes texts.now ≡ map string_bytes others.now }
{
    if texts.len() != others.len() {
        return false;
    }
    for i in 0..texts.len() {
        if !is_same(texts[i].as_str(), others[i].as_str()) {
            return false;
        }
    }
    true
}

fn is_same(text: &str, other: &str) -> bool
    ensures { IsTrue result → text.now ≡ other.now }
{
    text == other
}

/// Whether automata are those of patterns, in the same order, for texts that have only these bytes.
fn are_of(automata: &[PatternAutomaton], patterns: &[&str], bytes: &ByteSet) -> bool
    ensures { IsTrue result → map pattern_of automata.now ≡ map (λ p. p.now) patterns.now }
{
    if automata.len() != patterns.len() {
        return false;
    }
    for i in 0..automata.len() {
        if !automata[i].is_of(patterns[i], bytes) {
            return false;
        }
    }
    true
}
