//! What the classes of a label are made from: its named texts and its candidates.

ghost use Rattle.std.specs.Prelude.{◌≡◌, ◌≤◌, ◌+◌, [], List, IfOk, IfSome, IfNone, length, map};
ghost use Rattle.std.specs.Prelude.{string_bytes};
ghost use Rattle.am_universe.specs.declared.limits.TheConstants.{MAX_VALUES};
ghost use Rattle.am_labels.specs.Matcher.{Matcher};
ghost use Rattle.am_classes.specs.Automata.{MayLackAutomaton};
ghost use Rattle.am_classes.specs.Enough.{AreEnough};
ghost use Rattle.am_classes.specs.Found.{asks};
ghost use Rattle.am_classes.specs.LabelTests.{IsTestsOf};
ghost use Rattle.am_classes.specs.Parts.{AreParts, MayLackParts};
ghost use Rattle.am_classes.specs.State.{named_texts, patterns_of};
ghost use Rattle.am_classes.specs.Truths.{AreNewIn};

use crate::automata::automata_of;
use crate::candidates::{CandidateTexts, candidates};
use crate::enough_bytes::enough_bytes;
use crate::questions::Questions;
use crate::tested::new_texts;
use crate::{Alphabet, LabelTests, SpareAutomata};
use am_universe::limits::MAX_VALUES;
use std::alloc::{AllocError, Global};

/// What a label is asked, its named texts that are alike to none before them, and its candidates.
#[derive(Drop)]
pub(crate) struct Parts {
    pub(crate) questions: Questions,
    pub(crate) named: Vec<String>,
    pub(crate) candidates: CandidateTexts,
}

/// Finds the parts of the classes of a label that has these tests and names these texts. What is
/// spare is taken where it fits. Returns `None` if a pattern has no automaton, or if there are
/// patterns and too many states.
pub(crate) fn parts_of(
    alloc: Global,
    alphabet: Alphabet,
    tests: &LabelTests<'_>,
    texts: Vec<String>,
    spare: &mut SpareAutomata<'_>,
) -> Result<Option<Parts>, AllocError>
    ensures some { IfOk result (λ found. IfSome found
        (AreParts alphabet tests.now (map string_bytes texts.items))) }
    ensures none { IfOk result (λ found. IfNone found
        (MayLackParts alphabet tests.now (map string_bytes texts.items))) }
{
    let known = known_parts(alloc, alphabet, tests, texts.as_slice(), spare)?;
    if known.is_some() {
        return Ok(known);
    }
    new_parts(alloc, alphabet, tests, texts, spare)
}

/// Takes what was found of a label that was asked the same, if there is room for it.
fn known_parts(
    alloc: Global,
    alphabet: Alphabet,
    tests: &LabelTests<'_>,
    texts: &[String],
    spare: &mut SpareAutomata<'_>,
) -> Result<Option<Parts>, AllocError>
    ensures { IfOk result (λ found. IfSome found
        (AreParts alphabet tests.now (map string_bytes texts.now))) }
{
    let patterns = tests.patterns.as_slice();
    let Some((questions, candidates)) = spare.take_found(alphabet, texts, patterns)? else {
        return Ok(None);
    };
    let named = apart_texts(alloc, tests, &questions, texts)?;
    if !candidates.all || candidates.items.len() > room_beside(named.as_slice()) {
        return Ok(None);
    }
    Ok(Some(Parts {
        questions,
        named,
        candidates,
    }))
}

/// Finds the parts anew, but for automata that are spare.
fn new_parts(
    alloc: Global,
    alphabet: Alphabet,
    tests: &LabelTests<'_>,
    texts: Vec<String>,
    spare: &mut SpareAutomata<'_>,
) -> Result<Option<Parts>, AllocError>
    ensures some { IfOk result (λ found. IfSome found
        (AreParts alphabet tests.now (map string_bytes texts.items))) }
    ensures none { IfOk result (λ found. IfNone found
        (MayLackParts alphabet tests.now (map string_bytes texts.items))) }
{
    let patterns = tests.patterns.as_slice();
    let Some(questions) = questions_of(alloc, alphabet, texts, patterns, spare)? else {
        return Ok(None);
    };
    let named = apart_texts(alloc, tests, &questions, questions.texts.as_slice())?;
    let room = room_beside(named.as_slice());
    let Some(candidates) = candidates(alloc, &questions, room)? else {
        return Ok(None);
    };
    Ok(Some(Parts {
        questions,
        named,
        candidates,
    }))
}

/// How many classes a label may have beside those of named texts.
fn room_beside(named: &[String]) -> usize
    ensures { MAX_VALUES ≤ length named.now + result }
{
    MAX_VALUES.saturating_sub(named.len())
}

/// Returns the questions about texts over an alphabet, by named texts and by patterns, with
/// automata that are spare where they fit. No text and no pattern may be given twice. Returns
/// `None` if one of the patterns has no automaton.
pub(crate) fn questions_of(
    alloc: Global,
    alphabet: Alphabet,
    texts: Vec<String>,
    patterns: &[&str],
    spare: &mut SpareAutomata<'_>,
) -> Result<Option<Questions>, AllocError>
    ensures asks { IfOk result (λ found. IfSome found (λ questions. asks questions
        ≡ (alphabet, (map string_bytes texts.items, map (λ p. p.now) patterns.now)))) }
    ensures enough { IfOk result (λ found. IfSome found (λ questions. AreEnough alphabet
        (named_texts questions) (patterns_of questions) questions.bytes)) }
    ensures none { IfOk result (λ found. IfNone found
        (MayLackAutomaton (map (λ p. p.now) patterns.now))) }
{
    let bytes = enough_bytes(alloc, alphabet, texts.as_slice(), patterns)?;
    let Some(automata) = automata_of(alloc, bytes, patterns, spare)? else {
        return Ok(None);
    };
    Ok(Some(Questions::of(alphabet, bytes, texts, automata)))
}

/// Returns those of some texts that are alike to none before them. The tests ask these questions.
pub(crate) fn apart_texts(
    alloc: Global,
    tests: &LabelTests<'_>,
    questions: &Questions,
    texts: &[String],
) -> Result<Vec<String>, AllocError>
    requires fit { patterns_of questions.now ≡ map (λ p. p.now) tests.now.patterns.keys }
    ensures { IfOk result (λ apart. (ms : List Matcher) → IsTestsOf ms tests.now
        → AreNewIn ms [] (map string_bytes texts.now) (map string_bytes apart.items)) }
{
    let automata = questions.automata.as_slice();
    let texts = texts.to_vec(alloc)?;
    let tested = tests.tested_with(alloc, &questions.bytes, automata, None, texts)?;
    new_texts(alloc, Vec::new(alloc), tested)
}
