//! What the tests of a label had and no longer need, for whoever needs the same again.
//!
//! Matchers of several labels often take the same patterns. To make the automaton of a pattern
//! takes far longer than to find it here. If a label is asked the same as the one before it, all
//! that was found of that one is here.

ghost use Rattle.std.specs.Prelude.{◌≡◌, IfOk, IfSome, map, string_bytes};
ghost use Rattle.am_scan.specs.Automaton.{pattern_of, scanned_bytes};
ghost use Rattle.am_classes.specs.Found.{IsFoundFor, asks};

use crate::candidates::CandidateTexts;
use crate::found::Found;
use crate::label_tests::Asked;
use crate::questions::Questions;
use crate::{Alphabet, LabelTests};
use am_scan::{ByteSet, PatternAutomaton};
use indexmap::IndexSet;
use std::alloc::{AllocError, Global};
use std::collections::HashMap;

/// What the tests of a label had.
#[derive(Drop)]
pub struct SpareAutomata<'m> {
    /// What was found of the label, by these patterns.
    last: Option<(IndexSet<&'m str>, Found)>,
    /// The automata, once they are needed one by one.
    automata: HashMap<&'m str, PatternAutomaton>,
}

impl<'m> SpareAutomata<'m> {
    /// No automata. Takes no memory.
    pub fn none(alloc: Global) -> SpareAutomata<'m> {
        SpareAutomata {
            last: None,
            automata: HashMap::new(alloc),
        }
    }

    /// The automata of tests that are no longer needed, if all classes were looked for. Takes no
    /// memory.
    pub fn of(alloc: Global, tests: LabelTests<'m>) -> SpareAutomata<'m> {
        let LabelTests {
            patterns,
            asked,
            ..
        } = tests;
        let last = match asked {
            Asked::Found(found) => Some((patterns, found)),
            Asked::Questions(_questions) => None,
            Asked::Nothing => None,
        };
        SpareAutomata {
            last,
            automata: HashMap::new(alloc),
        }
    }

    /// Takes out what the last label was asked, and its candidates, if it was asked this. If not,
    /// its automata are spare one by one. Fails only if memory runs out.
    pub(crate) fn take_found(
        &mut self,
        alphabet: Alphabet,
        texts: &[String],
        patterns: &[&str],
    ) -> Result<Option<(Questions, CandidateTexts)>, AllocError>
        ensures asks { IfOk result (λ known. IfSome known (λ parts. asks parts.0
            ≡ (alphabet, (map string_bytes texts.now, map (λ p. p.now) patterns.now)))) }
        ensures found { IfOk result (λ known. IfSome known (λ parts.
            IsFoundFor parts.0 parts.1)) }
    {
        let Some((known, found)) = self.last.take() else {
            return Ok(None);
        };
        let is_same = found.is_for(alphabet, texts, patterns);
        let (questions, candidates) = found.into_parts();
        if is_same {
            return Ok(Some((questions, candidates)));
        }
        for (place, automaton) in questions.automata.into_iter().enumerate() {
            if let Some(pattern) = known.get_index(place) {
                self.automata.insert(*pattern, automaton)?;
            }
        }
        Ok(None)
    }

    /// Takes out the automaton of a pattern, for texts that have only these bytes, if it is there.
    pub(crate) fn take(&mut self, pattern: &str, bytes: &ByteSet) -> Option<PatternAutomaton>
        ensures { IfSome result (λ automaton. (pattern_of automaton ≡ pattern.now)
            × (scanned_bytes automaton ≡ bytes.now)) }
    {
        let automaton = self.automata.remove(pattern)?;
        if automaton.is_of(pattern, bytes) {
            Some(automaton)
        } else {
            None
        }
    }
}
