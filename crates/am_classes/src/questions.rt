ghost use Rattle.std.specs.Prelude.{◌≡◌, ◌↔◌, ◌∷◌, [], ℕ, List, IsTrue, None, IfOk, IfSome, IfNone};
ghost use Rattle.std.specs.Str.{IsUtf8};
ghost use Rattle.am_classes.specs.declared.label_state.LabelState.{LabelState};
ghost use Rattle.am_classes.specs.Utf8.{text_step};
ghost use Rattle.am_scan.specs.Sight.{is_scanned};
ghost use Rattle.am_scan.specs.declared.pattern_automaton.PatternAutomaton.{PatternAutomaton};
ghost use Rattle.am_classes.specs.Automata.{AreClasses, AreFor, MakeSame, found_by};
ghost use Rattle.am_classes.specs.Enough.{AreOf};

use crate::Alphabet;
use crate::automata::byte_classes;
use crate::fronts::{all_fronts, any_ends_with, fronts_before, has_nothing};
use crate::label_state::LabelState;
use crate::live::{found_patterns, live_at_end, live_before};
use crate::named_texts::is_among;
use crate::tail::Tail;
use am_scan::{ByteSet, PatternAutomaton};
use std::alloc::{AllocError, Global};

/// What the matchers of a label ask about a text: whether it is one of the texts that they name,
/// and which of the other patterns find it. No text and no pattern is listed twice.
#[derive(Drop)]
pub(crate) struct Questions {
    /// Which texts they are asked about.
    pub(crate) alphabet: Alphabet,
    /// The bytes that are tried.
    pub(crate) bytes: ByteSet,
    pub(crate) texts: Vec<String>,
    pub(crate) automata: Vec<PatternAutomaton>,
    /// For each byte, the first byte that every pattern treats like it.
    classes: [u8; 256],
    ghost own: { AreOf alphabet bytes },
    ghost fit: { AreFor bytes automata.items },
    ghost alike: { AreClasses automata.items classes },
}

impl Questions {
    ghost use Rattle.am_classes.specs.State.{FollowsLabel, IsNamed, named_texts};

    /// Asks about texts over an alphabet that have only certain bytes, by named texts and by
    /// automata. No text and no pattern may be given twice.
    pub(crate) fn of(
        alphabet: Alphabet,
        bytes: ByteSet,
        texts: Vec<String>,
        automata: Vec<PatternAutomaton>,
    ) -> Questions
        requires own { AreOf alphabet bytes }
        requires fit { AreFor bytes automata.items }
        ensures alphabet { result.alphabet ≡ alphabet }
        ensures bytes { result.bytes ≡ bytes }
        ensures texts { result.texts ≡ texts }
        ensures automata { result.automata ≡ automata }
    {
        let classes = byte_classes(automata.as_slice());
        Questions {
            alphabet,
            bytes,
            texts,
            automata,
            classes,
        }
    }

    /// Whether a text is a named text.
    pub(crate) fn names(&self, text: &[u8]) -> bool
        ensures { IsTrue result ↔ IsNamed self.now text.now }
    {
        is_among(self.texts.as_slice(), text)
    }

    /// Whether a text that a state follows is a named text.
    #[tactic(auto, using(std::proofs::lemmas::Grind::common_steps, crate::proofs::FrontLemmas::nothing_before))]
    pub(crate) fn names_followed(&self, state: &LabelState<'_>) -> bool
        ensures { (text : List ℕ) → FollowsLabel self.now state.now text
            → (IsTrue result ↔ IsNamed self.now text) }
    {
        has_nothing(state.fronts.as_slice())
    }

    /// The state of the empty text.
    pub(crate) fn end(&self, alloc: Global) -> Result<LabelState<'_>, AllocError>
        ensures { IfOk result (λ state. FollowsLabel self.now state []) }
    {
        Ok(LabelState {
            tail: Tail::Whole,
            fronts: all_fronts(alloc, self.texts.as_slice())?,
            live: live_at_end(alloc, self.automata.as_slice())?,
        })
    }

    /// Returns the state of a text with one more byte before it, from the state of the text.
    /// Returns `None` if no text that is tried has such an end.
    pub(crate) fn step<'q>(
        &self,
        alloc: Global,
        state: &LabelState<'q>,
        byte: u8,
    ) -> Result<Option<LabelState<'q>>, AllocError>
        ensures some { IfOk result (λ found. IfSome found (λ next. (text : List ℕ)
            → FollowsLabel self.now state.now text → FollowsLabel self.now next (byte ∷ text))) }
        ensures none { IfOk result (λ found. IfNone found
            (text_step (is_scanned self.now.bytes) state.now.tail byte ≡ None)) }
    {
        let Some(tail) = state.tail.step(&self.bytes, byte) else {
            return Ok(None);
        };
        let automata = self.automata.as_slice();
        Ok(Some(LabelState {
            tail,
            fronts: fronts_before(alloc, state.fronts.as_slice(), byte)?,
            live: live_before(alloc, automata, state.live.as_slice(), byte)?,
        }))
    }

    /// Returns the class of a byte: a byte that every pattern treats like it.
    pub(crate) fn class_of(&self, byte: u8) -> u8
        ensures { MakeSame self.now.automata.items result byte }
    {
        self.classes[usize::from(byte)]
    }

    /// Whether two bytes lead from a state to the same state, if every pattern treats both alike:
    /// no named text goes on with either. Only `true` promises something.
    pub(crate) fn lead_alike(&self, state: &LabelState<'_>, one: u8, other: u8) -> bool
        ensures tails { IsTrue result → text_step (is_scanned self.now.bytes) state.now.tail one
            ≡ text_step (is_scanned self.now.bytes) state.now.tail other }
        ensures follows { IsTrue result → MakeSame self.now.automata.items one other
            → (text : List ℕ) (next : LabelState) → FollowsLabel self.now state.now text
            → FollowsLabel self.now next (one ∷ text)
            → FollowsLabel self.now next (other ∷ text) }
    {
        let fronts = state.fronts.as_slice();
        state.tail.step(&self.bytes, one) == state.tail.step(&self.bytes, other)
            && !any_ends_with(fronts, one)
            && !any_ends_with(fronts, other)
    }

    /// Returns the places of the patterns that find the texts that a state follows.
    pub(crate) fn found(
        &self,
        alloc: Global,
        state: &LabelState<'_>,
    ) -> Result<Vec<usize>, AllocError>
        ensures { IfOk result (λ found. (text : List ℕ)
            → FollowsLabel self.now state.now text → IsUtf8 text
            → found.items ≡ found_by self.now.automata.items text) }
    {
        found_patterns(alloc, self.automata.as_slice(), state.live.as_slice())
    }
}
