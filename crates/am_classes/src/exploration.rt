//! The states that the texts of a label lead to.
//!
//! All matchers of a label are explored together. A state of the label has three parts: how many
//! bytes of an unfinished character are at its front, since only UTF-8 counts; what is before it in
//! each named text that ends with it; and the patterns that may still find a text with this end,
//! each with the number that it gives the end. Only bytes that are enough to stand for all texts
//! lead to a state; over ASCII no character is unfinished.
//!
//! The search begins with the state of the empty text. It lists each state to which a listed one
//! and a byte lead, with a text that leads there, unless the same state is listed. Bytes that all
//! patterns treat alike take one step together, except those with which a named text goes on. When
//! no new state comes, every text leads to a listed one, by induction over its bytes. With more
//! than `MAX_STATES` states there is no answer. No two listed states are equal, so this is so only
//! if there are that many. The states are listed in the order of the lengths of their texts, so the
//! first text of a class is a shortest one.
ghost use Rattle.std.specs.Prelude.{◌≡◌, ◌<◌, ◌+◌, ℕ, Some, false, slice_get};
ghost use Rattle.std.specs.Prelude.{IfOk, IfSome, IfNone, OnOk, IsTrue, length, vec_len};
ghost use Rattle.am_classes.specs.declared.questions.Questions.{Questions};
ghost use Rattle.am_classes.specs.declared.reached_state.ReachedState.{ReachedState};
ghost use Rattle.am_classes.specs.Enough.{AreEnough};
ghost use Rattle.am_classes.specs.State.{FollowsLabel, named_texts, patterns_of};
ghost use Rattle.am_scan.specs.Automaton.{Grows};
ghost use Rattle.am_classes.specs.Exploration.{AreListed, LeadsOn, AreLed, byte_at};
ghost use Rattle.am_classes.specs.Exploration.{HasEachByte};
ghost use Rattle.am_classes.specs.Exploration.{HaveLength, HasManyLabelStates, IsSameSpent};
ghost use Rattle.am_classes.specs.Candidates.{AreApartCandidates, AreCandidates, AreShortest};

use crate::candidates::{CandidateTexts, add};
use crate::label_state::LabelState;
use crate::limits::MAX_STATES;
use crate::questions::Questions;
use crate::reached_state::ReachedState;
use am_scan::ByteSet;
use indexmap::IndexSet;
use std::alloc::{AllocError, Global};
use std::collections::HashSet;

/// Lists states of a label until each state that a text leads to is listed, and takes candidates
/// from the texts. States with shorter texts come first. Ends early if there are more candidates
/// than there is room for. Returns `None` if there are too many states.
pub(crate) fn explored(
    alloc: Global,
    questions: &Questions,
    room: usize,
) -> Result<Option<CandidateTexts>, AllocError>
    requires { AreEnough questions.now.alphabet (named_texts questions.now)
        (patterns_of questions.now) questions.now.bytes }
    ensures distinct { IfOk result (λ found. IfSome found (λ candidates.
        AreApartCandidates questions.now candidates.items.items)) }
    ensures all { IfOk result (λ found. IfSome found (λ candidates.
        IsTrue candidates.all → AreCandidates questions.now candidates.items.items)) }
    ensures many { IfOk result (λ found. IfSome found (λ candidates.
        candidates.all ≡ false → room < vec_len candidates.items)) }
    ensures shortest { IfOk result (λ found. IfSome found (λ candidates.
        AreShortest questions.now candidates.items.items)) }
    ensures none { IfOk result (λ found. IfNone found (HasManyLabelStates questions.now)) }
{
    let mut listed = IndexSet::new(alloc);
    listed.insert(ReachedState::end(alloc, questions)?)?;
    let mut seen = HashSet::new(alloc);
    let mut items = Vec::new(alloc);
    let order = bytes_in_order(alloc, &questions.bytes)?;
    for at in 0..=MAX_STATES {
        let Some(item) = listed.get_index(at) else {
            return Ok(Some(CandidateTexts { items, all: true }));
        };
        add(alloc, questions, item, &mut seen, &mut items)?;
        if items.len() > room {
            return Ok(Some(CandidateTexts { items, all: false }));
        }
        let nexts = next_states(alloc, questions, order.as_slice(), item)?;
        listed.extend(nexts)?;
        if listed.len() > MAX_STATES {
            return Ok(None);
        }
    }
    Ok(None)
}

/// Returns states to which bytes lead from a state, each with a text. For each byte that leads to a
/// state, one of them serves. They are tried in this order.
fn next_states<'q>(
    alloc: Global,
    questions: &Questions,
    order: &[u8],
    item: &ReachedState<'q>,
) -> Result<Vec<ReachedState<'q>>, AllocError>
    requires follows { FollowsLabel questions.now item.now.state item.now.text.items }
    requires order { HasEachByte questions.now.bytes order.now }
    ensures own { IfOk result (λ nexts. AreListed questions.now nexts.items) }
    ensures leads { IfOk result (λ nexts. (byte : ℕ) → byte < 256
        → LeadsOn questions.now nexts.items item.now byte) }
    ensures same { IfOk result (λ nexts.
        HaveLength (length item.now.text.items + 1) nexts.items) }
{
    let mut nexts = Vec::new(alloc);
    let mut led = [None; 256];
    for byte in order {
        step_on(alloc, questions, item, *byte, &mut led, &mut nexts)?;
    }
    Ok(nexts)
}

/// Returns the bytes of a set, in the order in which they are tried.
fn bytes_in_order(alloc: Global, bytes: &ByteSet) -> Result<Vec<u8>, AllocError>
    ensures { IfOk result (λ order. HasEachByte bytes.now order.items) }
{
    let mut order = Vec::new(alloc);
    for place in 0..256 {
        let byte = byte_at(place);
        if bytes.has(byte) {
            order.push(byte)?;
        }
    }
    Ok(order)
}

/// The byte at a place of the order in which bytes are tried. Printable bytes come first, those
/// from `a` on before the others, so that the texts are easy to read.
fn byte_at(place: usize) -> u8
    requires { place < 256 }
    ensures { result ≡ byte_at place }
{
    if place < 30 {
        (place + 97) as u8
    } else if place < 95 {
        (place + 2) as u8
    } else if place < 127 {
        (place - 95) as u8
    } else {
        place as u8
    }
}

/// Adds the state to which a byte leads from a state, unless another byte of its class led to the
/// same state. For each class of bytes, `led` has the last byte that led to a state. Most bytes
/// need no step, and a step is slow if there are many patterns.
fn step_on<'q>(
    alloc: Global,
    questions: &Questions,
    item: &ReachedState<'q>,
    byte: u8,
    led: &mut [Option<u8>; 256],
    nexts: &mut Vec<ReachedState<'q>>,
) -> Result<(), AllocError>
    requires follows { FollowsLabel questions.now item.now.state item.now.text.items }
    requires led { AreLed questions.now nexts.old.items item.now led.old }
    requires own { AreListed questions.now nexts.old.items }
    requires same { HaveLength (length item.now.text.items + 1) nexts.old.items }
    ensures led { AreLed questions.now nexts.new.items item.now led.new }
    ensures own { AreListed questions.now nexts.new.items }
    ensures same { HaveLength (length item.now.text.items + 1) nexts.new.items }
    ensures grows { Grows nexts.old.items nexts.new.items }
    ensures leads { OnOk result (LeadsOn questions.now nexts.new.items item.now byte) }
{
    let class = usize::from(questions.class_of(byte));
    if let Some(before) = led[class] {
        if questions.lead_alike(&item.state, before, byte) {
            return Ok(());
        }
    }
    let Some(state) = questions.step(alloc, &item.state, byte)? else {
        return Ok(());
    };
    if has_spent(nexts.as_slice(), &state) {
        led[class] = Some(byte);
        return Ok(());
    }
    let next = item.longer(alloc, byte, state)?;
    nexts.push(next)?;
    led[class] = Some(byte);
    Ok(())
}

/// Whether one of some states is spent, and the same as this one. `false` promises nothing.
fn has_spent(nexts: &[ReachedState<'_>], state: &LabelState<'_>) -> bool
    ensures { IsTrue result → (k : ℕ) × (other : ReachedState)
        × (slice_get nexts.now k ≡ Some other) × IsSameSpent state.now other.state }
{
    for next in nexts {
        if are_spent(state, &next.state) {
            return true;
        }
    }
    false
}

/// Whether no named text and no pattern is left in two states, and UTF-8 allows the same bytes
/// before both. Most bytes lead to such states. `false` promises nothing.
fn are_spent(one: &LabelState<'_>, other: &LabelState<'_>) -> bool
    ensures { IsTrue result → IsSameSpent one.now other.now }
{
    one.tail == other.tail
        && one.fronts.is_empty()
        && other.fronts.is_empty()
        && one.live.is_empty()
        && other.live.is_empty()
}
