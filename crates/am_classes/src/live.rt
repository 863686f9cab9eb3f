//! The patterns that may still find a text of which only the end has been read.
//!
//! For most patterns a text is lost soon: they do not find it, whatever comes before. So of many
//! patterns few are followed from byte to byte.

ghost use Rattle.std.specs.Prelude.{◌≡◌, ◌∷◌, ℕ, List, [], IfOk};
ghost use Rattle.std.specs.Str.{IsUtf8};
ghost use Rattle.am_classes.specs.Automata.{AreScanned, found_by};
ghost use Rattle.am_classes.specs.Live.{live_of};

use am_scan::PatternAutomaton;
use std::alloc::{AllocError, Global};

/// A pattern that may still find a text, with the number that it gives the text.
#[derive(Clone, Copy, PartialEq, Eq, Hash, Drop)]
pub(crate) struct LivePattern {
    /// The place of the pattern.
    pub(crate) place: usize,
    pub(crate) number: u32,
}

/// Returns the live patterns of the empty text.
pub(crate) fn live_at_end(
    alloc: Global,
    automata: &[PatternAutomaton],
) -> Result<Vec<LivePattern>, AllocError>
    ensures { IfOk result (λ live. live.items ≡ live_of automata.now []) }
{
    let mut live = Vec::with_capacity(alloc, automata.len())?;
    for (place, automaton) in automata.iter().enumerate() {
        let number = automaton.end();
        if !automaton.is_lost(number) {
            live.push(LivePattern { place, number })?;
        }
    }
    Ok(live)
}

/// Returns the live patterns of a text with one more byte before it, from those of the text.
pub(crate) fn live_before(
    alloc: Global,
    automata: &[PatternAutomaton],
    live: &[LivePattern],
    byte: u8,
) -> Result<Vec<LivePattern>, AllocError>
    ensures { IfOk result (λ nexts. (text : List ℕ) → live.now ≡ live_of automata.now text
        → nexts.items ≡ live_of automata.now (byte ∷ text)) }
{
    // Most often none of them is left, so no room is taken beforehand.
    let mut nexts = Vec::new(alloc);
    for pattern in live {
        let place = pattern.place;
        let Some(automaton) = automata.get(place) else {
            continue;
        };
        let number = automaton.step(pattern.number, byte);
        if !automaton.is_lost(number) {
            nexts.push(LivePattern { place, number })?;
        }
    }
    Ok(nexts)
}

/// Returns the places of the patterns that find a text that has these live patterns.
pub(crate) fn found_patterns(
    alloc: Global,
    automata: &[PatternAutomaton],
    live: &[LivePattern],
) -> Result<Vec<usize>, AllocError>
    ensures { IfOk result (λ found. (text : List ℕ) → live.now ≡ live_of automata.now text
        → AreScanned automata.now text → IsUtf8 text
        → found.items ≡ found_by automata.now text) }
{
    let mut found = Vec::new(alloc);
    for pattern in live {
        let Some(automaton) = automata.get(pattern.place) else {
            continue;
        };
        if automaton.finds(pattern.number) {
            found.push(pattern.place)?;
        }
    }
    Ok(found)
}
