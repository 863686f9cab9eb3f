//! Texts that are read from their ends, by the patterns that may still find them.
//!
//! The last byte of a text is looked at by all patterns, and after it few are left. So if there are
//! many texts, what each byte does is found once.

ghost use Rattle.std.specs.Prelude.{◌≡◌, ◌∷◌, [], IfOk};
ghost use Rattle.am_classes.specs.Automata.{AreScanned, found_by};
ghost use Rattle.am_classes.specs.Live.{live_of, AreLast};

use crate::live::{LivePattern, found_patterns, live_at_end, live_before};
use am_scan::{ByteSet, PatternAutomaton};
use std::alloc::{AllocError, Global};

/// From how many texts on it is worth to find out what each last byte does.
const MANY_TEXTS: usize = 64;

/// The ends of texts: no byte, and one.
#[derive(Drop)]
pub(crate) struct TextEnds<'t> {
    automata: &'t [PatternAutomaton],
    /// The live patterns of the empty text.
    end: Vec<LivePattern>,
    /// For bytes that were looked at, the live patterns of the text of this byte alone.
    lasts: Vec<Option<Vec<LivePattern>>>,
    ghost at_end: { end.items ≡ live_of automata.now [] },
    ghost at_last: { AreLast automata.now lasts.items },
}

impl<'t> TextEnds<'t> {
    /// Prepares to read so many texts. They should end with these bytes. Fails only if memory runs
    /// out.
    pub(crate) fn of(
        alloc: Global,
        automata: &'t [PatternAutomaton],
        bytes: &ByteSet,
        texts: usize,
    ) -> Result<TextEnds<'t>, AllocError>
        ensures { IfOk result (λ ends. ends.automata.now ≡ automata.now) }
    {
        let end = live_at_end(alloc, automata)?;
        let lasts = if texts < MANY_TEXTS {
            Vec::new(alloc)
        } else {
            last_bytes(alloc, automata, end.as_slice(), bytes)?
        };
        Ok(TextEnds {
            automata,
            end,
            lasts,
        })
    }

    /// Returns the places of the patterns that find a text that all automata read. For any other
    /// text nothing is promised. Fails only if memory runs out.
    pub(crate) fn found(&self, alloc: Global, text: &str) -> Result<Vec<usize>, AllocError>
        ensures { IfOk result (λ found. AreScanned self.now.automata.now text.now
            → found.items ≡ found_by self.now.automata.now text.now) }
    {
        let live = self.live(alloc, text.as_bytes())?;
        found_patterns(alloc, self.automata, live.as_slice())
    }

    /// Returns the live patterns of a text.
    fn live(&self, alloc: Global, text: &[u8]) -> Result<Vec<LivePattern>, AllocError>
        ensures { IfOk result (λ live. live.items ≡ live_of self.now.automata.now text.now) }
    {
        let [before @ .., last] = text else {
            return self.end.as_slice().to_vec(alloc);
        };
        let mut live = self.live_at(alloc, *last)?;
        for i in (0..before.len()).rev() {
            live = live_before(alloc, self.automata, live.as_slice(), before[i])?;
        }
        Ok(live)
    }

    /// Returns the live patterns of the text of one byte.
    fn live_at(&self, alloc: Global, byte: u8) -> Result<Vec<LivePattern>, AllocError>
        ensures { IfOk result (λ live. live.items ≡ live_of self.now.automata.now (byte ∷ [])) }
    {
        match self.lasts.get(usize::from(byte)) {
            Some(Some(live)) => live.as_slice().to_vec(alloc),
            _ => live_before(alloc, self.automata, self.end.as_slice(), byte),
        }
    }
}

/// Returns the live patterns of the text of each of some bytes alone.
fn last_bytes(
    alloc: Global,
    automata: &[PatternAutomaton],
    end: &[LivePattern],
    bytes: &ByteSet,
) -> Result<Vec<Option<Vec<LivePattern>>>, AllocError>
    requires { end.now ≡ live_of automata.now [] }
    ensures { IfOk result (λ lasts. AreLast automata.now lasts.items) }
{
    let mut lasts = Vec::with_capacity(alloc, 256)?;
    for byte in 0..=u8::MAX {
        lasts.push(if bytes.has(byte) {
            Some(live_before(alloc, automata, end, byte)?)
        } else {
            None
        })?;
    }
    Ok(lasts)
}
