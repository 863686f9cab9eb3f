//! A pattern as a table that reads texts from their end.
//!
//! A text is read byte by byte from its end. What matters of the part that has been read is a
//! *state*: for each state of the pattern's compiled automaton, whether the automaton, begun there,
//! would accept the part; and whether a match begins at a later character. A byte before the part
//! leads to the next state, by the compiled automaton's own edges. Each state is kept once, and
//! known by its number. Bytes that the pattern treats the same share a class. So a step is a look
//! at a table.
//!
//! The assertions `^`, `$`, `\A`, `\z` and those of `(?m)` ask only which byte is before a place
//! and which is after it, so they are followed too. `\b` asks about characters. Over ASCII a byte
//! is a character, and `\b` is followed there; over Unicode it is not.
//!
//! A pattern with wildcards alone, such as `db.*|web`, is followed without the engine. Its table is
//! refused only if the pattern has too many states.
ghost use Rattle.std.specs.Prelude.{◌≡◌, ◌↔◌, ℕ, ◌∷◌, [], List, true, IfOk, IfSome, IfNone};
ghost use Rattle.std.specs.Prelude.{IsTrue, IsUtf8, slice_index, string_bytes};
ghost use Rattle.am_labels.specs.Pattern.{finds};
ghost use Rattle.am_labels.specs.Wildcards.{is_wildcards, wildcards_state};
ghost use Rattle.am_scan.specs.Sight.{IsScanned};
ghost use Rattle.am_scan.specs.Numbers.{number_in, found_in};
ghost use Rattle.am_scan.specs.Lost.{AreLost};
ghost use Rattle.am_scan.specs.WildcardStates.{HasManyStates};

use crate::byte_set::ByteSet;
use crate::columns::Columns;
use crate::exploration::explored;
use crate::lost::{is_marked, lost_numbers};
use crate::pattern_scan::PatternScan;
use crate::row::Row;
use crate::wildcard_alphabet::Alphabet;
use crate::wildcard_exploration::wildcard_rows;
use crate::wildcard_place::places_of;
use am_labels::is_wildcards;
use std::alloc::{AllocError, Global};

/// A pattern as an automaton that reads texts from their end. The pattern treats all texts with one
/// number the same, whatever comes before them.
#[derive(Drop)]
pub struct PatternAutomaton {
    pattern: String,
    /// The bytes that texts may have.
    bytes: ByteSet,
    /// The class of each byte; past the end it is 0. Bytes of one class lead to the same numbers.
    classes: Vec<u8>,
    /// For each number, the row of its texts.
    rows: Vec<Row>,
    /// For each number, whether its texts are known to be lost: the pattern finds none of them,
    /// whatever comes before them.
    lost: Vec<bool>,
    ghost exact: { (text : List ℕ) → IsScanned bytes text → IsUtf8 text
        → found_in rows.items (number_in rows.items classes.items text)
        ≡ finds (string_bytes pattern) text },
    ghost by_state: { is_wildcards (string_bytes pattern) ≡ true → (x y : List ℕ)
        → wildcards_state (string_bytes pattern) x ≡ wildcards_state (string_bytes pattern) y
        → number_in rows.items classes.items x ≡ number_in rows.items classes.items y },
    ghost gone: { AreLost rows.items classes.items lost.items },
}

impl PatternAutomaton {
    ghost use Rattle.am_scan.specs.Automaton.{number_of, class_of, scanned_bytes, pattern_of};
    ghost use Rattle.am_scan.specs.Automaton.{is_lost};

    /// Makes the automaton of a pattern, for texts that have only these bytes. Returns `None` if
    /// there is none: the engine's grammar does not read the pattern; the pattern or its automaton
    /// is too large; or the pattern asks whether a word begins or ends, as `\b` does, in texts that
    /// may have other characters than those of ASCII. A pattern with wildcards alone has an
    /// automaton unless it has too many states. Fails only if memory runs out.
    pub fn of(
        alloc: Global,
        pattern: &str,
        bytes: ByteSet,
    ) -> Result<Option<PatternAutomaton>, AllocError>
        ensures pattern { IfOk result (λ found. IfSome found
            (λ automaton. pattern_of automaton ≡ pattern.now)) }
        ensures bytes { IfOk result (λ found. IfSome found
            (λ automaton. scanned_bytes automaton ≡ bytes)) }
        ensures none { IfOk result (λ found. IfNone found
            (is_wildcards pattern.now ≡ true → HasManyStates pattern.now)) }
    {
        if is_wildcards(alloc, pattern)? {
            return PatternAutomaton::of_wildcards(alloc, pattern, bytes);
        }
        let Some(scan) = PatternScan::of(alloc, pattern, bytes)? else {
            return Ok(None);
        };
        let Some(columns) = Columns::of(alloc, &scan)? else {
            return Ok(None);
        };
        let Some(rows) = explored(alloc, &scan, &columns)? else {
            return Ok(None);
        };
        let lost = lost_numbers(alloc, rows.as_slice(), columns.classes.as_slice())?;
        Ok(Some(PatternAutomaton {
            pattern: scan.pattern,
            bytes,
            classes: columns.classes,
            rows,
            lost,
        }))
    }

    /// Makes the automaton of a pattern with wildcards alone. Returns `None` if it has too many
    /// states.
    #[tactic(auto, unfolding(crate::specs::Automaton::pattern_of, crate::specs::Automaton::scanned_bytes))]
    fn of_wildcards(
        alloc: Global,
        pattern: &str,
        bytes: ByteSet,
    ) -> Result<Option<PatternAutomaton>, AllocError>
        requires { is_wildcards pattern.now ≡ true }
        ensures pattern { IfOk result (λ found. IfSome found
            (λ automaton. pattern_of automaton ≡ pattern.now)) }
        ensures bytes { IfOk result (λ found. IfSome found
            (λ automaton. scanned_bytes automaton ≡ bytes)) }
        ensures none { IfOk result (λ found. IfNone found (HasManyStates pattern.now)) }
    {
        let places = places_of(alloc, pattern)?;
        let places = places.as_slice();
        let alphabet = Alphabet::of(alloc, places)?;
        let Some(rows) = wildcard_rows(alloc, places, alphabet.symbols.as_slice())? else {
            return Ok(None);
        };
        let lost = lost_numbers(alloc, rows.as_slice(), alphabet.classes.as_slice())?;
        let pattern = String::from_str(alloc, pattern)?;
        Ok(Some(PatternAutomaton {
            pattern,
            bytes,
            classes: alphabet.classes,
            rows,
            lost,
        }))
    }

    /// Whether this is the automaton of a pattern for texts that have only these bytes. Only `true`
    /// promises something.
    #[tactic(auto, unfolding(crate::specs::Automaton::pattern_of, crate::specs::Automaton::scanned_bytes))]
    pub fn is_of(&self, pattern: &str, bytes: &ByteSet) -> bool
        ensures { IsTrue result → (pattern_of self.now ≡ pattern.now)
            × (scanned_bytes self.now ≡ bytes.now) }
    {
        self.pattern.as_str() == pattern && self.bytes == *bytes
    }

    /// Whether the automaton reads a text: the text has only the bytes that texts may have.
    #[tactic(auto, unfolding(crate::specs::Automaton::scanned_bytes))]
    pub fn reads(&self, text: &str) -> bool
        ensures { IsTrue result ↔ IsScanned (scanned_bytes self.now) text.now }
    {
        self.bytes.has_all(text)
    }

    /// Returns the number of the empty text.
    #[tactic(auto, unfolding(crate::specs::Automaton::number_of))]
    pub fn end(&self) -> u32
        ensures { result ≡ number_of self.now [] }
    {
        0
    }

    /// Returns the number of a text with one more byte before it, from the number of the text,
    /// which must come from this automaton. For any other number nothing is promised.
    #[tactic(auto, using(std::proofs::lemmas::Option::slice_get_read, std::proofs::lemmas::Option::slice_get_past, std::proofs::lemmas::Option::get_or_from_slice_get), unfolding(crate::specs::Automaton::number_of, crate::specs::Automaton::class_of))]
    pub fn step(&self, number: u32, byte: u8) -> u32
        ensures { (text : List ℕ) → number ≡ number_of self.now text
            → result ≡ number_of self.now (byte ∷ text) }
    {
        let Some(row) = self.rows.get(number as usize) else {
            return 0;
        };
        match row.next.get(usize::from(self.class_of(byte))) {
            Some(next) => *next,
            None => 0,
        }
    }

    /// Whether the texts of a number are known to be lost: the pattern finds none of them, whatever
    /// comes before them.
    #[tactic(auto, unfolding(crate::specs::Automaton::is_lost))]
    pub fn is_lost(&self, number: u32) -> bool
        ensures { result ≡ is_lost self.now number }
    {
        is_marked(self.lost.as_slice(), number)
    }

    /// Whether the pattern finds a text in UTF-8 that the automaton reads, by its number, which
    /// must come from this automaton. For any other number nothing is promised.
    #[tactic(auto, using(std::proofs::lemmas::Option::slice_get_read, std::proofs::lemmas::Option::slice_get_past), unfolding(crate::specs::Automaton::number_of, crate::specs::Automaton::scanned_bytes, crate::specs::Automaton::pattern_of))]
    pub fn finds(&self, number: u32) -> bool
        ensures { (text : List ℕ) → number ≡ number_of self.now text
            → IsScanned (scanned_bytes self.now) text → IsUtf8 text
            → result ≡ finds (pattern_of self.now) text }
    {
        match self.rows.get(number as usize) {
            Some(row) => row.found,
            None => false,
        }
    }

    /// Returns the class of a byte.
    #[tactic(auto, unfolding(crate::specs::Automaton::class_of))]
    pub fn class_of(&self, byte: u8) -> u8
        ensures { result ≡ class_of self.now byte }
    {
        match self.classes.get(usize::from(byte)) {
            Some(class) => *class,
            None => 0,
        }
    }

    /// Whether two bytes are of one class. If so, they lead to the same numbers; if not, nothing is
    /// promised.
    #[tactic(auto, unfolding(crate::specs::Automaton::class_of, crate::specs::Automaton::number_of))]
    pub fn are_alike(&self, one: u8, other: u8) -> bool
        ensures { IsTrue result → (text : List ℕ)
            → number_of self.now (one ∷ text) ≡ number_of self.now (other ∷ text) }
    {
        self.class_of(one) == self.class_of(other)
    }
}
