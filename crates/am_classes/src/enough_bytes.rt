//! Which bytes are enough to stand for all texts.
//!
//! Each byte that is tried costs time and states. Over Unicode, few patterns tell more than some
//! kinds of characters apart, and the bytes of one character of each kind are enough.

ghost use Rattle.std.specs.Prelude.{◌≡◌, ℕ, IsTrue, IfOk, OnOk, chars, map, string_bytes};
ghost use Rattle.std.specs.List.{AllByRecursion};
ghost use Rattle.am_scan.specs.Characters.{CannotTell, IsAlone, Narrows};
ghost use Rattle.am_scan.specs.Sight.{is_scanned};
ghost use Rattle.am_classes.specs.Alphabet.{is_printable};
ghost use Rattle.am_classes.specs.Enough.{AreEnough, AreOf};
ghost use Rattle.am_classes.specs.declared.alphabet.Alphabet.TheVariants.{Unicode};

use crate::Alphabet;
use am_scan::{ByteSet, CharacterSets};
use std::alloc::{AllocError, Global};

/// Returns bytes of an alphabet that are enough to stand for all texts over it, for named texts and
/// for patterns.
pub(crate) fn enough_bytes(
    alloc: Global,
    alphabet: Alphabet,
    texts: &[String],
    patterns: &[&str],
) -> Result<ByteSet, AllocError>
    ensures own { IfOk result (AreOf alphabet) }
    ensures enough { IfOk result (AreEnough alphabet (map string_bytes texts.now)
        (map (λ p. p.now) patterns.now)) }
{
    match alphabet {
        Alphabet::Unicode => representative_bytes(alloc, texts, patterns),
        Alphabet::Ascii => Ok(printable_bytes()),
    }
}

/// Returns bytes that are enough for all texts in UTF-8: those of ASCII, and those of some of the
/// characters that the patterns and the named texts cannot tell apart. If it is not known which
/// these are, returns all bytes.
fn representative_bytes(
    alloc: Global,
    texts: &[String],
    patterns: &[&str],
) -> Result<ByteSet, AllocError>
    ensures { IfOk result (AreEnough Unicode (map string_bytes texts.now)
        (map (λ p. p.now) patterns.now)) }
{
    let mut sets = CharacterSets::new(alloc);
    if !add_patterns(alloc, &mut sets, patterns)? {
        return Ok(ByteSet::full());
    }
    add_texts(&mut sets, texts)?;
    sets.representative_bytes(alloc)
}

/// Adds what patterns ask of characters. Returns `false` if this is not known.
fn add_patterns(
    alloc: Global,
    sets: &mut CharacterSets,
    patterns: &[&str],
) -> Result<bool, AllocError>
    ensures { IfOk result (λ known. IsTrue known
        → AllByRecursion (CannotTell sets.new) (map (λ p. p.now) patterns.now)) }
{
    for pattern in patterns {
        if !sets.add_pattern(alloc, pattern)? {
            return Ok(false);
        }
    }
    Ok(true)
}

/// Adds each character of some texts by itself.
fn add_texts(sets: &mut CharacterSets, texts: &[String]) -> Result<(), AllocError>
    ensures narrows { Narrows sets.old sets.new }
    ensures alone { OnOk result (AllByRecursion (λ text.
        AllByRecursion (IsAlone sets.new) (chars text)) (map string_bytes texts.now)) }
{
    for text in texts {
        sets.add_text(text.as_str())?;
    }
    Ok(())
}

/// Returns the bytes of printable ASCII.
fn printable_bytes() -> ByteSet
    ensures { (b : ℕ) → is_scanned result b ≡ is_printable b }
{
    let mut bytes = ByteSet::empty();
    for byte in b' '..=b'~' {
        bytes.insert(byte);
    }
    bytes
}
