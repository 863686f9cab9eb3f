//! The automata of many patterns at once.

ghost use Rattle.std.specs.Prelude.{◌≡◌, ◌∷◌, ◌++◌, [], List, map, true, IfOk, IfSome, IfNone};
ghost use Rattle.am_labels.specs.Wildcards.{is_wildcards};
ghost use Rattle.am_scan.specs.Automaton.{pattern_of, scanned_bytes};
ghost use Rattle.am_scan.specs.WildcardStates.{HasManyStates};
ghost use Rattle.am_scan.specs.declared.pattern_automaton.PatternAutomaton.{PatternAutomaton};
ghost use Rattle.am_classes.specs.Automata.{AreFor, AreClasses, MakeSame, MayLackAutomaton};

use crate::spare_automata::SpareAutomata;
use am_scan::{ByteSet, PatternAutomaton};
use std::alloc::{AllocError, Global};

/// Makes the automata of patterns, for texts that have only these bytes, or takes spare ones.
/// Returns `None` if one of the patterns has no automaton.
pub(crate) fn automata_of(
    alloc: Global,
    bytes: ByteSet,
    patterns: &[&str],
    spare: &mut SpareAutomata<'_>,
) -> Result<Option<Vec<PatternAutomaton>>, AllocError>
    ensures some { IfOk result (λ found. IfSome found (λ automata.
        map pattern_of automata.items ≡ map (λ p. p.now) patterns.now)) }
    ensures fit { IfOk result (λ found. IfSome found (λ automata. AreFor bytes automata.items)) }
    ensures none { IfOk result (λ found. IfNone found
        (MayLackAutomaton (map (λ p. p.now) patterns.now))) }
{
    let mut automata = Vec::with_capacity(alloc, patterns.len())?;
    for pattern in patterns {
        let Some(automaton) = automaton_of(alloc, bytes, pattern, spare)? else {
            return Ok(None);
        };
        automata.push(automaton)?;
    }
    Ok(Some(automata))
}

/// Makes the automaton of a pattern, for texts that have only these bytes, or takes a spare one.
/// Returns `None` if the pattern has no automaton.
fn automaton_of(
    alloc: Global,
    bytes: ByteSet,
    pattern: &str,
    spare: &mut SpareAutomata<'_>,
) -> Result<Option<PatternAutomaton>, AllocError>
    ensures pattern { IfOk result (λ found. IfSome found
        (λ automaton. pattern_of automaton ≡ pattern.now)) }
    ensures bytes { IfOk result (λ found. IfSome found
        (λ automaton. scanned_bytes automaton ≡ bytes)) }
    ensures none { IfOk result (λ found. IfNone found
        (is_wildcards pattern.now ≡ true → HasManyStates pattern.now)) }
{
    if let Some(automaton) = spare.take(pattern, &bytes) {
        return Ok(Some(automaton));
    }
    PatternAutomaton::of(alloc, pattern, bytes)
}

/// For each byte, finds the first byte that every pattern treats like it.
pub(crate) fn byte_classes(automata: &[PatternAutomaton]) -> [u8; 256]
    ensures { AreClasses automata.now result }
{
    let mut classes = [0; 256];
    for automaton in automata {
        classes = split_classes(automaton, &classes);
    }
    classes
}

/// Returns the classes of bytes for some patterns and a further one, from those for the patterns.
fn split_classes(automaton: &PatternAutomaton, classes: &[u8; 256]) -> [u8; 256]
    ensures { (automata : List PatternAutomaton) → AreClasses automata classes.now
        → AreClasses (automata ++ automaton.now ∷ []) result }
{
    let mut split = [0; 256];
    for byte in 0..=u8::MAX {
        split[usize::from(byte)] = first_alike(automaton, classes, byte);
    }
    split
}

/// Returns the first byte of the class of a byte that a further pattern treats like it.
fn first_alike(automaton: &PatternAutomaton, classes: &[u8; 256], byte: u8) -> u8
    ensures { (automata : List PatternAutomaton) → AreClasses automata classes.now
        → MakeSame (automata ++ automaton.now ∷ []) result byte }
{
    let class = classes[usize::from(byte)];
    for one in class..byte {
        if classes[usize::from(one)] == class && automaton.are_alike(one, byte) {
            return one;
        }
    }
    byte
}
