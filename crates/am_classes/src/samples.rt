//! Texts that patterns find. If there are too many classes, these texts may show it soon.
ghost use Rattle.std.specs.Prelude.{◌<◌, IfOk, IsTrue, length, map, string_bytes};
ghost use Rattle.std.specs.List.{AllByRecursion};
ghost use Rattle.am_classes.specs.Alphabet.{is_over};
ghost use Rattle.am_classes.specs.Samples.{AreNoLonger};
ghost use Rattle.am_classes.specs.declared.limits.TheConstants.{MAX_SAMPLE_NUMBERS};

use crate::Alphabet;
use crate::limits::MAX_SAMPLE_NUMBERS;
use am_scan::PatternAutomaton;
use std::alloc::{AllocError, Global};
use std::collections::HashSet;
use std::str::from_utf8;

/// Returns short texts over an alphabet, at most two for each pattern. Most are texts that their
/// patterns find.
pub(crate) fn samples(
    alloc: Global,
    alphabet: Alphabet,
    patterns: &[&str],
    automata: &[PatternAutomaton],
) -> Result<Vec<String>, AllocError>
    ensures { IfOk result (λ texts. AllByRecursion
        (λ text. IsTrue (is_over alphabet text) × (length text < MAX_SAMPLE_NUMBERS))
        (map string_bytes texts.items)) }
{
    let mut texts = Vec::new(alloc);
    for automaton in automata {
        let sample = sample(alloc, automaton)?;
        let Ok(text) = from_utf8(sample.as_slice()) else {
            continue;
        };
        if alphabet.has(text) {
            texts.push(String::from_str(alloc, text)?)?;
        }
    }
    for pattern in patterns {
        let text = plain_part(pattern);
        if text.len() < MAX_SAMPLE_NUMBERS && alphabet.has(text) {
            texts.push(String::from_str(alloc, text)?)?;
        }
    }
    Ok(texts)
}

/// Returns the first part of a pattern between bars that has letters and digits alone, or the empty
/// text if there is none. Nothing is promised about it.
fn plain_part(pattern: &str) -> &str {
    for part in pattern.split('|') {
        if is_plain(part) {
            return part;
        }
    }
    ""
}

/// Whether a text has letters and digits of ASCII alone.
fn is_plain(part: &str) -> bool {
    part.bytes().all(|byte| byte.is_ascii_alphanumeric())
}

/// A number of an automaton, and a text that leads to it.
#[derive(Drop)]
struct Reached {
    number: u32,
    text: Vec<u8>,
}

/// Returns a short text of printable ASCII that a pattern finds, or the empty text if none was
/// found. Nothing is promised about it, but that it is short.
fn sample(alloc: Global, automaton: &PatternAutomaton) -> Result<Vec<u8>, AllocError>
    ensures { IfOk result (λ text. length text.items < MAX_SAMPLE_NUMBERS) }
{
    let number = automaton.end();
    let text = Vec::new(alloc);
    let mut reached = vec![in alloc; Reached { number, text }]?;
    let mut numbers = HashSet::new(alloc);
    numbers.insert(number)?;
    for at in 0..MAX_SAMPLE_NUMBERS {
        if at >= reached.len() {
            return Ok(Vec::new(alloc));
        }
        if automaton.finds(reached[at].number) {
            return reached[at].text.clone();
        }
        reach_more(alloc, automaton, &mut numbers, &mut reached, at)?;
    }
    Ok(Vec::new(alloc))
}

/// Adds the numbers to which a byte leads from a number that was reached, each with a text.
fn reach_more(
    alloc: Global,
    automaton: &PatternAutomaton,
    numbers: &mut HashSet<u32>,
    reached: &mut Vec<Reached>,
    at: usize,
) -> Result<(), AllocError>
    requires { AreNoLonger reached.old.items }
    ensures { AreNoLonger reached.new.items }
{
    for byte in b' '..=b'~' {
        let Some(from) = reached.get(at) else {
            return Ok(());
        };
        let number = automaton.step(from.number, byte);
        if !numbers.insert(number)? {
            continue;
        }
        let mut text = vec![in alloc; byte]?;
        text.extend_from_slice(from.text.as_slice())?;
        reached.push(Reached { number, text })?;
    }
    Ok(())
}
