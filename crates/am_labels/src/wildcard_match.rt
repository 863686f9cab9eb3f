//! Whether a pattern that has wildcards alone matches a text. This takes no memory. A `.*` that has
//! led to a later one is not tried again, so the time grows with the product of the two lengths.

ghost use Rattle.std.specs.Prelude.{◌≡◌, ◌<◌, ◌≤◌, length};
ghost use Rattle.am_labels.specs.Wildcards.{after_any, matches, pieces_of, wildcards_find};
ghost use Rattle.am_labels.specs.WildcardFront.{IsFront, IsShorter};

use crate::wildcards::{WildcardPiece, first_piece};

/// How an alternative of a pattern and a text begin.
#[derive(Clone, Copy)]
enum Front<'a> {
    /// The alternative has no `.*`, and is the text.
    Whole,
    /// They differ before the first `.*`.
    Differs,
    /// They are the same up to the first `.*` of the alternative, behind which are these.
    AtAnyText {
        alternative: &'a [u8],
        text: &'a [u8],
    },
}

/// Whether a pattern that has wildcards alone matches a text.
pub(crate) fn wildcards_find(pattern: &str, text: &str) -> bool
    ensures { result ≡ wildcards_find pattern.now text.now }
{
    pattern.split('|').any(|alternative| alternative_matches(
        alternative.as_bytes(),
        text.as_bytes(),
    ))
}

/// Whether an alternative matches a text.
fn alternative_matches(alternative: &[u8], text: &[u8]) -> bool
    ensures { result ≡ matches (pieces_of alternative.now) text.now }
{
    match compare_fronts(alternative, text) {
        Front::Whole => true,
        Front::Differs => false,
        Front::AtAnyText { alternative, text } => matches_behind_any(alternative, text),
    }
}

/// Whether `.*` and what follows it match a text.
fn matches_behind_any<'a>(mut alternative: &'a [u8], mut text: &'a [u8]) -> bool
    ensures { result ≡ after_any (matches (pieces_of alternative.now)) text.now }
{
    loop {
        match compare_fronts(alternative, text) {
            Front::Whole => return true,
            Front::Differs => {
                let [byte, rest @ ..] = text else {
                    return false;
                };
                if *byte == b'\n' {
                    return false;
                }
                text = rest;
            }
            Front::AtAnyText {
                alternative: behind,
                text: rest,
            } => {
                alternative = behind;
                text = rest;
            }
        }
    }
}

/// Compares an alternative with a text, up to the first `.*`.
fn compare_fronts<'a>(mut alternative: &'a [u8], mut text: &'a [u8]) -> Front<'a>
    ensures front { IsFront alternative.now text.now result }
    ensures shorter { IsShorter alternative.now text.now result }
{
    while let Some((piece, pieces)) = first_piece(alternative) {
        let WildcardPiece::Byte(byte) = piece else {
            return Front::AtAnyText {
                alternative: pieces,
                text,
            };
        };
        let [first, rest @ ..] = text else {
            return Front::Differs;
        };
        if *first != byte {
            return Front::Differs;
        }
        alternative = pieces;
        text = rest;
    }
    if text.is_empty() {
        Front::Whole
    } else {
        Front::Differs
    }
}
