//! Patterns that are made of plain characters, `.*` and the bar, such as `db.*|web`.
//!
//! What such a pattern finds can be said without the grammar of patterns, and without an engine.

ghost use Rattle.std.specs.Prelude.{◌≡◌, ◌<◌, [], ◌∷◌, IfOk, IfSome, MatchOption, length, map};
ghost use Rattle.std.specs.List.{list_all};
ghost use Rattle.am_labels.specs.Wildcards.{alternatives, is_alternation, is_fine_piece, is_plain};
ghost use Rattle.am_labels.specs.Wildcards.{is_wildcards, pieces_of};

use std::alloc::{AllocError, Global};

/// A piece of an alternative of a pattern.
#[derive(Clone, Copy, Debug, PartialEq, Eq, Drop)]
pub enum WildcardPiece {
    /// A byte of a character that stands for itself.
    Byte(u8),
    /// `.*`, which matches any characters but line feeds.
    AnyText,
}

/// Whether a pattern is an alternation of plain texts.
pub fn is_alternation(pattern: &str) -> bool
    ensures { result ≡ is_alternation pattern.now }
{
    pattern
        .as_bytes()
        .iter()
        .all(|byte| *byte == b'|' || is_plain(*byte))
}

/// Whether a byte is a character that stands for itself in a pattern.
fn is_plain(byte: u8) -> bool
    ensures { result ≡ is_plain byte }
{
    byte.is_ascii() && !b"\\.+*?()|[]{}^$".contains(&byte)
}

/// Whether a pattern has wildcards alone: it is made of plain characters, `.*` and the bar.
pub fn is_wildcards(alloc: Global, pattern: &str) -> Result<bool, AllocError>
    ensures { IfOk result (λ is. is ≡ is_wildcards pattern.now) }
{
    let alternatives = wildcard_alternatives(alloc, pattern)?;
    Ok(alternatives.iter().all(|pieces| are_fine_pieces(pieces)))
}

/// Whether each piece is `.*`, or a character that stands for itself.
fn are_fine_pieces(pieces: &[WildcardPiece]) -> bool
    ensures { result ≡ list_all is_fine_piece pieces.now }
{
    pieces.iter().all(|piece| is_fine_piece(*piece))
}

/// Whether a piece is `.*`, or a character that stands for itself.
fn is_fine_piece(piece: WildcardPiece) -> bool
    ensures { result ≡ is_fine_piece piece }
{
    match piece {
        WildcardPiece::Byte(byte) => is_plain(byte),
        WildcardPiece::AnyText => true,
    }
}

/// Returns the pieces of each alternative of a pattern.
pub fn wildcard_alternatives(
    alloc: Global,
    pattern: &str,
) -> Result<Vec<Vec<WildcardPiece>>, AllocError>
    ensures { IfOk result (λ found. map (λ a. a.items) found.items
        ≡ map pieces_of (alternatives pattern.now)) }
{
    let mut found = Vec::new(alloc);
    for alternative in pattern.split('|') {
        found.push(pieces_of(alloc, alternative.as_bytes())?)?;
    }
    Ok(found)
}

/// Returns the pieces of an alternative.
fn pieces_of(alloc: Global, mut text: &[u8]) -> Result<Vec<WildcardPiece>, AllocError>
    ensures { IfOk result (λ pieces. pieces.items ≡ pieces_of text.now) }
{
    let mut pieces = Vec::with_capacity(alloc, text.len())?;
    while let Some((piece, rest)) = first_piece(text) {
        pieces.push(piece)?;
        text = rest;
    }
    Ok(pieces)
}

/// Returns the first piece of an alternative, and what is behind it.
pub(crate) fn first_piece(text: &[u8]) -> Option<(WildcardPiece, &[u8])>
    ensures first { MatchOption result (text.now ≡ [])
        (λ found. pieces_of text.now ≡ found.0 ∷ pieces_of found.1.now) }
    ensures shorter { IfSome result (λ found. length found.1.now < length text.now) }
{
    match text {
        [] => None,
        [b'.', b'*', rest @ ..] => Some((WildcardPiece::AnyText, rest)),
        [byte, rest @ ..] => Some((WildcardPiece::Byte(*byte), rest)),
    }
}
