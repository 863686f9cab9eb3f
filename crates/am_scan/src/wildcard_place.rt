//! The places of a pattern with wildcards, from its start to its end.
ghost use Rattle.std.specs.Prelude.{◌≡◌, ◌++◌, IfOk, OnOk, true, false};
ghost use Rattle.am_scan.specs.WildcardPlaces.{places_from, all_places, is_byte, place_at};

use am_labels::{WildcardPiece, wildcard_alternatives};
use std::alloc::{AllocError, Global};

/// A place of a pattern with wildcards: at a byte, or at the end of an alternative.
#[derive(Clone, Copy, Drop)]
pub(crate) struct WildcardPlace {
    /// The byte; `None` at the end of an alternative.
    pub(crate) byte: Option<u8>,
    /// Whether `.*` stands before the place.
    pub(crate) after_any: bool,
    /// Whether the place is the first of its alternative.
    pub(crate) first: bool,
}

impl WildcardPlace {
    /// Whether this is the place of a byte.
    pub(crate) fn is_byte(&self, byte: u8) -> bool
        ensures { result ≡ is_byte byte self.now }
    {
        match self.byte {
            Some(own) => own == byte,
            None => false,
        }
    }
}

/// Returns the places of a pattern.
pub(crate) fn places_of(alloc: Global, pattern: &str) -> Result<Vec<WildcardPlace>, AllocError>
    ensures { IfOk result (λ places. places.items ≡ all_places pattern.now) }
{
    let alternatives = wildcard_alternatives(alloc, pattern)?;
    let mut places = Vec::new(alloc);
    for pieces in &alternatives {
        push_places(&mut places, pieces.as_slice())?;
    }
    Ok(places)
}

/// Adds the places of an alternative.
fn push_places(places: &mut Vec<WildcardPlace>, pieces: &[WildcardPiece]) -> Result<(), AllocError>
    ensures { OnOk result (places.new.items
        ≡ places.old.items ++ places_from false true pieces.now) }
{
    let mut after_any = false;
    let mut first = true;
    for piece in pieces {
        match *piece {
            WildcardPiece::AnyText => after_any = true,
            WildcardPiece::Byte(byte) => {
                places.push(WildcardPlace {
                    byte: Some(byte),
                    after_any,
                    first,
                })?;
                after_any = false;
                first = false;
            }
        }
    }
    places.push(WildcardPlace {
        byte: None,
        after_any,
        first,
    })?;
    Ok(())
}

/// Returns the place at a position. At a position past the last there is none, and the place that
/// is returned is never marked.
pub(crate) fn place_at(places: &[WildcardPlace], at: usize) -> WildcardPlace
    ensures { result ≡ place_at places.now at }
{
    match places.get(at) {
        Some(place) => *place,
        None => WildcardPlace {
            byte: None,
            after_any: false,
            first: false,
        },
    }
}
