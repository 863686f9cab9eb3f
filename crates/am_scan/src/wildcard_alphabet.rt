//! Which bytes a pattern with wildcards tells apart.
ghost use Rattle.std.specs.Prelude.{◌≡◌, ℕ, ◌≤◌, false, IfOk, vec_len};
ghost use Rattle.std.specs.List.{list_any};
ghost use Rattle.am_scan.specs.WildcardPlaces.{is_byte, is_symbol, HasClass};

use crate::wildcard_place::WildcardPlace;
use std::alloc::{AllocError, Global};

/// The bytes that a pattern tells apart, and the class of each byte.
#[derive(Drop)]
pub(crate) struct Alphabet {
    /// For each class, a byte of it. The first class is that of all bytes that are no symbols.
    pub(crate) symbols: Vec<u8>,
    /// The class of each byte of ASCII. Other bytes are of the first class.
    pub(crate) classes: Vec<u8>,
}

impl Alphabet {
    /// Gives each symbol of some places a class of its own. Only bytes of ASCII may be symbols.
    pub(crate) fn of(alloc: Global, places: &[WildcardPlace]) -> Result<Alphabet, AllocError>
        requires { (b : ℕ) → 128 ≤ b → is_symbol places.now b ≡ false }
        ensures few { IfOk result (λ alphabet. vec_len alphabet.symbols ≤ 129) }
        ensures classes { IfOk result (λ alphabet.
            (b : ℕ) → HasClass places.now alphabet.symbols.items alphabet.classes.items b) }
    {
        let mut symbols = vec![in alloc; u8::MAX]?;
        let mut classes = Vec::with_capacity(alloc, 128)?;
        for byte in 0..128 {
            if is_symbol(places, byte) {
                classes.push(symbols.len() as u8)?;
                symbols.push(byte)?;
            } else {
                classes.push(0)?;
            }
        }
        Ok(Alphabet { symbols, classes })
    }
}

/// Whether a byte is a symbol: some places treat it differently from most bytes.
fn is_symbol(places: &[WildcardPlace], byte: u8) -> bool
    ensures { result ≡ is_symbol places.now byte }
{
    byte == b'\n' || is_at_a_place(places, byte)
}

/// Whether some place is that of a byte.
fn is_at_a_place(places: &[WildcardPlace], byte: u8) -> bool
    ensures { result ≡ list_any (is_byte byte) places.now }
{
    places.iter().any(|place| place.is_byte(byte))
}
