//! A fingerprint in digits: two for each byte, `0` to `9` and `a` to `f`.

ghost use Rattle.std.specs.Prelude.{◌≡◌, ◌≢◌, ℕ, List, MatchOption};
ghost use Rattle.hex.specs.Hex.{encode_lower};
ghost use Rattle.am_search.specs.Token.{IsFingerprint};

use hex::FromHex;

/// The digits of a fingerprint.
pub(crate) fn digits_of(fingerprint: &[u8; 16]) -> [u8; 32]
    ensures { result ≡ encode_lower fingerprint.now }
{
    let mut digits = [0; 32];
    // There is room for two digits a byte.
    let _ = hex::encode_to_slice(fingerprint.as_slice(), &mut digits);
    digits
}

/// Returns the fingerprint with these digits, or `None` if no fingerprint has them.
pub(crate) fn parse_digits(text: &str) -> Option<[u8; 16]>
    ensures { MatchOption result
        ((bytes : List ℕ) → IsFingerprint bytes → encode_lower bytes ≢ text.now)
        (λ bytes. IsFingerprint bytes × (encode_lower bytes ≡ text.now)) }
{
    let fingerprint = <[u8; 16] as FromHex>::from_hex(text).ok()?;
    // `from_hex` reads `A` to `F` too.
    if digits_of(&fingerprint).as_slice() == text.as_bytes() {
        Some(fingerprint)
    } else {
        None
    }
}
