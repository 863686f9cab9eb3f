ghost use Rattle.std.specs.Prelude.{◌≡◌, ◌++◌, ℕ, List, take, option_copied};
ghost use Rattle.sha2.specs.Hashers.{Holds256};
ghost use Rattle.am_fingerprint.specs.Fingerprint.{fingerprint_of, part_bytes, parts_of};

use crate::limits::FINGERPRINT_BYTES;
use crate::parts::Parts;
use sha2::{Digest, Sha256};

/// The fingerprint of the parts: the first bytes of the SHA-256 digest (FIPS 180-4) of the parts
/// joined.
///
/// Each part counts, and so does whether an optional part is given. Takes no memory.
pub fn fingerprint(parts: &Parts<'_>) -> [u8; FINGERPRINT_BYTES]
    ensures fingerprint { result ≡ fingerprint_of (parts_of parts.now) }
{
    let mut hasher = Sha256::new();
    add_part(&mut hasher, Some(parts.universe));
    add_part(&mut hasher, parts.config);
    add_part(&mut hasher, parts.silences);
    add_part(&mut hasher, parts.alerts);
    add_part(&mut hasher, parts.instant.map(str::as_bytes));
    add_part(&mut hasher, Some(parts.question.as_bytes()));
    front_of(&hasher.finalize())
}

/// Adds a part to the message that is digested. Its length comes before its bytes, so that the
/// bytes of a part are never taken for those of the next one.
fn add_part(hasher: &mut Sha256, part: Option<&[u8]>)
    ensures { (message : List ℕ) → Holds256 hasher.old message
        → Holds256 hasher.new (message ++ part_bytes (option_copied part.entry)) }
{
    match part {
        None => hasher.update([0]),
        Some(bytes) => {
            hasher.update([1]);
            hasher.update((bytes.len() as u64).to_be_bytes());
            hasher.update(bytes);
        }
    }
}

/// The first bytes of a digest.
fn front_of(digest: &[u8; 32]) -> [u8; FINGERPRINT_BYTES]
    ensures { result ≡ take FINGERPRINT_BYTES digest.now }
{
    let mut front = [0; FINGERPRINT_BYTES];
    front.copy_from_slice(&digest[..FINGERPRINT_BYTES]);
    front
}
