//! Instants.
//!
//! An instant is kept as a number, and not as `jiff` keeps it. A check of a crate loads all that is
//! proved of the libraries that its statements name, and `jiff` is larger than all others together.

ghost use Rattle.std.specs.Prelude.{◌≡◌, Some, None, IfOk, IfErr};
ghost use Rattle.am_universe.specs.declared.kind.Kind.TheVariants as kinds;
ghost use Rattle.am_list_files.specs.Instant.{instant_of};

use am_universe::Kind;
use std::alloc::Global;

/// An instant, to the nanosecond. Instants are ordered by time.
#[derive(Clone, Copy, Debug, PartialEq, Eq, PartialOrd, Ord)]
pub struct Timestamp {
    nanosecond: i128,
}

impl Timestamp {
    /// The nanoseconds since 1970-01-01T00:00:00Z. Before it, they are negative.
    pub fn nanosecond(self) -> i128
        ensures nanosecond { result ≡ self.nanosecond }
    {
        self.nanosecond
    }
}

/// Reads an instant (RFC 3339, section 5.6): a date, a time, and `Z` or an offset.
///
/// An example is `2024-05-01T10:00:00Z`. Every text is accepted that `jiff` reads as an instant:
/// a second 60 is the second 59, a fraction has at most nine digits, and a zone in brackets at the
/// end is ignored. Fails with `BadTime` exactly if `jiff` reads no instant. Takes no memory today,
/// so `Memory` never comes. A later version of `jiff` may need memory, and callers need not change.
#[tactic(auto, using(crate::specs::Instant::Reading::instant_read))]
pub fn parse_instant(_alloc: Global, text: &str) -> Result<Timestamp, Kind>
    ensures read { IfOk result (λ t. instant_of text.now ≡ Some t.nanosecond) }
    ensures refused { IfErr result (λ kind.
        (kind ≡ kinds.BadTime) × (instant_of text.now ≡ None)) }
{
    match text.parse::<jiff::Timestamp>() {
        Ok(instant) => Ok(Timestamp {
            nanosecond: instant.as_nanosecond(),
        }),
        Err(_) => Err(Kind::BadTime),
    }
}
