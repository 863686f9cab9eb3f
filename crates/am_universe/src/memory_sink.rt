ghost use Rattle.std.specs.Prelude.{◌≡◌, []};

use crate::{History, Kind, Sink};
use std::alloc::Global;

/// A sink in memory. A take fails only if memory runs out.
///
/// The bytes taken are exactly those in memory. An `Out` promises less: its contracts refer to its
/// writer at the start, and a call over any sink does not promise that this start stays the same.
#[derive(Drop)]
pub struct MemorySink {
    pub bytes: Vec<u8>,
    refusals: History<Kind>,
}

impl MemorySink {
    /// A sink that has taken nothing yet. Takes no memory.
    pub fn new(alloc: Global) -> MemorySink
        ensures nothing { result.bytes.items ≡ [] }
    {
        MemorySink {
            bytes: Vec::new(alloc),
            refusals: History::new(),
        }
    }
}

impl Sink for MemorySink {
    ghost use Rattle.std.specs.Prelude.{length};

    ghost taken = { λ sink. sink.bytes.items };

    ghost failures = { λ sink. length sink.refusals.items };

    fn take(&mut self, bytes: &[u8]) -> Result<usize, Kind> {
        match self.bytes.extend_from_slice(bytes) {
            Ok(()) => Ok(bytes.len()),
            Err(_) => {
                self.refusals = self.refusals.followed_by(&[Kind::Write]);
                Err(Kind::Write)
            }
        }
    }
}
