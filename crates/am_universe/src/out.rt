ghost use Rattle.std.specs.Prelude.{◌≡◌, ◌++◌, [], Some, IfSome};
ghost use Rattle.std.specs.Option.{ForSome};

use crate::{History, Kind, Sink};
use std::io::Write;
use std::snapshot::Snapshot;

/// A sink over any writer. A write that returns an error or takes no byte is a failed take.
///
/// The bytes taken are those that the writer said it took. If the writer's contracts say what it
/// holds, this content has grown by exactly these bytes.
#[derive(Drop)]
pub struct Out<W: Write> {
    writer: W,
    start: Snapshot<W>,
    taken: History<u8>,
    failures: History<Kind>,
    ghost writer_holds: { ForSome (W.contents start.value) (λ held.
        W.contents writer ≡ Some (held ++ taken.items)) },
}

impl<W: Write> Out<W> {
    ghost use Rattle.am_universe.specs.Out.{out_taken, out_failures, out_start};

    /// A sink over the writer, which has taken nothing yet.
    pub fn new(writer: W) -> Out<W>
        ensures nothing { out_taken result ≡ [] }
        ensures no_failure { out_failures result ≡ 0 }
        ensures start { out_start result ≡ writer }
    {
        let start = Snapshot::of(&writer);
        Out {
            writer,
            start,
            taken: History::new(),
            failures: History::new(),
        }
    }

    /// Returns the writer as it is now.
    pub fn into_inner(self) -> W
        ensures contents { IfSome (W.contents (out_start self)) (λ held.
            W.contents result ≡ Some (held ++ out_taken self)) }
    {
        self.writer
    }
}

impl<W: Write> Sink for Out<W> {
    ghost use Rattle.am_universe.specs.Out.{out_taken, out_failures};

    ghost taken = { out_taken };

    ghost failures = { out_failures };

    fn take(&mut self, bytes: &[u8]) -> Result<usize, Kind> {
        match self.writer.write(bytes) {
            Ok(0) | Err(_) => {
                self.failures = self.failures.followed_by(&[Kind::Write]);
                Err(Kind::Write)
            }
            Ok(count) => {
                self.taken = self.taken.followed_by(&bytes[..count]);
                Ok(count)
            }
        }
    }
}
