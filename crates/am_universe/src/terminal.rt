ghost use Rattle.std.specs.Prelude.{◌≡◌, ◌≤◌, []};
ghost use Rattle.am_universe.specs.Shown.{Shows};

use crate::hidden::{hidden_len, plain_len, write_escape};
use crate::{History, Kind, Sink};
use std::io::{self, ErrorKind, Write};
use std::snapshot::Snapshot;

/// A sink in front of one that may lead to a terminal. To a terminal it shows each hidden character
/// as an escape, as `\u{1b}`.
///
/// A hidden character is one that could change the terminal, or the order in which it shows the
/// others. It is found if one take is offered all of its bytes: `put_all` offers all that is left.
#[derive(Drop)]
pub struct Terminal<S: Sink> {
    inner: S,
    hides: bool,
    start: Snapshot<S>,
    taken: History<u8>,
    ghost no_failure_undone: { S.failures start.value ≤ S.failures inner },
    ghost shows: { S.failures inner ≡ S.failures start.value →
        ∥ Shows hides (S.taken start.value) taken.items (S.taken inner) ∥₁ },
}

impl<S: Sink> Terminal<S> {
    /// A sink in front of another one. `hides` says that this one leads to a terminal.
    pub fn new(inner: S, hides: bool) -> Terminal<S>
        ensures nothing { result.taken.items ≡ [] }
        ensures start { result.start.value ≡ inner }
        ensures hides { result.hides ≡ hides }
    {
        let start = Snapshot::of(&inner);
        Terminal {
            inner,
            hides,
            start,
            taken: History::new(),
        }
    }

    /// Returns the inner sink. If no take of it failed, it took what is shown of all the bytes.
    pub fn into_inner(self) -> S
        ensures shown { S.failures result ≡ S.failures self.start.value →
            ∥ Shows self.hides (S.taken self.start.value) self.taken.items (S.taken result) ∥₁ }
    {
        self.inner
    }
}

impl<S: Sink> Sink for Terminal<S> {
    ghost taken = { λ sink. sink.taken.items };

    ghost failures = { λ sink. S.failures sink.inner };

    fn take(&mut self, bytes: &[u8]) -> Result<usize, Kind> {
        let plain = plain_len(self.hides, bytes);
        if plain == 0 {
            let hidden = hidden_len(bytes);
            write_escape(&mut self.inner, &bytes[..hidden])?;
            self.taken = self.taken.followed_by(&bytes[..hidden]);
            return Ok(hidden);
        }
        let count = self.inner.take(&bytes[..plain])?;
        self.taken = self.taken.followed_by(&bytes[..count]);
        Ok(count)
    }
}

impl<S: Sink> Write for Terminal<S> {
    fn write(&mut self, bytes: &[u8]) -> io::Result<usize> {
        if bytes.is_empty() {
            return Ok(0);
        }
        self.take(bytes)
            .map_err(|_| io::Error::from(ErrorKind::WriteZero))
    }

    /// Nothing is kept back.
    fn flush(&mut self) -> io::Result<()> {
        Ok(())
    }
}
