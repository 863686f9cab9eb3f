//! Writers that stop.

use std::alloc::Global;
use std::io;
use std::io::{ErrorKind, Write};

/// What a writer does in the call in which it stops.
#[derive(Clone, Copy, Debug)]
pub enum Stop {
    Fails,
    TakesNothing,
}

/// How a writer behaves.
#[derive(Clone, Copy)]
pub struct Manner {
    /// The most bytes that one call takes.
    pub step: usize,
    /// How many bytes it takes before every call fails.
    pub room: usize,
    pub flush_fails: bool,
    /// The call, counted from 1, in which it stops, and how.
    pub stop: Option<(usize, Stop)>,
}

impl Manner {
    /// A writer that takes everything.
    pub const WHOLE: Manner = Manner {
        step: usize::MAX,
        room: usize::MAX,
        flush_fails: false,
        stop: None,
    };

    /// The same manner, but the writer stops in this call.
    pub fn stopped(self, call: usize, how: Stop) -> Manner {
        Manner {
            stop: Some((call, how)),
            ..self
        }
    }
}

/// A writer that keeps what it takes and counts the calls.
#[derive(Drop)]
pub struct Writer {
    pub taken: Vec<u8>,
    pub calls: usize,
    /// Whether memory ran out for the bytes to keep.
    pub starved: bool,
    manner: Manner,
}

impl Writer {
    pub fn new(alloc: Global, manner: Manner) -> Writer {
        Writer {
            taken: Vec::new(alloc),
            calls: 0,
            starved: false,
            manner,
        }
    }

    fn keep(&mut self, bytes: &[u8]) -> io::Result<()> {
        if self.taken.extend_from_slice(bytes).is_err() {
            self.starved = true;
            return Err(io::Error::from(ErrorKind::OutOfMemory));
        }
        self.manner.room = self.manner.room.saturating_sub(bytes.len());
        Ok(())
    }
}

impl Write for Writer {
    fn write(&mut self, bytes: &[u8]) -> io::Result<usize> {
        self.calls = self.calls.saturating_add(1);
        match self.manner.stop {
            Some((call, Stop::Fails)) if call == self.calls => {
                return Err(io::Error::from(ErrorKind::Other));
            }
            Some((call, Stop::TakesNothing)) if call == self.calls => return Ok(0),
            _ => {}
        }
        let count = bytes.len().min(self.manner.step).min(self.manner.room);
        if count == 0 && !bytes.is_empty() {
            return Err(io::Error::from(ErrorKind::Other));
        }
        self.keep(&bytes[..count])?;
        Ok(count)
    }

    fn flush(&mut self) -> io::Result<()> {
        if self.manner.flush_fails {
            return Err(io::Error::from(ErrorKind::Other));
        }
        Ok(())
    }
}
