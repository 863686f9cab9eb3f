//! A program, the files that it can read, its standard input and its clock. The files are those
//! that a case makes, those that the file of cases defines, and otherwise those of the system.

ghost use Rattle.std.specs.Prelude.{◌≡◌, ◌+◌, IfOk, string_len};

use crate::inserts::{Named, text_named};
use std::alloc::{Allocator, Global};
use std::fs::{Metadata, OpenFile, OpenOptions};
use std::io;
use std::io::{BufRead, Cursor, ErrorKind, Lines, Read, Seek, SeekFrom, Write};
use std::rt::{Clock, Files};
use std::time::Duration;

/// The clock's instant, 2024-05-01T10:30:00.000000001Z, in seconds and nanoseconds since 1970.
const CLOCK: (u64, u32) = (1714559400, 1);

/// A program, and what it can read: files, standard input and the clock.
#[derive(Drop)]
pub struct Stage<'s, R, P> {
    pub host: &'s R,
    pub program: &'s P,
    /// The files that a case makes. They come before others of the same name.
    pub made: &'s [Named],
    /// The files that the file of cases defines.
    pub files: &'s [Named],
    /// Whether the clock cannot be read.
    pub clock_fails: bool,
}

/// An open file: one of the case, or one of the system.
#[derive(Drop)]
pub enum Opened<'s, F> {
    Shown(Cursor<&'s [u8]>),
    Host(F),
}

impl<'s, R, P> Stage<'s, R, P> {
    /// The bytes of a file of the case.
    fn shown(&self, path: &str) -> Option<&'s [u8]> {
        let name = path.as_bytes();
        text_named(self.made, name).or(text_named(self.files, name))
    }
}

fn unsupported<T>() -> io::Result<T> {
    Err(io::Error::from(ErrorKind::Unsupported))
}

impl<'s, R: AllocGlobal, P> Alloc for Stage<'s, R, P> {
    type A = Global;

    fn alloc(&self) -> Global {
        self.host.alloc()
    }
}

impl<'s, R: Files, P> Files for Stage<'s, R, P> {
    type File = Opened<'s, R::File>;

    type Dir = R::Dir;

    fn open_file(&self, how: &OpenOptions, path: &str) -> io::Result<Opened<'s, R::File>> {
        match self.shown(path) {
            Some(bytes) => Ok(Opened::Shown(Cursor::new(bytes))),
            None => Ok(Opened::Host(self.host.open_file(how, path)?)),
        }
    }

    fn open_dir(&self, path: &str) -> io::Result<Self::Dir> {
        self.host.open_dir(path)
    }

    fn metadata(&self, _path: &str) -> io::Result<Metadata> {
        unsupported()
    }

    fn symlink_metadata(&self, _path: &str) -> io::Result<Metadata> {
        unsupported()
    }

    fn copy(&self, _from: &str, _to: &str) -> io::Result<u64> {
        unsupported()
    }

    fn rename(&self, _from: &str, _to: &str) -> io::Result<()> {
        unsupported()
    }

    fn remove_file(&self, _path: &str) -> io::Result<()> {
        unsupported()
    }

    fn create_dir(&self, _path: &str) -> io::Result<()> {
        unsupported()
    }

    fn remove_dir(&self, _path: &str) -> io::Result<()> {
        unsupported()
    }

    fn remove_dir_all<B: Allocator>(&self, _alloc: B, _path: &str) -> io::Result<()> {
        unsupported()
    }
}

/// Standard input is the file `-` of the case, or empty.
impl<'s, R: Files, P> Input for Stage<'s, R, P> {
    type Reader = Cursor<&'s [u8]>;

    fn read_line<A: Allocator + Clone>(&self, buf: &mut String<A>) -> io::Result<usize>
        ensures ok { IfOk result (λ n. string_len buf.new ≡ string_len buf.old + n) }
    {
        self.reader().read_line(buf)
    }

    fn lines<A: Allocator>(&self, alloc: A) -> Lines<Cursor<&'s [u8]>, A> {
        self.reader().lines(alloc)
    }

    fn reader(&self) -> Cursor<&'s [u8]> {
        Cursor::new(self.shown("-").unwrap_or(b""))
    }
}

impl<'s, R: Files, P> Clock for Stage<'s, R, P> {
    fn monotonic(&self) -> io::Result<Duration> {
        unsupported()
    }

    fn since_1970(&self) -> io::Result<Duration> {
        if self.clock_fails {
            return unsupported();
        }
        let (seconds, nanoseconds) = CLOCK;
        Ok(Duration::new(seconds, nanoseconds))
    }
}

impl<'s, F: Read> Read for Opened<'s, F> {
    fn read(&mut self, buf: &mut [u8]) -> io::Result<usize> {
        match self {
            Opened::Shown(bytes) => bytes.read(buf),
            Opened::Host(file) => file.read(buf),
        }
    }
}

impl<'s, F> Write for Opened<'s, F> {
    fn write(&mut self, _bytes: &[u8]) -> io::Result<usize> {
        Err(io::Error::from(ErrorKind::Unsupported))
    }

    fn flush(&mut self) -> io::Result<()> {
        unsupported()
    }
}

impl<'s, F> Seek for Opened<'s, F> {
    fn seek(&mut self, _to: SeekFrom) -> io::Result<u64> {
        unsupported()
    }
}

impl<'s, F> OpenFile for Opened<'s, F> {
    fn metadata(&self) -> io::Result<Metadata> {
        unsupported()
    }

    fn set_len(&self, _size: u64) -> io::Result<()> {
        unsupported()
    }

    fn sync_all(&self) -> io::Result<()> {
        unsupported()
    }

    fn sync_data(&self) -> io::Result<()> {
        unsupported()
    }
}
