//! Reading the files that a command line names.

use am_command_line::{Call, CommandLine, STANDARD_INPUT};
use am_json::limits::MAX_FILE_BYTES;
use am_universe::Place;
use std::alloc::Global;
use std::io::Read;
use std::rt::Files;
use std::{fs, io};

/// The most bytes that are read from a file: one more than a file may have.
const MAX_BYTES_READ: usize = MAX_FILE_BYTES + 1;

const CHUNK: usize = 65536;

/// A file that could not be read, its path, and what the system said.
#[derive(Drop)]
pub struct Unread<'a> {
    pub place: Place,
    pub path: &'a str,
    pub error: io::Error,
}

/// Reads the files that a command line names, in the order in which commands look at them.
pub fn read_files<'a, R: Files + Input + AllocGlobal>(
    rt: &R,
    line: CommandLine<'a, &'a str>,
) -> Result<Call<'a>, Unread<'a>> {
    Ok(CommandLine {
        universe: read_input(rt, line.universe, Place::Universe)?,
        config: read_input(rt, line.config, Place::Config)?,
        old: read_input(rt, line.old, Place::Old)?,
        new: read_input(rt, line.new, Place::New)?,
        silences: read_input(rt, line.silences, Place::Silences)?,
        alerts: read_input(rt, line.alerts, Place::Alerts)?,
        rules: read_input(rt, line.rules, Place::Rules)?,
        request: line.request,
        at: line.at,
        json: line.json,
        notes: line.notes,
    })
}

/// Reads an optional input file.
fn read_input<'a, R: Files + Input + AllocGlobal>(
    rt: &R,
    path: Option<&'a str>,
    place: Place,
) -> Result<Option<Vec<u8>>, Unread<'a>> {
    let Some(path) = path else {
        return Ok(None);
    };
    match read_file(rt, path) {
        Ok(bytes) => Ok(Some(bytes)),
        Err(error) => Err(Unread { place, path, error }),
    }
}

/// Reads a file, or standard input, up to one byte more than a file may have. A read that fails is
/// not tried again.
fn read_file<R: Files + Input + AllocGlobal>(rt: &R, path: &str) -> io::Result<Vec<u8>> {
    if path == STANDARD_INPUT {
        return read_from(rt.alloc(), &mut rt.reader());
    }
    read_from(rt.alloc(), &mut fs::open(rt, path)?)
}

fn read_from<F: Read>(alloc: Global, file: &mut F) -> io::Result<Vec<u8>> {
    let mut bytes = Vec::new(alloc);
    let mut chunk = [0u8; CHUNK];
    for _ in 0..MAX_BYTES_READ {
        let wanted = (MAX_BYTES_READ - bytes.len()).min(CHUNK);
        let count = file.read(&mut chunk[..wanted])?;
        if count == 0 {
            break;
        }
        bytes.extend_from_slice(&chunk[..count])?;
    }
    Ok(bytes)
}
