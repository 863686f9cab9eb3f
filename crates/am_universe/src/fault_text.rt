#![tactic(auto, using(crate::proofs::Writing::steps))]

ghost use Rattle.std.specs.Prelude.{◌≡◌, IfOk};
ghost use Rattle.am_universe.specs.Sink.{Writes};
ghost use Rattle.am_universe.specs.FaultText.{fault_text, has_no_place, place_part};
ghost use Rattle.am_universe.specs.FaultText.{pointer_byte_text, pointer_part, status_of};

use crate::memory_sink::MemorySink;
use crate::{Fault, Kind, Out, Sink, put_all, put_str};
use std::alloc::{AllocError, Global};
use std::io::Write;

/// Writes the line for a fault, as `amcover: universe: /labels/0/name: shape`.
///
/// A fault of memory or of writing has only its word, as `amcover: memory`. In a pointer, `\` is
/// written `\\` and a line feed `\n`. Fails only with `Kind::Write`; what was written is then a
/// proper prefix of the line. Takes no memory.
pub fn write_fault<W: Sink>(fault: &Fault, out: &mut W) -> Result<(), Kind>
    ensures written { Writes W.taken W.failures out.old out.new (fault_text fault.now) result }
{
    put_all(out, b"amcover: ")?;
    write_place_part(fault, out)?;
    put_str(out, fault.kind.text())?;
    put_all(out, b"\n")
}

/// Writes the place and the pointer of a fault; nothing for a fault of writing or of memory.
fn write_place_part<W: Sink>(fault: &Fault, out: &mut W) -> Result<(), Kind>
    ensures { Writes W.taken W.failures out.old out.new (place_part fault.now) result }
{
    if has_no_place(fault.kind) {
        return Ok(());
    }
    put_str(out, fault.place.text())?;
    put_all(out, b": ")?;
    write_pointer(fault.pointer.as_str(), out)
}

/// Whether a fault of this kind is at no part of the input.
fn has_no_place(kind: Kind) -> bool
    ensures { result ≡ has_no_place kind }
{
    matches!(kind, Kind::Write | Kind::Memory)
}

/// Writes a pointer and the separator after it; nothing for the empty pointer.
fn write_pointer<W: Sink>(pointer: &str, out: &mut W) -> Result<(), Kind>
    ensures { Writes W.taken W.failures out.old out.new (pointer_part pointer.now) result }
{
    if pointer.is_empty() {
        return Ok(());
    }
    for byte in pointer.as_bytes() {
        write_pointer_byte(*byte, out)?;
    }
    put_all(out, b": ")
}

/// Writes a byte of a pointer, so that the pointer stays on one line.
fn write_pointer_byte<W: Sink>(byte: u8, out: &mut W) -> Result<(), Kind>
    ensures { Writes W.taken W.failures out.old out.new (pointer_byte_text byte) result }
{
    match byte {
        b'\\' => put_all(out, b"\\\\"),
        b'\n' => put_all(out, b"\\n"),
        _ => put_all(out, &[byte]),
    }
}

/// The exit status of the program after a fault: 4 if writing failed, 3 if memory ran out, and 1 if
/// input was refused.
pub fn status(fault: &Fault) -> u8
    ensures status { result ≡ status_of fault.now.kind }
{
    match fault.kind {
        Kind::Write => 4,
        Kind::Memory => 3,
        _ => 1,
    }
}

/// Writes the line for a fault to `err`, and returns the exit status.
///
/// The line is one write if there is memory for it and `err` takes it whole. So the lines of
/// several runs that share a standard error do not mix. A failure to write it is ignored.
pub fn report<E: Write>(alloc: Global, fault: &Fault, err: &mut E) -> u8
    ensures status { result ≡ status_of fault.now.kind }
{
    let mut err = Out::new(err);
    // If the line cannot be written, there is nowhere to report that.
    let _ = match fault_line(alloc, fault) {
        Ok(line) => put_all(&mut err, line.as_slice()),
        Err(_) => write_fault(fault, &mut err),
    };
    status(fault)
}

/// The line for a fault, in memory. Fails only if memory runs out.
fn fault_line(alloc: Global, fault: &Fault) -> Result<Vec<u8>, AllocError>
    ensures { IfOk result (λ line. line.items ≡ fault_text fault.now) }
{
    let mut line = MemorySink::new(alloc);
    match write_fault(fault, &mut line) {
        Ok(()) => Ok(line.bytes),
        Err(_) => Err(AllocError),
    }
}
