ghost use Rattle.std.specs.Prelude.{◌≡◌, ◌≢◌, [], string_bytes};
ghost use Rattle.std.proofs.Props.{props};
ghost use Rattle.am_universe.specs.declared.kind.Kind.TheVariants as kinds;
ghost use Rattle.am_universe.specs.FaultPlace.{IsPlaced};

use crate::{Kind, Place};
use std::alloc::Global;
use thiserror::Error;

/// Why something was refused, where, and at which part of a file.
///
/// `pointer` is a JSON Pointer (RFC 6901), which is empty if no part of a file is meant. A fault of
/// the kind `Memory` always has the place `Memory`, and one of the kind `Write` the place `Output`,
/// both with the empty pointer.
///
/// Users see the line that `write_fault` makes. The derived texts are for debugging, and no
/// contract speaks of them.
#[derive(Debug, Drop, Error)]
#[error("{kind:?} at {place:?} {pointer}")]
pub struct Fault {
    pub kind: Kind,
    pub place: Place,
    pub pointer: String,
    ghost placed: { IsPlaced kind place (string_bytes pointer) } by { Prim.hlevel props },
}

impl Fault {
    /// Makes a fault at a place as a whole, with the empty pointer.
    ///
    /// `Memory` and `Write` have places of their own, whatever `place` is. Takes no memory.
    pub fn at(alloc: Global, kind: Kind, place: Place) -> Fault
        ensures kind { result.kind ≡ kind }
        ensures place { kind ≢ kinds.Memory → kind ≢ kinds.Write → result.place ≡ place }
        ensures pointer { string_bytes result.pointer ≡ [] }
    {
        Fault::within(kind, place, String::new(alloc))
    }

    /// Makes a fault at a part of the file at a place.
    ///
    /// `Memory` and `Write` have places of their own and the empty pointer, whatever is given.
    /// Takes no memory.
    pub fn within(kind: Kind, place: Place, pointer: String) -> Fault
        ensures kind { result.kind ≡ kind }
        ensures part { kind ≢ kinds.Memory → kind ≢ kinds.Write → (result.place ≡ place)
            × (string_bytes result.pointer ≡ string_bytes pointer) }
        ensures whole { string_bytes pointer ≡ [] → string_bytes result.pointer ≡ [] }
    {
        let mut pointer = pointer;
        let place = match kind {
            Kind::Memory => {
                pointer.clear();
                Place::Memory
            }
            Kind::Write => {
                pointer.clear();
                Place::Output
            }
            _ => place,
        };
        Fault {
            kind,
            place,
            pointer,
        }
    }

    /// The fault that memory ran out. Takes no memory.
    ///
    /// There is no `From<AllocError>`, because the pointer is a `String`, which needs an allocator.
    pub fn memory(alloc: Global) -> Fault
        ensures kind { result.kind ≡ kinds.Memory }
    {
        Fault::at(alloc, Kind::Memory, Place::Memory)
    }

    /// The fault that writing failed. Takes no memory.
    pub fn write(alloc: Global) -> Fault
        ensures kind { result.kind ≡ kinds.Write }
    {
        Fault::at(alloc, Kind::Write, Place::Output)
    }
}
