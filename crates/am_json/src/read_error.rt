//! Why a reader gives no value, and at which part of the value that it reads.

ghost use Rattle.std.specs.Prelude.{◌≡◌, ◌≢◌};
ghost use Rattle.am_universe.specs.declared.kind.Kind.TheVariants as kinds;
ghost use Rattle.am_json.specs.declared.read_error.ReadError.TheVariants.{Memory};
ghost use Rattle.am_json.specs.Pointer.{refusal_here};
ghost use Rattle.am_json.specs.Reading.{IsRefusalOrMemory, IsFaultAt, IsFaultOf};

use am_universe::{Fault, Kind, Place};
use std::alloc::{AllocError, AllocFailed, Global};
use std::marker::Model;

/// Why a value is refused, and at which of its parts.
///
/// The kind is never `Memory` or `Write`. The part is a JSON Pointer (RFC 6901), which starts at
/// the value that is being read.
#[derive(Drop)]
pub struct Refusal {
    pub(crate) kind: Kind,
    pub(crate) pointer: String,
}

impl Model for Refusal {
    ghost use Rattle.std.specs.Prelude.{string_bytes, ◌≢◌};
    ghost use Rattle.am_universe.specs.declared.kind.Kind.TheVariants as kinds;
    ghost use Rattle.am_json.specs.Pointer as spec;

    ghost Value = { spec.Refusal };

    ghost view = { λ r. record { kind = r.kind; pointer = string_bytes r.pointer } };

    ghost invariant = { λ r. (r.kind ≢ kinds.Memory) × (r.kind ≢ kinds.Write) };
}

impl Refusal {
    /// Returns the fault in the file at this place.
    fn at(self, place: Place) -> Fault
        ensures { IsFaultAt place self result }
    {
        Fault::within(self.kind, place, self.pointer)
    }
}

/// Why a reader gives no value.
#[derive(Drop)]
pub enum ReadError {
    /// Memory ran out.
    Memory,
    /// The value that is being read is refused.
    Refused(Refusal),
}

impl ReadError {
    /// The refusal of the whole value that is being read, with the empty pointer.
    ///
    /// The kind is never `Write`. For `Memory` the error is [`ReadError::Memory`]. Takes no memory.
    pub fn refused(alloc: Global, kind: Kind) -> ReadError
        requires { kind ≢ kinds.Write }
        ensures refusal { IsRefusalOrMemory result (refusal_here kind) }
        ensures memory { kind ≡ kinds.Memory → result ≡ Memory }
    {
        if kind == Kind::Memory {
            return ReadError::Memory;
        }
        ReadError::Refused(Refusal {
            kind,
            pointer: String::new(alloc),
        })
    }

    /// Returns the fault of the file at this place, if the value that was read is that of the whole
    /// file.
    ///
    /// [`ReadError::Memory`] becomes a fault of memory. Takes no memory.
    pub fn at(self, alloc: Global, place: Place) -> Fault
        ensures fault { IsFaultOf place self result }
    {
        match self {
            ReadError::Memory => Fault::memory(alloc),
            ReadError::Refused(refusal) => refusal.at(place),
        }
    }
}

impl From<AllocError> for ReadError {
    ghost from_gives = { λ _ e. e ≡ Memory };

    fn from(_error: AllocError) -> ReadError {
        ReadError::Memory
    }
}

impl<T: Drop> From<AllocFailed<T>> for ReadError {
    ghost from_gives = { λ _ e. e ≡ Memory };

    fn from(_error: AllocFailed<T>) -> ReadError {
        ReadError::Memory
    }
}
