//! Why a tree is refused, and where.

ghost use Rattle.tree_schema.specs.Faults.{IsFaultOf};

use crate::{Reader, Stop};
use base_model::Path;

/// Why a tree is refused at a place.
#[derive(Clone, Copy)]
pub enum Reason {
    /// A map has a key that isn't known there.
    UnknownKey,
    /// The value has a type that can't stand there.
    WrongType,
    /// A value of the right type is outside its words, range or form, or doesn't agree with another.
    OutOfRange,
    /// A key that is needed isn't there.
    Missing,
    /// The key isn't supported, or what its value asks for isn't.
    Unsupported,
}

/// Why a tree is refused, with the place; the place of a missing key is the one that it would have.
#[derive(Drop)]
pub enum SchemaFault {
    UnknownKey(Path),
    WrongType(Path),
    OutOfRange(Path),
    Missing(Path),
    Unsupported(Path),
    /// Memory was refused.
    OutOfMemory,
}

/// The fault of a reading that stopped here.
pub fn fault_of(stop: Stop, reader: Reader) -> SchemaFault
    ensures { IsFaultOf stop reader.here result }
{
    let (place, _) = reader.into_parts();
    match stop {
        Stop::Refused(Reason::UnknownKey) => SchemaFault::UnknownKey(place),
        Stop::Refused(Reason::WrongType) => SchemaFault::WrongType(place),
        Stop::Refused(Reason::OutOfRange) => SchemaFault::OutOfRange(place),
        Stop::Refused(Reason::Missing) => SchemaFault::Missing(place),
        Stop::Refused(Reason::Unsupported) => SchemaFault::Unsupported(place),
        Stop::OutOfMemory => SchemaFault::OutOfMemory,
    }
}
