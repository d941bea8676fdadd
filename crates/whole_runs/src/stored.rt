//! Stored bytes that are damaged.

use crate::not_done::NotDone;
use base_model::OutOfMemory;
use case_table::Text;
use host_core::Area;
use std::alloc::Global;

/// The area of a word.
pub fn area_of(word: &str) -> Result<Area, NotDone> {
    match word {
        "kernel" => Ok(Area::Kernel),
        "checkpoint" => Ok(Area::Checkpoint),
        _ => Err(NotDone),
    }
}

/// The bytes up to a position.
pub fn cut(held: &[u8], to: u64) -> &[u8] {
    &held[..(to as usize).min(held.len())]
}

/// The bytes from a position on.
pub fn behind(held: &[u8], from: u64) -> &[u8] {
    &held[(from as usize).min(held.len())..]
}

/// The bytes with others in their place from a position on.
pub fn overwritten(
    alloc: Global,
    held: &[u8],
    at: u64,
    given: &[u8],
) -> Result<Vec<u8>, OutOfMemory> {
    let mut bytes = Text::new(alloc);
    bytes.push_bytes(cut(held, at));
    bytes.push_bytes(given);
    bytes.push_bytes(behind(behind(held, at), given.len() as u64));
    bytes.into_bytes()
}
