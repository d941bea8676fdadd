//! Bytes of a text as a text of their own.

ghost use Rattle.std.specs.Prelude.{◌≡◌, IfOk};

use base_model::Str;
use std::alloc::{AllocError, Global};

/// The text of these bytes. Each text here is cut at signs below 0x80 from one in UTF-8, and so is in UTF-8; a body that
/// finds another has no better answer than out of memory.
pub fn owned(bytes: Vec<u8>) -> Result<Str, AllocError>
    ensures { IfOk result (λ text. text ≡ bytes.items) }
{
    match String::from_utf8(bytes) {
        Ok(text) => Ok(Str::of(text)),
        Err(_) => Err(AllocError),
    }
}

/// A copy of these bytes as a text, as [`owned`] makes it.
pub fn copied(alloc: Global, bytes: &[u8]) -> Result<Str, AllocError>
    ensures { IfOk result (λ text. text ≡ bytes.now) }
{
    owned(Vec::from_slice(alloc, bytes)?)
}
