//! What calls answer.

use base_model::{OutOfMemory, push_decimal};
use host_core::{Failed, StartFault};
use std::alloc::Global;

/// The bytes of what a call answered.
pub type Answer = Result<Vec<u8>, OutOfMemory>;

/// A word as it is.
pub fn word(alloc: Global, word: &str) -> Answer {
    Ok(Vec::from_slice(alloc, word.as_bytes())?)
}

/// A number in decimal.
pub fn number(alloc: Global, number: u64) -> Answer {
    let mut out = Vec::new(alloc);
    push_decimal(number, &mut out)?;
    Ok(out)
}

fn push_octal(digit: u32, out: &mut Vec<u8>) -> Result<(), OutOfMemory> {
    push_decimal(digit % 8, out)
}

/// The permissions of a file, three octal digits.
pub fn permissions(alloc: Global, mode: u32) -> Answer {
    let mut out = Vec::new(alloc);
    push_octal(mode / 64, &mut out)?;
    push_octal(mode / 8, &mut out)?;
    push_octal(mode, &mut out)?;
    Ok(out)
}

/// Whether a call was done.
pub fn done(alloc: Global, is_done: bool) -> Answer {
    word(alloc, if is_done { "done" } else { "failed" })
}

/// A number that a call gave.
pub fn counted(alloc: Global, given: Result<u64, Failed>) -> Answer {
    match given {
        Ok(count) => number(alloc, count),
        Err(Failed) => done(alloc, false),
    }
}

fn push_bytes(bytes: &[u8], out: &mut Vec<u8>) -> Result<(), OutOfMemory> {
    for byte in bytes {
        out.push(if *byte == 0 { b'_' } else { *byte })?;
    }
    Ok(())
}

/// How many bytes a call read, and the whole buffer, in which `_` stands for a byte 0.
pub fn read(alloc: Global, given: Result<u64, Failed>, buffer: &[u8]) -> Answer {
    let mut out = counted(alloc, given)?;
    if given.is_ok() {
        out.push(b' ')?;
        push_bytes(buffer, &mut out)?;
    }
    Ok(out)
}

/// Whether a file was begun.
pub fn started(alloc: Global, given: Result<(), StartFault>) -> Answer {
    match given {
        Err(StartFault::NoSuchName) => word(alloc, "no such name"),
        Err(StartFault::Failed) => done(alloc, false),
        Ok(()) => done(alloc, true),
    }
}

/// What stands for the answer to what is no call.
pub fn unknown(alloc: Global) -> Answer {
    word(alloc, "no such call")
}
