//! Words, and what they stand for.

use net_model::{Addr, Name, Prefix};
use net_text::{read_addr, read_prefix};

pub fn number(word: &str) -> Option<u32> {
    word.parse::<u32>().ok()
}

pub fn name(word: &str) -> Option<Name> {
    Name::of(word.as_bytes())
}

pub fn prefix(word: &str) -> Option<Prefix> {
    read_prefix(word.as_bytes())
}

pub fn addr(word: &str) -> Option<Addr> {
    read_addr(word.as_bytes())
}
