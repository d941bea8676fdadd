//! Numbers and words as lines write them.

use crate::not_done::NotDone;
use std::alloc::Global;

pub fn number(word: &str) -> Result<u64, NotDone> {
    match word.parse::<u64>() {
        Ok(number) => Ok(number),
        Err(_) => Err(NotDone),
    }
}

/// The words of a line.
pub fn words(alloc: Global, line: &str) -> Result<Vec<String>, NotDone> {
    let mut words = Vec::new(alloc);
    for word in line.split_ascii_whitespace() {
        words.push(String::from_str(alloc, word)?)?;
    }
    Ok(words)
}
