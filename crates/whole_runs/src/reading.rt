//! Numbers and words as lines write them.

use crate::not_done::NotDone;
use case_table::{Text, push_numbered};
use std::alloc::Global;

pub fn number(word: &str) -> Result<u64, NotDone> {
    match word.parse::<u64>() {
        Ok(number) => Ok(number),
        Err(_) => Err(NotDone),
    }
}

/// The words of a line.
pub fn words(alloc: Global, line: &str) -> Result<Vec<String>, NotDone> {
    let mut words = Vec::new(alloc);
    for word in line.split_ascii_whitespace() {
        words.push(String::from_str(alloc, word)?)?;
    }
    Ok(words)
}

/// Pushes a text so many times, with the number of the time, from 1, for each mark in it.
pub fn push_times(times: u64, text: &str, mark: u8, out: &mut Text) {
    for i in 0..times {
        push_numbered(text, mark, i.saturating_add(1), out);
    }
}
