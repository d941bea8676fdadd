//! Words, and what they stand for.

use net_model::{Mac, Name, Prefix, TableId};
use net_text::{read_mac, read_prefix};
use std::alloc::Global;

/// The words of a line.
pub fn words<'a>(alloc: Global, line: &'a str) -> Option<Vec<&'a str>> {
    let mut words = Vec::new(alloc);
    for word in line.split_ascii_whitespace() {
        words.push(word).ok()?;
    }
    Some(words)
}

/// The word at a place, from 0.
pub fn word<'a>(words: &[&'a str], at: usize) -> Option<&'a str> {
    words.get(at).copied()
}

/// What stands behind a key in the word at a place.
pub fn behind<'a>(words: &[&'a str], at: usize, key: &str) -> Option<&'a str> {
    word(words, at)?.strip_prefix(key)
}

pub fn number(word: &str) -> Option<u32> {
    word.parse::<u32>().ok()
}

pub fn number_at(words: &[&str], at: usize) -> Option<u32> {
    number(word(words, at)?)
}

/// The number behind a key in the word at a place.
pub fn number_behind(words: &[&str], at: usize, key: &str) -> Option<u32> {
    number(behind(words, at, key)?)
}

pub fn table_at(words: &[&str], at: usize) -> Option<TableId> {
    Some(TableId::of(number_at(words, at)?))
}

pub fn name_at(words: &[&str], at: usize) -> Option<Name> {
    Name::of(word(words, at)?.as_bytes())
}

pub fn prefix_at(words: &[&str], at: usize) -> Option<Prefix> {
    read_prefix(word(words, at)?.as_bytes())
}

pub fn mac_at(words: &[&str], at: usize) -> Option<Mac> {
    read_mac(word(words, at)?.as_bytes())
}

/// A word, or none where it is a dash.
pub fn given(word: &str) -> Option<&str> {
    if word == "-" { None } else { Some(word) }
}

/// The name, or none where a dash stands in its place.
pub fn maybe_name(word: &str) -> Option<Option<Name>> {
    match given(word) {
        Some(word) => Some(Some(Name::of(word.as_bytes())?)),
        None => Some(None),
    }
}
