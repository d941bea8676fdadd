//! Texts as cases write them.

use crate::text::Text;
use base_model::OutOfMemory;
use std::alloc::Global;

/// What stands before and behind the first `between` in a text: all of it and nothing where that isn't there.
pub fn parted<'a>(text: &'a str, between: &str) -> (&'a str, &'a str) {
    text.split_once(between).unwrap_or((text, ""))
}

/// The first word of a text, and what follows the space behind it.
pub fn first_word(text: &str) -> (&str, &str) {
    parted(text, " ")
}

fn digit(byte: u8) -> u8 {
    match byte {
        b'0'..=b'9' => byte - b'0',
        b'A'..=b'F' => byte - b'A' + 10,
        _ => 0,
    }
}

// `HH`, and the text behind it.
fn push_byte(piece: &[u8], out: &mut Text) {
    if let Some(high) = piece.first() {
        if let Some(low) = piece.get(1) {
            out.push_byte(digit(*high).wrapping_mul(16).wrapping_add(digit(*low)));
        }
    }
    out.push_bytes(piece.get(2..).unwrap_or(b"".as_slice()));
}

fn push_times(times: u32, text: &str, out: &mut Text) {
    for _ in 0..times {
        out.push_str(text);
    }
}

// `N<TEXT>`, and the text behind it.
fn push_repeated(piece: &str, out: &mut Text) {
    let (number, rest) = parted(piece, "<");
    let (text, rest) = parted(rest, ">");
    push_times(number.parse::<u32>().unwrap_or(0), text, out);
    out.push_str(rest);
}

// What stands behind a percent sign, if anything does.
fn push_piece(piece: &str, out: &mut Text) {
    if let Some(rest) = piece.strip_prefix('n') {
        out.push_byte(b'\n');
        out.push_str(rest);
        return;
    }
    match piece.strip_prefix('*') {
        Some(rest) => push_repeated(rest, out),
        None => push_byte(piece.as_bytes(), out),
    }
}

/// What a text of a case stands for.
pub fn spelled(alloc: Global, text: &str) -> Text {
    let (plain, marked) = parted(text, "%");
    let mut out = Text::new(alloc);
    out.push_str(plain);
    for piece in marked.split('%') {
        push_piece(piece, &mut out);
    }
    out
}

/// The bytes that a text of a case stands for.
pub fn bytes_of(alloc: Global, text: &str) -> Result<Vec<u8>, OutOfMemory> {
    spelled(alloc, text).into_bytes()
}
