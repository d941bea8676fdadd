//! Texts as the input writes them.

use crate::reading::push_times;
use base_model::OutOfMemory;
use case_table::{Text, parted};
use std::alloc::Global;

fn push_lines(text: &str, out: &mut Text) {
    for byte in text.as_bytes() {
        out.push_byte(if *byte == b'|' { b'\n' } else { *byte });
    }
}

// What stands behind a percent sign, if anything does: a bar for itself, or `N<TEXT>`, and the text behind it.
fn push_piece(piece: &str, out: &mut Text) {
    if let Some(rest) = piece.strip_prefix('|') {
        out.push_byte(b'|');
        push_lines(rest, out);
        return;
    }
    let (times, rest) = parted(piece, "<");
    let (text, rest) = parted(rest, ">");
    push_times(times.parse::<u64>().unwrap_or(0), text, b'#', out);
    push_lines(rest, out);
}

/// The bytes that a text on one line stands for: `|` for a line's end, `%|` for a bar, and `%N<TEXT>` for a text so many times,
/// with the number of the time, from 1, for each `#` in it.
pub fn bytes_of(alloc: Global, text: &str) -> Result<Vec<u8>, OutOfMemory> {
    let (plain, marked) = parted(text, "%");
    let mut out = Text::new(alloc);
    push_lines(plain, &mut out);
    for piece in marked.split('%') {
        push_piece(piece, &mut out);
    }
    out.into_bytes()
}
