//! Bytes as hexadecimal digits.

use crate::text::Text;
use base_model::OutOfMemory;
use std::alloc::Global;

fn value(digit: u8) -> Option<u8> {
    match digit {
        b'0'..=b'9' => Some(digit - b'0'),
        b'a'..=b'f' => Some(digit - b'a' + 10),
        _ => None,
    }
}

/// The bytes of digits, of which two are a byte; all else is passed over.
pub fn bytes_of_hex(alloc: Global, text: &str) -> Result<Vec<u8>, OutOfMemory> {
    let mut bytes = Text::new(alloc);
    let mut high: Option<u8> = None;
    for digit in text.as_bytes() {
        let Some(low) = value(*digit) else {
            continue;
        };
        match high {
            Some(first) => {
                bytes.push_byte(first.wrapping_mul(16).wrapping_add(low));
                high = None;
            }
            None => high = Some(low),
        }
    }
    bytes.into_bytes()
}

fn digit(value: u8) -> u8 {
    if value < 10 {
        b'0' + value
    } else {
        b'a'.wrapping_add(value.wrapping_sub(10))
    }
}

/// Pushes the digits of bytes.
pub fn push_hex(bytes: &[u8], out: &mut Text) {
    for byte in bytes {
        out.push_byte(digit(*byte / 16));
        out.push_byte(digit(*byte % 16));
    }
}
