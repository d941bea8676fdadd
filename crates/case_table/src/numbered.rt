//! Texts with numbers in them.

use crate::text::Text;

/// Pushes a text with a number in place of each mark.
pub fn push_numbered(text: &str, mark: u8, number: u64, out: &mut Text) {
    for byte in text.as_bytes() {
        if *byte == mark {
            out.push_number(number);
        } else {
            out.push_byte(*byte);
        }
    }
}
