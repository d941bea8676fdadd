//! MAC addresses: six pairs of hexadecimal digits with colons between them.
ghost use Rattle.std.specs.Prelude.{◌≡◌, ◌↔◌, ℕ, List, Some, ◌<◌, ◌++◌, OnOk, IfOk, true};
ghost use Rattle.std.specs.Fmt.{digit_glyph};
ghost use Rattle.addr_text.specs.Digits.{is_hex_digit};
ghost use Rattle.addr_text.specs.Mac.{IsMac, pair_text, mac_text};
ghost use Rattle.addr_text.specs.MacReader.{are_pairs, pair_value, mac_of};

use crate::digits::{digit, is_hex_digit};
use base_model::OutOfMemory;
use std::alloc::Global;

fn are_pairs(text: &[u8]) -> bool
    ensures { result ≡ are_pairs text.now }
{
    match text {
        [a, b] => is_hex_digit(*a) && is_hex_digit(*b),
        [a, b, c, rest @ ..] => {
            is_hex_digit(*a) && is_hex_digit(*b) && *c == b':' && are_pairs(rest)
        }
        _ => false,
    }
}

// The byte that two hexadecimal digits write. They write at most 255.
fn pair_value(a: u8, b: u8) -> u8
    ensures { result ≡ pair_value a b }
{
    ((digit(a) * 16 + digit(b)) % 256) as u8
}

fn read_text(text: &[u8]) -> Option<[u8; 6]>
    ensures { result ≡ mac_of text.now }
{
    if text.len() != 17 || !are_pairs(text) {
        return None;
    }
    Some([
        pair_value(text[0], text[1]),
        pair_value(text[3], text[4]),
        pair_value(text[6], text[7]),
        pair_value(text[9], text[10]),
        pair_value(text[12], text[13]),
        pair_value(text[15], text[16]),
    ])
}

/// The bytes of a MAC address, exactly where the text is one: six pairs of hexadecimal digits
/// of either case, with colons between them.
pub fn read_mac(text: &[u8]) -> Option<[u8; 6]>
    ensures value { result ≡ mac_of text.now }
    ensures exact { (bytes : List ℕ) → (result ≡ Some bytes) ↔ IsMac text.now bytes }
{
    read_text(text)
}

fn upper_digit(value: u8) -> u8
    requires { value < 16 }
    ensures { result ≡ digit_glyph true value }
{
    if value < 10 {
        b'0' + value
    } else {
        b'A' + (value - 10)
    }
}

fn push_pair(byte: u8, line: &mut Vec<u8>) -> Result<(), OutOfMemory>
    ensures { OnOk result (line.new.items ≡ line.old.items ++ pair_text byte) }
{
    line.push(upper_digit(byte / 16))?;
    line.push(upper_digit(byte % 16))?;
    Ok(())
}

fn push_pairs(bytes: &[u8], line: &mut Vec<u8>) -> Result<(), OutOfMemory>
    ensures { OnOk result (line.new.items ≡ line.old.items ++ mac_text bytes.now) }
{
    match bytes {
        [] => Ok(()),
        [only] => push_pair(*only, line),
        [first, rest @ ..] => {
            push_pair(*first, line)?;
            line.push(b':')?;
            push_pairs(rest, line)
        }
    }
}

/// The text of the MAC address of these bytes, in upper case. Reading it gives the bytes again.
pub fn mac_text(alloc: Global, bytes: &[u8; 6]) -> Result<Vec<u8>, OutOfMemory>
    ensures text { IfOk result (λ text. text.items ≡ mac_text bytes.now) }
    ensures reads_back { IsMac (mac_text bytes.now) bytes.now }
{
    let mut text = Vec::new(alloc);
    push_pairs(bytes, &mut text)?;
    Ok(text)
}
