//! Digits and the short numbers that they write.
ghost use Rattle.std.specs.Prelude.{◌≡◌, ◌<◌, ◌≤◌, IfSome};
ghost use Rattle.std.specs.Char.{digit_value};
ghost use Rattle.std.specs.List.{list_all};
ghost use Rattle.addr_text.specs.Digits.{is_hex_digit, is_decimal_digit, field_of, octet_of, number};

// What the byte is worth as a digit, and 36 where it is none.
pub(crate) fn digit(byte: u8) -> u32
    ensures value { result ≡ digit_value byte }
    ensures bound { result ≤ 36 }
{
    match byte {
        b'0'..=b'9' => (byte - b'0') as u32,
        b'A'..=b'Z' => (byte - b'A') as u32 + 10,
        b'a'..=b'z' => (byte - b'a') as u32 + 10,
        _ => 36,
    }
}

pub(crate) fn is_hex_digit(byte: u8) -> bool
    ensures { result ≡ is_hex_digit byte }
{
    digit(byte) < 16
}

fn all_hex_digits(text: &[u8]) -> bool
    ensures { result ≡ list_all is_hex_digit text.now }
{
    text.iter().all(|byte| is_hex_digit(*byte))
}

fn all_decimal_digits(text: &[u8]) -> bool
    ensures { result ≡ list_all is_decimal_digit text.now }
{
    text.iter().all(|byte| digit(*byte) < 10)
}

// The number that one to four hexadecimal digits write.
fn hex_number(text: &[u8]) -> u32
    ensures { result ≡ number 16 text.now }
{
    match text {
        [a] => digit(*a),
        [a, b] => digit(*a) * 16 + digit(*b),
        [a, b, c] => (digit(*a) * 16 + digit(*b)) * 16 + digit(*c),
        [a, b, c, d] => ((digit(*a) * 16 + digit(*b)) * 16 + digit(*c)) * 16 + digit(*d),
        _ => 0,
    }
}

// The number that one to four decimal digits write.
fn decimal_number(text: &[u8]) -> u32
    ensures { result ≡ number 10 text.now }
{
    match text {
        [a] => digit(*a),
        [a, b] => digit(*a) * 10 + digit(*b),
        [a, b, c] => (digit(*a) * 10 + digit(*b)) * 10 + digit(*c),
        [a, b, c, d] => ((digit(*a) * 10 + digit(*b)) * 10 + digit(*c)) * 10 + digit(*d),
        _ => 0,
    }
}

// One to four hexadecimal digits.
pub(crate) fn read_field(text: &[u8]) -> Option<u16>
    ensures value { result ≡ field_of text.now }
    ensures bound { IfSome result (λ n. n < 65536) }
{
    if text.is_empty() || text.len() > 4 || !all_hex_digits(text) {
        return None;
    }
    u16::try_from(hex_number(text)).ok()
}

/// A decimal number up to 255 without a leading zero.
pub fn read_octet(text: &[u8]) -> Option<u8>
    ensures value { result ≡ octet_of text.now }
    ensures bound { IfSome result (λ n. n < 256) }
{
    if text.is_empty() || text.len() > 3 || !all_decimal_digits(text) {
        return None;
    }
    if text.len() > 1 && text[0] == b'0' {
        return None;
    }
    u8::try_from(decimal_number(text)).ok()
}
