//! Which texts stand without quotes.

ghost use Rattle.std.specs.Prelude.{◌≡◌};
ghost use Rattle.std.specs.List.{list_all};
ghost use Rattle.yaml_text.specs.Scalars.{is_plain_byte, begins_with_letter_or_digit, ends_with_colon, is_plain};

use yaml_plain::is_plain_string;

fn is_plain_byte(byte: u8) -> bool
    ensures { result ≡ is_plain_byte byte }
{
    byte.is_ascii_alphanumeric() || matches!(byte, b'.' | b'_' | b'-' | b'/' | b':' | b'+' | b',')
}

fn are_plain_bytes(text: &[u8]) -> bool
    ensures { result ≡ list_all is_plain_byte text.now }
{
    text.iter().all(|b| is_plain_byte(*b))
}

fn begins_with_letter_or_digit(text: &[u8]) -> bool
    ensures { result ≡ begins_with_letter_or_digit text.now }
{
    match text {
        [] => false,
        [first, ..] => first.is_ascii_alphanumeric(),
    }
}

fn ends_with_colon(text: &[u8]) -> bool
    ensures { result ≡ ends_with_colon text.now }
{
    match text {
        [] => false,
        [.., last] => *last == b':',
    }
}

/// Whether the text stands without quotes.
#[tactic(auto, unfolding(crate::specs::Scalars::is_plain))]
pub fn is_plain(text: &str) -> bool
    ensures { result ≡ is_plain text.now }
{
    let bytes = text.as_bytes();
    (begins_with_letter_or_digit(bytes) && are_plain_bytes(bytes))
        && (!ends_with_colon(bytes) && is_plain_string(text))
}
