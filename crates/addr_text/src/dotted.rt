//! Four decimal numbers with dots between them.
ghost use Rattle.std.specs.Prelude.{◌≡◌, ◌↔◌, ℕ, Some, ◌<◌, ◌≤◌, ◌+◌, ◌^◌, IfSome};
ghost use Rattle.addr_text.specs.Dotted.{octets_of, dotted_of, IsDotted};

use crate::digits::read_octet;
use crate::find::{behind, find_sign};

// An octet and as many further ones as said.
fn read_octets(text: &[u8], more: u32) -> Option<u32>
    requires { more ≤ 3 }
    ensures value { result ≡ octets_of more text.now }
    ensures bound { IfSome result (λ n. n < 256 ^ (more + 1)) }
{
    if more == 0 {
        return Some(read_octet(text)? as u32);
    }
    let place = find_sign(text, b'.')?;
    let first = read_octet(&text[..place])?;
    let rest = read_octets(behind(text, place + 1), more - 1)?;
    Some(first as u32 * 256u32.pow(more) + rest)
}

/// The number of an IPv4 text, exactly where the text is one: four decimal numbers from 0 to 255
/// without leading zeros, with dots between them.
pub fn read_dotted(text: &[u8]) -> Option<u32>
    ensures value { result ≡ dotted_of text.now }
    ensures exact { (bits : ℕ) → (result ≡ Some bits) ↔ IsDotted text.now bits }
{
    read_octets(text, 3)
}
