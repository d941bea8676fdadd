//! Texts of addresses, prefixes and MAC addresses, read.
ghost use Rattle.std.specs.Prelude.{◌≡◌, ◌↔◌, Some, ◌==◌, ◌<◌, ◌≤◌, length, drop, IfSome};
ghost use Rattle.std.specs.List.{position};
ghost use Rattle.addr_text.specs.Mac.{IsMac};
ghost use Rattle.net_model.specs.Address.{Address, Block};
ghost use Rattle.net_model.specs.declared.mac.Mac.{Mac};
ghost use Rattle.net_text.specs.AddrText.{addr_of, prefix_of, hardware_of, IsAddrText, IsPrefixText};

use addr_text::{read_dotted, read_octet, read_v6};
use net_model::{Addr, Mac, Prefix, max_len};

fn addr_of(text: &[u8]) -> Option<Addr>
    ensures { result ≡ addr_of text.now }
{
    match read_dotted(text) {
        Some(bits) => Some(Addr::v4(bits)),
        None => Some(Addr::v6(read_v6(text)?)),
    }
}

fn find_slash(text: &[u8]) -> Option<usize>
    ensures place { result ≡ position (λ b. b == 47) text.now }
    ensures inside { IfSome result (λ i. i < length text.now) }
{
    text.iter().position(|byte| *byte == b'/')
}

fn behind(text: &[u8], place: usize) -> &[u8]
    requires { place ≤ length text.now }
    ensures { result.now ≡ drop place text.now }
{
    &text[place..]
}

fn prefix_of(text: &[u8]) -> Option<Prefix>
    ensures { result ≡ prefix_of text.now }
{
    match find_slash(text) {
        None => {
            let addr = addr_of(text)?;
            Prefix::of(addr, max_len(addr.is_v6()))
        }
        Some(place) => {
            let addr = addr_of(&text[..place])?;
            let len = read_octet(behind(text, place + 1))?;
            Prefix::of(addr, len)
        }
    }
}

fn hardware_of(text: &[u8]) -> Option<Mac>
    ensures { result ≡ hardware_of text.now }
{
    Some(Mac {
        bytes: addr_text::read_mac(text)?,
    })
}

/// The address of a text, exactly where the text is one: four decimal numbers from 0 to 255
/// without leading zeros, or a form of RFC 4291 section 2.2. Nothing is taken for a zone.
pub fn read_addr(text: &[u8]) -> Option<Addr>
    ensures value { result ≡ addr_of text.now }
    ensures exact { (addr : Address) → (result ≡ Some addr) ↔ IsAddrText text.now addr }
{
    addr_of(text)
}

/// The prefix of a text, exactly where the text is one: an address, a slash and its length in
/// bits, decimal without leading zeros. Without a slash it has the length of the whole address.
pub fn read_prefix(text: &[u8]) -> Option<Prefix>
    ensures value { result ≡ prefix_of text.now }
    ensures exact { (prefix : Block) → (result ≡ Some prefix) ↔ IsPrefixText text.now prefix }
{
    prefix_of(text)
}

/// The MAC address of a text, exactly where the text is one: six pairs of hexadecimal digits
/// of either case, with colons between them.
pub fn read_mac(text: &[u8]) -> Option<Mac>
    ensures value { result ≡ hardware_of text.now }
    ensures exact { (mac : Mac) → (result ≡ Some mac) ↔ IsMac text.now mac.bytes }
{
    hardware_of(text)
}
