//! The texts of IPv6 addresses, read (RFC 4291 section 2.2).
ghost use Rattle.std.specs.Prelude.{◌≡◌, ◌↔◌, ℕ, Some, ◌<◌, ◌≤◌, ◌+◌, ◌-◌, ◌*◌, ◌^◌, IfSome};
ghost use Rattle.addr_text.specs.V6.{IsV6};
ghost use Rattle.addr_text.specs.V6Reader.{run_of, end_of, some_run_of, whole_of, short_of, v6_of, IsWithin};

use crate::digits::read_field;
use crate::dotted::read_dotted;
use crate::find::{behind, find_gap, find_sign};

// What the last part of a run may be.
#[derive(Clone, Copy)]
pub(crate) enum Last {
    Field,
    FieldOrDotted,
}

// Fields that were read: how many, and the number that they make.
#[derive(Clone, Copy)]
pub(crate) struct Fields {
    count: u32,
    bits: u128,
}

// The last part of a run that may have as many fields as said.
fn read_end(text: &[u8], last: Last, room: u32) -> Option<Fields>
    ensures value { result ≡ end_of last room text.now }
    ensures within { IfSome result (λ f. IsWithin f) }
    ensures count { 1 ≤ room → IfSome result (λ f. f.count ≤ room) }
{
    if let Some(field) = read_field(text) {
        return Some(Fields {
            count: 1,
            bits: field as u128,
        });
    }
    match last {
        Last::FieldOrDotted if room >= 2 => Some(Fields {
            count: 2,
            bits: read_dotted(text)? as u128,
        }),
        _ => None,
    }
}

// A run of at least one field and at most as many as said, parted by colons.
fn read_run(text: &[u8], last: Last, room: u32) -> Option<Fields>
    requires { room ≤ 8 }
    ensures value { result ≡ run_of last room text.now }
    ensures within { IfSome result (λ f. IsWithin f) }
    ensures count { IfSome result (λ f. f.count ≤ room) }
{
    if room == 0 {
        return None;
    }
    match find_sign(text, b':') {
        None => read_end(text, last, room),
        Some(place) => {
            let field = read_field(&text[..place])?;
            let rest = read_run(behind(text, place + 1), last, room - 1)?;
            Some(Fields {
                count: rest.count + 1,
                bits: field as u128 * 65536u128.pow(rest.count) + rest.bits,
            })
        }
    }
}

// A run that may be empty.
fn read_some_run(text: &[u8], last: Last) -> Option<Fields>
    ensures value { result ≡ some_run_of last text.now }
    ensures within { IfSome result (λ f. IsWithin f) }
    ensures count { IfSome result (λ f. f.count ≤ 7) }
{
    if text.is_empty() {
        Some(Fields { count: 0, bits: 0 })
    } else {
        read_run(text, last, 7)
    }
}

// Eight fields.
fn read_whole(text: &[u8]) -> Option<u128>
    ensures { result ≡ whole_of text.now }
{
    let fields = read_run(text, Last::FieldOrDotted, 8)?;
    if fields.count == 8 {
        Some(fields.bits)
    } else {
        None
    }
}

// The number of the first fields of eight, with zeros behind them.
fn placed(front: Fields) -> u128
    requires within { IsWithin front }
    requires count { front.count ≤ 7 }
    ensures value { result ≡ front.bits * 65536 ^ (8 - front.count) }
    ensures bound { result + 65536 ^ (8 - front.count) ≤ 65536 ^ 8 }
{
    if front.count == 0 {
        0
    } else {
        front.bits * 65536u128.pow(8 - front.count)
    }
}

// What stands before and behind two colons.
fn read_short(front: &[u8], back: &[u8]) -> Option<u128>
    ensures { result ≡ short_of front.now back.now }
{
    let front = read_some_run(front, Last::Field)?;
    let back = read_some_run(back, Last::FieldOrDotted)?;
    if front.count + back.count <= 7 {
        Some(placed(front) + back.bits)
    } else {
        None
    }
}

fn read_text(text: &[u8]) -> Option<u128>
    ensures { result ≡ v6_of text.now }
{
    match find_gap(text) {
        None => read_whole(text),
        Some(place) => read_short(&text[..place], behind(text, place + 2)),
    }
}

/// The number of an IPv6 text, exactly where the text is one (RFC 4291 section 2.2): eight fields
/// of one to four hexadecimal digits of either case, or fewer with two colons in the place of at
/// least one, in which an IPv4 address may stand for the last two.
pub fn read_v6(text: &[u8]) -> Option<u128>
    ensures value { result ≡ v6_of text.now }
    ensures exact { (bits : ℕ) → (result ≡ Some bits) ↔ IsV6 text.now bits }
{
    read_text(text)
}
