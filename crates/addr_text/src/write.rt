//! The texts of addresses, written (RFC 5952 section 4).
ghost use Rattle.std.specs.Prelude.{◌≡◌, ◌++◌, ◌∷◌, [], ◌+◌, ◌≤◌, ◌%◌, OnOk, IfOk, length, drop};
ghost use Rattle.addr_text.specs.Dotted.{dotted, IsDotted};
ghost use Rattle.addr_text.specs.Parts.{joined};
ghost use Rattle.addr_text.specs.V6.{IsV6};
ghost use Rattle.addr_text.specs.V6Text.{fields_of, hex, fields_text, zeros, longest, first_run, shortened, compressed, v6_text, IsCanonical};

use base_model::{OutOfMemory, push_decimal};
use std::alloc::Global;

// The last sixteen bits.
fn last_field(bits: u128) -> u16
    ensures { result ≡ bits % 65536 }
{
    (bits % 65536) as u16
}

fn fields_of(bits: u128) -> [u16; 8]
    ensures { result ≡ fields_of 8 bits }
{
    let seven = bits / 65536;
    let six = seven / 65536;
    let five = six / 65536;
    let four = five / 65536;
    let three = four / 65536;
    let two = three / 65536;
    let one = two / 65536;
    [
        last_field(one),
        last_field(two),
        last_field(three),
        last_field(four),
        last_field(five),
        last_field(six),
        last_field(seven),
        last_field(bits),
    ]
}

fn push_field(field: u16, line: &mut Vec<u8>) -> Result<(), OutOfMemory>
    ensures { OnOk result (line.new.items ≡ line.old.items ++ hex field) }
{
    let text = format!(in *line.allocator(); "{field:x}")?;
    line.extend_from_slice(text.as_bytes())?;
    Ok(())
}

// The fields with colons between them.
fn push_fields(fields: &[u16], line: &mut Vec<u8>) -> Result<(), OutOfMemory>
    ensures { OnOk result (line.new.items ≡ line.old.items ++ fields_text fields.now) }
{
    match fields {
        [] => Ok(()),
        [only] => push_field(*only, line),
        [first, rest @ ..] => {
            push_field(*first, line)?;
            line.push(b':')?;
            push_fields(rest, line)
        }
    }
}

fn zeros(fields: &[u16]) -> usize
    ensures value { result ≡ zeros fields.now }
    ensures within { result ≤ length fields.now }
{
    match fields {
        [0, rest @ ..] => zeros(rest) + 1,
        _ => 0,
    }
}

fn longest(fields: &[u16]) -> usize
    ensures { result ≡ longest fields.now }
{
    match fields {
        [] => 0,
        [_, rest @ ..] => zeros(fields).max(longest(rest)),
    }
}

fn first_run(count: usize, fields: &[u16]) -> usize
    ensures value { result ≡ first_run count fields.now }
    ensures within { result ≤ length fields.now }
{
    match fields {
        [] => 0,
        [_, rest @ ..] => {
            if zeros(fields) == count {
                0
            } else {
                first_run(count, rest) + 1
            }
        }
    }
}

// The fields with two colons in the place of some.
fn push_shortened(
    fields: &[u16],
    start: usize,
    count: usize,
    line: &mut Vec<u8>,
) -> Result<(), OutOfMemory>
    requires { start + count ≤ length fields.now }
    ensures { OnOk result (line.new.items ≡ line.old.items ++ shortened fields.now start count) }
{
    push_fields(&fields[..start], line)?;
    line.extend_from_slice(b"::")?;
    push_fields(rest_of(fields, start + count), line)
}

fn rest_of(fields: &[u16], start: usize) -> &[u16]
    requires { start ≤ length fields.now }
    ensures { result.now ≡ drop start fields.now }
{
    &fields[start..]
}

fn push_compressed(fields: &[u16], line: &mut Vec<u8>) -> Result<(), OutOfMemory>
    ensures { OnOk result (line.new.items ≡ line.old.items ++ compressed fields.now) }
{
    let count = longest(fields);
    if count <= 1 {
        push_fields(fields, line)
    } else {
        push_shortened(fields, first_run(count, fields), count, line)
    }
}

/// The text of the IPv6 address of this number (RFC 5952 section 4). Reading it gives the number again.
pub fn v6_text(alloc: Global, bits: u128) -> Result<Vec<u8>, OutOfMemory>
    ensures text { IfOk result (λ text. text.items ≡ v6_text bits) }
    ensures canonical { IsCanonical (fields_of 8 bits) (v6_text bits) }
    ensures reads_back { IsV6 (v6_text bits) bits }
{
    let mut text = Vec::new(alloc);
    push_compressed(&fields_of(bits), &mut text)?;
    Ok(text)
}

/// The text of the IPv4 address of this number. Reading it gives the number again.
pub fn dotted_text(alloc: Global, bits: u32) -> Result<Vec<u8>, OutOfMemory>
    ensures text { IfOk result (λ text. text.items ≡ dotted bits) }
    ensures reads_back { IsDotted (dotted bits) bits }
{
    let mut text = Vec::new(alloc);
    push_decimal(bits / 16777216, &mut text)?;
    text.push(b'.')?;
    push_decimal(bits / 65536 % 256, &mut text)?;
    text.push(b'.')?;
    push_decimal(bits / 256 % 256, &mut text)?;
    text.push(b'.')?;
    push_decimal(bits % 256, &mut text)?;
    Ok(text)
}
