//! Scalars and keys as they are printed.

ghost use Rattle.std.specs.Prelude.{◌≡◌, ◌<◌, ◌++◌, ◌∷◌, [], true, OnOk, string_bytes, flat_map};
ghost use Rattle.std.specs.List.{list_any};
ghost use Rattle.std.specs.Str.{chars};
ghost use Rattle.yaml_text.specs.Scalars.{is_control, hex_digit, escaped, doubled, in_double_quotes, in_single_quotes, printed};
ghost use Rattle.yaml_text.specs.Spelled.{spelled};

use crate::plain::is_plain;
use std::alloc::AllocError;

fn is_control(byte: u8) -> bool
    ensures { result ≡ is_control byte }
{
    byte < 0x20 || byte == 0x7F
}

fn has_control(text: &[u8]) -> bool
    ensures { result ≡ list_any is_control text.now }
{
    text.iter().any(|b| is_control(*b))
}

fn hex_digit(digit: u8) -> char
    requires { digit < 16 }
    ensures digit { result ≡ hex_digit digit }
    ensures ascii { result < 128 }
{
    if digit < 10 {
        (b'0' + digit) as char
    } else {
        (b'a' - 10 + digit) as char
    }
}

// Appends the escape of a control byte.
fn push_control(byte: u8, out: &mut String) -> Result<(), AllocError>
    requires { is_control byte ≡ true }
    ensures { OnOk result (string_bytes out.new ≡ string_bytes out.old ++ escaped byte) }
{
    out.push_str("\\x")?;
    out.push(hex_digit(byte / 16))?;
    out.push(hex_digit(byte % 16))
}

// Appends a character of ASCII as it stands between double quotes.
fn push_ascii(byte: u8, out: &mut String) -> Result<(), AllocError>
    requires { byte < 128 }
    ensures { OnOk result (string_bytes out.new ≡ string_bytes out.old ++ escaped byte) }
{
    if is_control(byte) {
        return push_control(byte, out);
    }
    if byte == b'"' || byte == b'\\' {
        out.push('\\')?;
    }
    out.push(byte as char)
}

// Appends a character as it stands between double quotes.
fn push_escaped(c: char, out: &mut String) -> Result<(), AllocError>
    ensures { OnOk result (string_bytes out.new ≡ string_bytes out.old ++ spelled escaped c) }
{
    if c.is_ascii() {
        push_ascii(c as u32 as u8, out)
    } else {
        out.push(c)
    }
}

// Appends a character as it stands between single quotes.
fn push_doubled(c: char, out: &mut String) -> Result<(), AllocError>
    ensures { OnOk result (string_bytes out.new ≡ string_bytes out.old ++ spelled doubled c) }
{
    if c == '\'' {
        out.push_str("''")
    } else {
        out.push(c)
    }
}

fn append_escaped(text: &str, out: &mut String) -> Result<(), AllocError>
    ensures { OnOk result (string_bytes out.new ≡ string_bytes out.old ++ flat_map (spelled escaped) (chars text.now)) }
{
    for c in text.chars() {
        push_escaped(c, out)?;
    }
    Ok(())
}

fn append_doubled(text: &str, out: &mut String) -> Result<(), AllocError>
    ensures { OnOk result (string_bytes out.new ≡ string_bytes out.old ++ flat_map (spelled doubled) (chars text.now)) }
{
    for c in text.chars() {
        push_doubled(c, out)?;
    }
    Ok(())
}

fn push_in_double_quotes(text: &str, out: &mut String) -> Result<(), AllocError>
    ensures { OnOk result (string_bytes out.new ≡ string_bytes out.old ++ in_double_quotes text.now) }
{
    out.push('"')?;
    append_escaped(text, out)?;
    out.push('"')
}

fn push_in_single_quotes(text: &str, out: &mut String) -> Result<(), AllocError>
    ensures { OnOk result (string_bytes out.new ≡ string_bytes out.old ++ in_single_quotes text.now) }
{
    out.push('\'')?;
    append_doubled(text, out)?;
    out.push('\'')
}

/// Appends a text or a key.
#[tactic(auto, unfolding(crate::specs::Scalars::printed))]
pub fn push_text(text: &str, out: &mut String) -> Result<(), AllocError>
    ensures { OnOk result (string_bytes out.new ≡ string_bytes out.old ++ printed text.now) }
{
    if is_plain(text) {
        return out.push_str(text);
    }
    if has_control(text.as_bytes()) {
        push_in_double_quotes(text, out)
    } else {
        push_in_single_quotes(text, out)
    }
}
