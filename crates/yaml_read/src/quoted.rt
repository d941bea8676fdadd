//! Quoted scalars.

ghost use Rattle.std.specs.Prelude.{◌≡◌, ◌+◌, ◌*◌, ◌∷◌, [], length, ◌==◌, ◌++◌, ◌&&◌, ◌<◌, ◌≤◌, not, false, option_map, option_and_then, encode_utf8, OnOk, Some, None, IfOk, IfSome, if◌then◌else◌};
ghost use Rattle.std.specs.Char.{is_digit, digit_value};
ghost use Rattle.yaml_plain.specs.Bytes.{quote, apostrophe, backslash};
ghost use Rattle.yaml_read.specs.Quoted.{single_quoted, double_quoted, hex_value, char_of, hex_escape, escape, encoded, piece, unescaped, unescaped_front, begins_quoted, quoted, closed_quote};

use base_model::Str;
use std::alloc::{AllocError, Global};
use yaml_plain::{begins, owned, tail};

fn closes(escaped: bool, byte: u8) -> bool
    ensures { result ≡ (not escaped && (byte == quote)) }
{
    !escaped && byte == b'"'
}

fn escapes(escaped: bool, byte: u8) -> bool
    ensures { result ≡ (not escaped && (byte == backslash)) }
{
    !escaped && byte == b'\\'
}

// What stands up to the closing double quote, and the text behind that.
fn double_quoted(text: &[u8]) -> Option<(&[u8], &[u8])>
    ensures { option_map (λ p. (p.0.now, p.1.now)) result ≡ double_quoted false text.now }
{
    let mut escaped = false;
    for (i, b) in text.iter().enumerate() {
        if closes(escaped, *b) {
            return Some((&text[..i], &text[i + 1..]));
        }
        escaped = escapes(escaped, *b);
    }
    None
}

fn is_behind(pending: bool, byte: u8) -> bool
    ensures { result ≡ (pending && not (byte == apostrophe)) }
{
    pending && byte != b'\''
}

fn is_pending(pending: bool, byte: u8) -> bool
    ensures { result ≡ (not pending && (byte == apostrophe)) }
{
    !pending && byte == b'\''
}

// Appends a byte, unless it is the first of two apostrophes or the closing one.
fn push_unless(pending: bool, byte: u8, scalar: &mut Vec<u8>) -> Result<(), AllocError>
    ensures { OnOk result (scalar.new.items ≡ (if pending then scalar.old.items else scalar.old.items ++ byte ∷ [])) }
{
    if pending {
        return Ok(());
    }
    scalar.push(byte)?;
    Ok(())
}

// The scalar up to the closing apostrophe, and the text behind that.
fn single_quoted(alloc: Global, text: &[u8]) -> Result<Option<(Vec<u8>, &[u8])>, AllocError>
    ensures { IfOk result (λ r. option_map (λ p. (p.0.items, p.1.now)) r ≡ single_quoted false text.now) }
{
    let mut scalar = Vec::new(alloc);
    let mut pending = false;
    for (i, b) in text.iter().enumerate() {
        if is_behind(pending, *b) {
            return Ok(Some((scalar, &text[i..])));
        }
        pending = is_pending(pending, *b);
        push_unless(pending, *b, &mut scalar)?;
    }
    if pending {
        return Ok(Some((scalar, &[])));
    }
    Ok(None)
}

fn at_end<'a>(pending: bool) -> Option<&'a [u8]>
    ensures { option_map (λ p. p.now) result ≡ option_map (λ p. p.1) (single_quoted pending []) }
{
    if pending { Some(&[]) } else { None }
}

// The text behind the closing apostrophe.
fn single_end(text: &[u8]) -> Option<&[u8]>
    ensures { option_map (λ p. p.now) result ≡ option_map (λ p. p.1) (single_quoted false text.now) }
{
    let mut pending = false;
    for (i, b) in text.iter().enumerate() {
        if is_behind(pending, *b) {
            return Some(&text[i..]);
        }
        pending = is_pending(pending, *b);
    }
    at_end(pending)
}

// The value of a hexadecimal digit.
fn hex_digit(byte: u8) -> Option<u32>
    ensures small { IfSome result (λ d. d < 16) }
    ensures exact { result ≡ (if is_digit byte 16 then Some (digit_value byte) else None) }
{
    match byte {
        b'0'..=b'9' => Some(u32::from(byte - b'0')),
        b'a'..=b'f' => Some(u32::from(byte - b'a') + 10),
        b'A'..=b'F' => Some(u32::from(byte - b'A') + 10),
        _ => None,
    }
}

// The number that hexadecimal digits write.
fn hex_value(digits: &[u8]) -> Option<u32>
    requires { length digits.now ≤ 4 }
    ensures small { IfSome result (λ n. n < 65536) }
    ensures exact { result ≡ hex_value digits.now }
{
    let mut value = 0u32;
    for b in digits {
        let digit = hex_digit(*b)?;
        value = value * 16 + digit;
    }
    Some(value)
}

// The character of a number, which no surrogate has.
fn char_of(number: u32) -> Option<char>
    requires { number < 65536 }
    ensures { result ≡ char_of number }
{
    char::from_u32(number)
}

fn hex_char(digits: &[u8]) -> Option<char>
    requires { length digits.now ≤ 4 }
    ensures { result ≡ option_and_then char_of (hex_value digits.now) }
{
    let number = hex_value(digits)?;
    char_of(number)
}

// The character that so many hexadecimal digits at the front write, and the text behind them.
#[tactic(auto, unfolding(crate::specs::Quoted::hex_escape))]
fn hex_escape(count: usize, text: &[u8]) -> Option<(char, &[u8])>
    requires { count ≤ 4 }
    ensures { option_map (λ p. (p.0, p.1.now)) result ≡ hex_escape count text.now }
{
    if text.len() < count {
        return None;
    }
    let (digits, behind) = text.split_at(count);
    let c = hex_char(digits)?;
    Some((c, behind))
}

// The character that follows a backslash, and the text behind it.
#[tactic(auto, unfolding(crate::specs::Quoted::escape))]
fn escape(text: &[u8]) -> Option<(char, &[u8])>
    ensures { option_map (λ p. (p.0, p.1.now)) result ≡ escape text.now }
{
    let [sign, behind @ ..] = text else {
        return None;
    };
    match sign {
        b'\\' => Some(('\\', behind)),
        b'"' => Some(('"', behind)),
        b'/' => Some(('/', behind)),
        b'n' => Some(('\n', behind)),
        b't' => Some(('\t', behind)),
        b'r' => Some(('\r', behind)),
        b'0' => Some(('\0', behind)),
        b'x' => hex_escape(2, behind),
        b'u' => hex_escape(4, behind),
        _ => None,
    }
}

fn bytes_of(alloc: Global, c: char) -> Result<Vec<u8>, AllocError>
    ensures { IfOk result (λ bytes. bytes.items ≡ encode_utf8 c) }
{
    let mut text = String::new(alloc);
    text.push(c)?;
    Vec::from_slice(alloc, text.as_bytes())
}

fn one_byte(alloc: Global, byte: u8) -> Result<Vec<u8>, AllocError>
    ensures { IfOk result (λ bytes. bytes.items ≡ byte ∷ []) }
{
    Vec::from_slice(alloc, &[byte])
}

fn escaped_piece(alloc: Global, text: &[u8]) -> Result<Option<(Vec<u8>, &[u8])>, AllocError>
    ensures { IfOk result (λ r. option_map (λ p. (p.0.items, p.1.now)) r ≡ option_map encoded (escape text.now)) }
{
    match escape(text) {
        Some((c, behind)) => Ok(Some((bytes_of(alloc, c)?, behind))),
        None => Ok(None),
    }
}

// What the first character of a double quoted scalar gives, and the text behind it.
#[tactic(auto, unfolding(crate::specs::Quoted::piece))]
fn piece(alloc: Global, text: &[u8]) -> Result<Option<(Vec<u8>, &[u8])>, AllocError>
    ensures { IfOk result (λ r. option_map (λ p. (p.0.items, p.1.now)) r ≡ piece text.now) }
{
    match text {
        [] => Ok(None),
        [b'\\', behind @ ..] => escaped_piece(alloc, behind),
        [b, behind @ ..] => Ok(Some((one_byte(alloc, *b)?, behind))),
    }
}

// What stands between double quotes, each escape as its character.
fn unescaped(alloc: Global, text: &[u8]) -> Result<Option<Vec<u8>>, AllocError>
    ensures { IfOk result (λ r. option_map (λ s. s.items) r ≡ unescaped text.now) }
{
    let mut scalar = Vec::new(alloc);
    let mut rest = text;
    for _turn in 0..text.len() {
        if rest.is_empty() {
            return Ok(Some(scalar));
        }
        let Some((bytes, behind)) = piece(alloc, rest)? else {
            return Ok(None);
        };
        scalar.extend_from_slice(&bytes)?;
        rest = behind;
    }
    if rest.is_empty() {
        return Ok(Some(scalar));
    }
    Ok(None)
}

pub fn begins_quoted(text: &[u8]) -> bool
    ensures { result ≡ begins_quoted text.now }
{
    begins(b'"', text) || begins(b'\'', text)
}

// Where a double quoted scalar begins: the scalar, and the text behind it.
fn double(alloc: Global, text: &[u8]) -> Result<Option<(Str, &[u8])>, AllocError>
    ensures { IfOk result (λ r. option_map (λ p. (p.0, p.1.now)) r ≡ option_and_then unescaped_front (double_quoted false text.now)) }
{
    let Some((inner, behind)) = double_quoted(text) else {
        return Ok(None);
    };
    let Some(scalar) = unescaped(alloc, inner)? else {
        return Ok(None);
    };
    Ok(Some((owned(scalar)?, behind)))
}

// The same of one in apostrophes.
fn single(alloc: Global, text: &[u8]) -> Result<Option<(Str, &[u8])>, AllocError>
    ensures { IfOk result (λ r. option_map (λ p. (p.0, p.1.now)) r ≡ single_quoted false text.now) }
{
    let Some((scalar, behind)) = single_quoted(alloc, text)? else {
        return Ok(None);
    };
    Ok(Some((owned(scalar)?, behind)))
}

/// Where a quoted scalar begins: the scalar, and the text behind it.
#[tactic(auto, unfolding(crate::specs::Quoted::quoted))]
pub fn quoted(alloc: Global, text: &[u8]) -> Result<Option<(Str, &[u8])>, AllocError>
    ensures { IfOk result (λ r. option_map (λ p. (p.0, p.1.now)) r ≡ quoted text.now) }
{
    if begins(b'"', text) {
        double(alloc, tail(text))
    } else {
        single(alloc, tail(text))
    }
}

fn double_end(text: &[u8]) -> Option<&[u8]>
    ensures { option_map (λ p. p.now) result ≡ option_map (λ p. p.1) (double_quoted false text.now) }
{
    let (_, behind) = double_quoted(text)?;
    Some(behind)
}

/// Where a quoted scalar begins and is closed: the text behind its closing quote.
#[tactic(auto, unfolding(crate::specs::Quoted::closed_quote))]
pub fn closed_quote(text: &[u8]) -> Option<&[u8]>
    ensures { option_map (λ p. p.now) result ≡ closed_quote text.now }
{
    if begins(b'"', text) {
        double_end(tail(text))
    } else {
        single_end(tail(text))
    }
}
