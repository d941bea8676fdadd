//! Plain scalars.

ghost use Rattle.std.specs.Prelude.{◌≡◌, ◌==◌, ◌||◌, true, false, IfOk, Some, None, if◌then◌else◌};
ghost use Rattle.std.specs.Char.{is_digit};
ghost use Rattle.std.specs.List.{list_all};
ghost use Rattle.std.specs.Str.Parse.{signed_digits_value};
ghost use Rattle.doc_tree.specs.Shape.{shape};
ghost use Rattle.yaml_plain.specs.Bytes.{dash, question};
ghost use Rattle.yaml_plain.specs.Plain.{begins_plain, ends_plain, plain_split, is_digits, is_whole, is_integer, is_null, is_text, plain_value};

use crate::bytes::{at_break, at_gap, is_indicator, is_same, is_sign};
use crate::style::Style;
use crate::text::copied;
use doc_tree::Tree;
use std::alloc::{AllocError, Global};
use std::str;

fn ends_plain(style: Style, spaced: bool, byte: u8, behind: &[u8]) -> bool
    ensures { result ≡ ends_plain style spaced byte behind.now }
{
    (spaced && byte == b'#')
        || (byte == b':' && at_break(style, behind))
        || (style.is_flow() && is_sign(byte))
}

/// A plain scalar with the spaces behind it, and the text from its end on.
pub fn plain_split(style: Style, text: &[u8]) -> (&[u8], &[u8])
    ensures { (result.0.now, result.1.now) ≡ plain_split style false text.now }
{
    let mut spaced = false;
    for (i, b) in text.iter().enumerate() {
        if ends_plain(style, spaced, *b, &text[i + 1..]) {
            return text.split_at(i);
        }
        spaced = *b == b' ';
    }
    (text, &[])
}

fn is_mark(byte: u8) -> bool
    ensures { result ≡ ((byte == dash) || (byte == question)) }
{
    byte == b'-' || byte == b'?'
}

/// Whether a plain scalar begins here.
pub fn begins_plain(style: Style, text: &[u8]) -> bool
    ensures { result ≡ begins_plain style text.now }
{
    match text {
        [] => false,
        [first, behind @ ..] => {
            !is_indicator(*first)
                && !(is_mark(*first) && at_gap(behind))
                && !(*first == b':' && at_break(style, behind))
        }
    }
}

fn are_decimal(text: &[u8]) -> bool
    ensures { result ≡ list_all (λ c. is_digit c 10) text.now }
{
    text.iter().all(|b| b.is_ascii_digit())
}

// Whether the text is decimal digits that don't begin with 0.
fn is_digits(text: &[u8]) -> bool
    ensures { result ≡ is_digits text.now }
{
    match text {
        [] => false,
        [first, ..] => are_decimal(text) && *first != b'0',
    }
}

// Whether the text has the form of a whole number, of any size.
fn is_whole(text: &[u8]) -> bool
    ensures { result ≡ is_whole text.now }
{
    match text {
        [b'-', digits @ ..] => is_digits(digits),
        _ => is_same(text, b"0") || is_digits(text),
    }
}

// The whole number that a text of that form writes, if it has at most 128 bits.
fn number(text: &str) -> Option<i128>
    requires { is_whole text.now ≡ true }
    ensures { result ≡ (if is_integer text.now then Some (signed_digits_value 10 text.now) else None) }
{
    text.parse::<i128>().ok()
}

/// The whole number that a text writes as a plain scalar does: `0`, or digits that don't begin with 0, where a minus may
/// come first. One of more than 128 bits isn't read.
pub fn integer_of(text: &str) -> Option<i128>
    ensures { result ≡ (if is_integer text.now then Some (signed_digits_value 10 text.now) else None) }
{
    if is_whole(text.as_bytes()) {
        number(text)
    } else {
        None
    }
}

// The same of bytes that are UTF-8.
fn integer(bytes: &[u8]) -> Result<Option<i128>, AllocError>
    ensures { IfOk result (λ n. n ≡ (if is_integer bytes.now then Some (signed_digits_value 10 bytes.now) else None)) }
{
    if !is_whole(bytes) {
        return Ok(None);
    }
    match str::from_utf8(bytes) {
        Ok(text) => Ok(number(text)),
        Err(_) => Err(AllocError),
    }
}

fn is_null(text: &[u8]) -> bool
    ensures { result ≡ is_null text.now }
{
    is_same(text, b"null") || is_same(text, b"~") || text.is_empty()
}

/// Whether a plain scalar stands for a string, and for no number, boolean or null.
#[tactic(auto, unfolding(crate::specs::Plain::plain_value))]
pub fn is_plain_string(text: &str) -> bool
    ensures { result ≡ is_text (plain_value text.now) }
{
    let bytes = text.as_bytes();
    if integer_of(text).is_some() {
        return false;
    }
    if is_same(bytes, b"true") {
        return false;
    }
    if is_same(bytes, b"false") {
        return false;
    }
    !is_null(bytes)
}

/// What a plain scalar stands for, as a value.
#[tactic(auto, unfolding(crate::specs::Plain::plain_value))]
pub fn plain_value(alloc: Global, text: &[u8]) -> Result<Tree, AllocError>
    ensures { IfOk result (λ tree. shape tree ≡ plain_value text.now) }
{
    if let Some(n) = integer(text)? {
        return Ok(Tree::Int(n));
    }
    if is_same(text, b"true") {
        return Ok(Tree::Bool(true));
    }
    if is_same(text, b"false") {
        return Ok(Tree::Bool(false));
    }
    if is_null(text) {
        return Ok(Tree::Null);
    }
    Ok(Tree::Text(copied(alloc, text)?))
}
