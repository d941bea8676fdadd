//! What stands at the front and the end of a text.

ghost use Rattle.std.specs.Prelude.{◌≡◌};
ghost use Rattle.yaml_plain.specs.Bytes.{begins, tail, skip_spaces, leading_spaces, trim_end, is_sign, is_indicator, at_gap, at_break, is_same};

use crate::style::Style;

/// Whether the text begins with this byte.
pub fn begins(byte: u8, text: &[u8]) -> bool
    ensures { result ≡ begins byte text.now }
{
    match text {
        [] => false,
        [first, ..] => *first == byte,
    }
}

/// The text without its first byte.
pub fn tail(text: &[u8]) -> &[u8]
    ensures { result.now ≡ tail text.now }
{
    match text {
        [] => text,
        [_, rest @ ..] => rest,
    }
}

/// The text behind the spaces at its front.
pub fn skip_spaces(text: &[u8]) -> &[u8]
    ensures { result.now ≡ skip_spaces text.now }
{
    let mut rest = text;
    while let [b' ', behind @ ..] = rest {
        rest = behind;
    }
    rest
}

/// How many spaces stand at the front of the text.
pub fn leading_spaces(text: &[u8]) -> usize
    ensures { result ≡ leading_spaces text.now }
{
    let mut count = 0;
    for b in text {
        if *b != b' ' {
            break;
        }
        count += 1;
    }
    count
}

/// The text without the spaces at its end.
pub fn trim_end(text: &[u8]) -> &[u8]
    ensures { result.now ≡ trim_end text.now }
{
    let mut end = text.len();
    while end > 0 && text[end - 1] == b' ' {
        end -= 1;
    }
    &text[..end]
}

/// Whether the byte is a sign of flow: a bracket, a brace or a comma (YAML 1.2, section 7.4).
pub fn is_sign(byte: u8) -> bool
    ensures { result ≡ is_sign byte }
{
    matches!(byte, b'[' | b']' | b'{' | b'}' | b',')
}

/// Whether no plain scalar begins with the byte (YAML 1.2, section 7.3.3).
pub fn is_indicator(byte: u8) -> bool
    ensures { result ≡ is_indicator byte }
{
    matches!(
        byte,
        b'[' | b']'
            | b'{'
            | b'}'
            | b','
            | b'#'
            | b'&'
            | b'*'
            | b'!'
            | b'|'
            | b'>'
            | b'\''
            | b'"'
            | b'%'
            | b'@'
            | b'`'
    )
}

/// Whether the text is empty or begins with a space.
pub fn at_gap(text: &[u8]) -> bool
    ensures { result ≡ at_gap text.now }
{
    match text {
        [] => true,
        [first, ..] => *first == b' ',
    }
}

/// Whether a word ends before the text: it is empty or begins with a space, or in flow with a sign.
pub fn at_break(style: Style, text: &[u8]) -> bool
    ensures { result ≡ at_break style text.now }
{
    match text {
        [] => true,
        [first, ..] => *first == b' ' || (style.is_flow() && is_sign(*first)),
    }
}

/// Whether the texts are the same, byte by byte.
pub fn is_same(a: &[u8], b: &[u8]) -> bool
    ensures { result ≡ is_same a.now b.now }
{
    a == b
}
