//! One line of a script.
ghost use Rattle.std.specs.Prelude.{◌≡◌, IfOk, option_map};
ghost use Rattle.top_model.specs.Lines.{words_in, timed, timed_of, step_of, is_skipped, begins_well, is_digit};
ghost use Rattle.std.specs.List.{list_all};
ghost use Rattle.order_reading.specs.Steps.{moment_of, unless_empty, words_seen, IsFirstWord};

use std::alloc::{AllocError, Global};
use std::str;
use top_model::Step;

/// What begins a line that is skipped.
const COMMENT: u8 = b'#';

/// Whether a line is empty or begins with `#`.
pub fn is_skipped(line: &[u8]) -> bool
    ensures { result ≡ is_skipped line.now }
{
    match line {
        [first, ..] => *first == COMMENT,
        [] => true,
    }
}

// Whether a text doesn't begin with 0, or is `0` alone; the empty one doesn't begin at all.
fn begins_well(text: &[u8]) -> bool
    ensures { result ≡ begins_well text.now }
{
    match text {
        [first, rest @ ..] => *first != b'0' || rest.is_empty(),
        [] => false,
    }
}

fn are_digits(text: &[u8]) -> bool
    ensures { result ≡ list_all is_digit text.now }
{
    text.iter().all(|byte| *byte >= b'0' && *byte <= b'9')
}

// The moment that a text is: `0`, or digits that don't begin with 0, below 2^64.
fn moment_of(text: &str) -> Option<u64>
    ensures { result ≡ moment_of text.now }
{
    if !are_digits(text.as_bytes()) || !begins_well(text.as_bytes()) {
        return None;
    }
    match u64::from_str_radix(text, 10) {
        Ok(moment) => Some(moment),
        Err(_) => None,
    }
}

// The first word, and what follows its space; nothing where there is no space.
fn first_word(text: &str) -> Option<(&str, &str)>
    ensures { IsFirstWord text.now result }
{
    text.split_once(' ')
}

// The words of a text, which stand between single spaces, or nothing where one is empty.
fn words_of(alloc: Global, text: &str) -> Result<Option<Vec<String>>, AllocError>
    ensures { IfOk result (λ words. option_map words_seen words ≡ unless_empty (words_in text.now)) }
{
    let mut words = Vec::new(alloc);
    let mut rest = text;
    while let Some((word, more)) = first_word(rest) {
        if word.is_empty() {
            return Ok(None);
        }
        words.push(String::from_str(alloc, word)?)?;
        rest = more;
    }
    if rest.is_empty() {
        return Ok(None);
    }
    words.push(String::from_str(alloc, rest)?)?;
    Ok(Some(words))
}

// The moment and the words of a line that is UTF-8.
fn timed(alloc: Global, line: &str) -> Result<Option<Step>, AllocError>
    ensures { IfOk result (λ step. option_map timed_of step ≡ timed (words_in line.now)) }
{
    let Some((moment, rest)) = first_word(line) else {
        return Ok(None);
    };
    let Some(at) = moment_of(moment) else {
        return Ok(None);
    };
    match words_of(alloc, rest)? {
        Some(words) => Ok(Some(Step { at, words })),
        None => Ok(None),
    }
}

/// The step that a line is: a moment, a space, and words parted by single spaces, all in UTF-8.
pub fn step_of(alloc: Global, line: &[u8]) -> Result<Option<Step>, AllocError>
    ensures { IfOk result (λ step. option_map timed_of step ≡ step_of line.now) }
{
    match str::from_utf8(line) {
        Ok(text) => timed(alloc, text),
        Err(_) => Ok(None),
    }
}
