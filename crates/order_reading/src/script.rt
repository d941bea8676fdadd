//! The lines of a script.
ghost use Rattle.std.specs.Prelude.{◌≡◌, ◌<◌, ◌==◌, ◌&&◌, ◌∷◌, false, None, map, string_bytes, length, IfOk, OnErr};
ghost use Rattle.std.specs.List.{position};
ghost use Rattle.net_model.specs.Words.{is_empty};
ghost use Rattle.command_words.specs.Words.{lone, command_of};
ghost use Rattle.top_model.specs.Orders.{and_then, input};
ghost use Rattle.top_model.specs.Lines.{lines_of, steps_of};
ghost use Rattle.top_model.specs.Scripts.{file_of, as_steps};
ghost use Rattle.order_reading.specs.Reading.{Reads, Answers, GoesOn, Takes};
ghost use Rattle.order_reading.specs.Steps.{seen, TakesLine};

use crate::input::read_input;
use crate::line::{is_skipped, step_of};
use base_model::{OutOfMemory, Str};
use command_words::{Command, command_of};
use doc_tree::MAX_BYTES;
use host_core::Source;
use std::alloc::{AllocError, Global};
use top_model::{Cause, Step};

const LINE_END: u8 = b'\n';

fn line_end(bytes: &[u8]) -> Option<usize>
    ensures { result ≡ position (λ byte. byte == 10) bytes.now }
{
    bytes.iter().position(|byte| *byte == LINE_END)
}

// The first line, and what follows its end.
fn first_line(bytes: &[u8]) -> (&[u8], &[u8])
    requires { 0 < length bytes.now }
    ensures lines { lines_of bytes.now ≡ result.0.now ∷ lines_of result.1.now }
    ensures shorter { length result.1.now < length bytes.now }
{
    match line_end(bytes) {
        Some(end) => (&bytes[..end], &bytes[end + 1..]),
        None => (bytes, &[]),
    }
}

// Whether a line with this behind it is the last of a text that reaches past the limit.
fn is_cut(past: bool, more: &[u8]) -> bool
    ensures { result ≡ (past && is_empty (lines_of more.now)) }
{
    past && more.is_empty()
}

// Appends the step of a line, unless it is skipped, and answers whether the line may stand.
fn push_step(alloc: Global, line: &[u8], steps: &mut Vec<Step>) -> Result<bool, AllocError>
    ensures { IfOk result (TakesLine line.now (seen steps.old) (seen steps.new)) }
{
    if is_skipped(line) {
        return Ok(true);
    }
    match step_of(alloc, line)? {
        Some(step) => {
            steps.push(step)?;
            Ok(true)
        }
        None => Ok(false),
    }
}

/// The steps of a script's lines, or `BadLine` with the number, from 1, of the first line that is none: one that is no
/// moment with words, or one that reaches past the limit of bytes. Empty lines and those that begin with `#` are skipped. It
/// also answers `OutOfMemory`.
pub fn steps_of(alloc: Global, bytes: &[u8]) -> Result<Vec<Step>, Cause>
    ensures { Answers seen (as_steps (steps_of bytes.now)) result }
{
    let past = bytes.len() > MAX_BYTES;
    let mut steps = Vec::new(alloc);
    let mut number = 1u64;
    let mut rest = bytes;
    while !rest.is_empty() {
        let (line, more) = first_line(rest);
        if is_cut(past, more) {
            return Err(Cause::BadLine(number));
        }
        if !push_step(alloc, line, &mut steps)? {
            return Err(Cause::BadLine(number));
        }
        number += 1;
        rest = more;
    }
    Ok(steps)
}

/// The FILE of the words `script FILE`, which may be missing, or nothing where the words are no script.
pub fn script_file(alloc: Global, words: &[String]) -> Result<Option<Option<Str>>, OutOfMemory>
    ensures file { IfOk result (λ file. file ≡ file_of (command_of (map string_bytes words.now))) }
    ensures memory { OnErr result (lone (map string_bytes words.now) ≡ None) }
{
    match command_of(alloc, words)? {
        Some(Command::Script { file }) => Ok(Some(file)),
        _ => Ok(None),
    }
}

/// The steps of the script in a FILE, or why none of them is run: `NoSuchName`, `ReadFault` or `BadLine`; out of memory may
/// come at any place. A FILE that is missing is standard input.
pub fn read_script<S: Source>(
    alloc: Global,
    file: &Option<Str>,
    src: &mut S,
) -> Result<Vec<Step>, Cause>
    ensures steps { Reads seen (λ inputs. and_then (input false inputs file.now) (λ bytes. as_steps (steps_of bytes)))
        S.tells (S.told src.old) (S.told src.new) result }
    ensures source { GoesOn S.tells (S.told src.old) (S.told src.new) }
    // It is read up to the limit and one byte.
    ensures taken { Takes S.tells (S.told src.old) (S.told src.new) file.now result }
{
    let bytes = read_input(alloc, false, file, src)?;
    steps_of(alloc, bytes.as_slice())
}
