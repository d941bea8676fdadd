//! The words that `clap` is given.
ghost use Rattle.std.specs.Prelude.{◌≡◌, ◌++◌, map, string_bytes, IfOk, OnOk};
ghost use Rattle.command_words.specs.Words.{reads_input, without_dashes, given, for_clap};
ghost use Rattle.clap.specs.Walk.{texts};

use crate::line::PROGRAM;
use std::alloc::{AllocError, Global};

/// The word that stands for standard input.
const STANDARD_INPUT: &str = "-";

// Whether the command reads standard input where it is named or no file is.
fn reads_input(command: &str) -> bool
    ensures { result ≡ reads_input command.now }
{
    match command {
        "apply" | "plan" | "policy" | "simulate" | "init" | "script" => true,
        _ => false,
    }
}

fn push_all<'w>(words: &'w [String], given: &mut Vec<&'w str>) -> Result<(), AllocError>
    ensures { OnOk result (texts given.new.items ≡ texts given.old.items ++ map string_bytes words.entry.now) }
{
    for word in words {
        given.push(word.as_str())?;
    }
    Ok(())
}

fn push_without_dashes<'w>(words: &'w [String], given: &mut Vec<&'w str>) -> Result<(), AllocError>
    ensures { OnOk result (texts given.new.items ≡ texts given.old.items ++ without_dashes (map string_bytes words.entry.now)) }
{
    for word in words {
        if word.as_str() != STANDARD_INPUT {
            given.push(word.as_str())?;
        }
    }
    Ok(())
}

fn push_given<'w>(words: &'w [String], out: &mut Vec<&'w str>) -> Result<(), AllocError>
    ensures { OnOk result (texts out.new.items ≡ texts out.old.items ++ given (map string_bytes words.entry.now)) }
{
    match words.split_first() {
        Some((command, rest)) => {
            out.push(command.as_str())?;
            if reads_input(command.as_str()) {
                push_without_dashes(rest, out)
            } else {
                push_all(rest, out)
            }
        }
        None => Ok(()),
    }
}

/// The words with the program's name before them, without those that are exactly `-` where they stand for standard
/// input.
pub fn for_clap<'w>(alloc: Global, words: &'w [String]) -> Result<Vec<&'w str>, AllocError>
    ensures { IfOk result (λ given. texts given.items ≡ for_clap (map string_bytes words.entry.now)) }
{
    let mut given = Vec::new(alloc);
    given.push(PROGRAM)?;
    push_given(words, &mut given)?;
    Ok(given)
}
