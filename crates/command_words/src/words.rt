//! The command of the words.
ghost use Rattle.std.specs.Prelude.{◌≡◌, ◌↔◌, None, codes, map, string_bytes, IfOk, OnErr};
ghost use Rattle.std.specs.List.{list_any};
ghost use Rattle.std.specs.Str.{bytes_eq};
ghost use Rattle.command_words.specs.Words.{lone_word, lone, by_clap, is_escaped_rollout, unescaped, command_of, InRange, IsUsage};

use crate::Command;
use crate::found::command_found;
use crate::given::for_clap;
use crate::line::command_line;
use base_model::OutOfMemory;
use clap::error::ErrorKind;
use std::alloc::Global;

// The word after which no word is an option.
const ESCAPE: &str = "--";

/// The command of one word alone.
pub(crate) fn lone_word(word: &str) -> Option<Command>
    ensures { result ≡ lone_word word.now }
{
    match word {
        "commit" => Some(Command::Commit),
        "rollback" => Some(Command::Rollback),
        "recover" => Some(Command::Recover),
        _ => None,
    }
}

/// The command `commit`, `rollback` or `recover`, where the words are exactly that one. It takes no memory.
pub fn lone(words: &[String]) -> Option<Command>
    ensures { result ≡ lone (map string_bytes words.now) }
{
    match words {
        [word] => lone_word(word.as_str()),
        _ => None,
    }
}

fn by_clap(alloc: Global, words: &[String]) -> Result<Option<Command>, OutOfMemory>
    ensures { IfOk result (λ command. command ≡ by_clap (map string_bytes words.now)) }
{
    let given = for_clap(alloc, words)?;
    let line = command_line(alloc)?;
    match line.try_get_matches_from(given.as_slice()) {
        Ok(matches) => Ok(command_found(alloc, &matches)?),
        Err(error) => match error.kind() {
            ErrorKind::OutOfMemory => Err(OutOfMemory),
            _ => Ok(None),
        },
    }
}

fn is_escape(word: &String) -> bool
    ensures { result ≡ bytes_eq (string_bytes word.now) (codes "--") }
{
    word.as_str() == ESCAPE
}

fn any_escape(words: &[String]) -> bool
    ensures { result ≡ list_any (λ word. bytes_eq (string_bytes word) (codes "--")) words.now }
{
    words.iter().any(|word| is_escape(word))
}

fn has_escape(words: &[String]) -> bool
    ensures { result ≡ list_any (λ word. bytes_eq word (codes "--")) (map string_bytes words.now) }
{
    any_escape(words)
}

// Whether the words are a rollout's with `--` among them.
fn is_escaped_rollout(words: &[String]) -> bool
    ensures { result ≡ is_escaped_rollout (map string_bytes words.now) }
{
    match words.split_first() {
        Some((command, rest)) => command.as_str() == "rollout" && has_escape(rest),
        None => false,
    }
}

fn unescaped(alloc: Global, words: &[String]) -> Result<Option<Command>, OutOfMemory>
    ensures { IfOk result (λ command. command ≡ unescaped (map string_bytes words.now)) }
{
    if is_escaped_rollout(words) {
        return Ok(None);
    }
    by_clap(alloc, words)
}

/// The command of the words after the program's name, or `None` where they are none.
///
/// A `-` is taken out where a FILE may be missing, which is standard input then. A `rollout` with `--` among its words is no
/// command. Memory is taken only for words that `lone` doesn't know.
pub fn command_of(alloc: Global, words: &[String]) -> Result<Option<Command>, OutOfMemory>
    ensures command { IfOk result (λ command. command ≡ command_of (map string_bytes words.now)) }
    ensures range { IfOk result InRange }
    ensures usage { IfOk result (λ command. (command ≡ None) ↔ IsUsage (map string_bytes words.now)) }
    ensures memory { OnErr result (lone (map string_bytes words.now) ≡ None) }
{
    match lone(words) {
        Some(command) => Ok(Some(command)),
        None => unescaped(alloc, words),
    }
}
