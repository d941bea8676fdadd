//! The command of words.

use base_model::{Items, OutOfMemory, Str};
use case_table::Text;
use command_words::{Command, command_of, lone};
use std::alloc::Global;

/// Words that are parted by single spaces.
pub fn words(alloc: Global, line: &str) -> Result<Vec<String>, OutOfMemory> {
    let mut words = Vec::new(alloc);
    for word in line.split(' ') {
        words.push(String::from_str(alloc, word)?)?;
    }
    Ok(words)
}

fn push_text(key: &str, text: &Str, out: &mut Text) {
    out.push_str(key);
    out.push_str(text.as_str());
}

fn push_given(key: &str, text: &Option<Str>, out: &mut Text) {
    if let Some(text) = text {
        push_text(key, text, out);
    }
}

fn push_number(key: &str, number: u32, out: &mut Text) {
    out.push_str(key);
    out.push_number(u64::from(number));
}

fn push_flag(word: &str, flag: bool, out: &mut Text) {
    if flag {
        out.push_str(word);
    }
}

// The name of a command.
fn name_of(command: &Command) -> &'static str {
    match command {
        Command::Show { .. } => "show",
        Command::Plan { .. } => "plan",
        Command::Policy { .. } => "policy",
        Command::Simulate { .. } => "simulate",
        Command::Apply { .. } => "apply",
        Command::Service { .. } => "service",
        Command::Rollout { .. } => "rollout",
        Command::Commit => "commit",
        Command::Rollback => "rollback",
        Command::Recover => "recover",
        Command::Check => "check",
        Command::Init { .. } => "init",
        Command::Script { .. } => "script",
        Command::Generate { .. } => "generate",
    }
}

fn push_rollout(limit: u32, file: &Str, dirs: &Items<Str>, out: &mut Text) {
    push_number(" limit=", limit, out);
    push_text(" file=", file, out);
    for dir in dirs.items() {
        push_text(" dir=", dir, out);
    }
}

fn push_command(command: &Command, out: &mut Text) {
    out.push_str(name_of(command));
    match command {
        Command::Show { only, json } => {
            push_flag(" json", *json, out);
            push_given(" only=", only, out);
        }
        Command::Plan { file, batch } => {
            push_flag(" batch", *batch, out);
            push_given(" file=", file, out);
        }
        Command::Policy { file }
        | Command::Simulate { file }
        | Command::Init { file }
        | Command::Script { file } => push_given(" file=", file, out),
        Command::Service { dir } => push_text(" dir=", dir, out),
        Command::Rollout { limit, file, dirs } => push_rollout(*limit, file, dirs, out),
        Command::Apply {
            file,
            no_commit,
            no_verify,
            timeout,
        } => {
            push_flag(" no-commit", *no_commit, out);
            push_flag(" no-verify", *no_verify, out);
            push_number(" timeout=", *timeout, out);
            push_given(" file=", file, out);
        }
        Command::Generate { devices, seed } => {
            push_number(" devices=", *devices, out);
            push_number(" seed=", *seed, out);
        }
        _ => {}
    }
}

// The command of the words, of none at all, or of words that stand alone.
fn found(alloc: Global, kind: &str, case: &str) -> Result<Option<Command>, OutOfMemory> {
    match kind {
        "command" => command_of(alloc, &words(alloc, case)?),
        "lone" => Ok(lone(&words(alloc, case)?)),
        _ => command_of(alloc, &[]),
    }
}

/// Pushes the answer to a case on commands, if it is one.
pub fn answer(alloc: Global, kind: &str, case: &str, out: &mut Text) -> bool {
    if !matches!(kind, "command" | "lone" | "no-words") {
        return false;
    }
    match found(alloc, kind, case) {
        Ok(Some(command)) => push_command(&command, out),
        Ok(None) => out.push_str("none"),
        Err(OutOfMemory) => out.remember(false),
    }
    true
}
