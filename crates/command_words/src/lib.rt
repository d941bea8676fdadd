//! The words of the command line: which are which command.
//!
//! The words `commit`, `rollback` and `recover` alone are read without memory; all others by `clap`.
#![tactic(auto)]

// The commands.
mod command;
// The command line, as `clap` takes it.
mod line;
// The words that `clap` is given.
mod given;
// The command in what `clap` found.
mod found;
// The command of the words.
mod words;

pub use command::{Command, DEFAULT_TIMEOUT, MAX_DEVICES, MAX_NODES, MIN_DEVICES, MIN_NODES};
pub use words::{command_of, lone};
