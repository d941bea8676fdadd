//! The words of the program.
ghost use Rattle.std.specs.Prelude.{◌≡◌, map, string_bytes};
ghost use Rattle.program_top.specs.Programs.{world, begins_with, Answers, Programmed};

use crate::limits::limit_laws;
use answer_text::tell_refused;
use base_model::OutOfMemory;
use command_words::{Command, command_of};
use host_core::{Clock, Folder, Host, Sink, Source};
use nmstate_top::run_command;
use rollout_top::run_rollout;
use service_run::{serve_all, service_laws};
use std::alloc::Global;
use top_model::{Cause, Report};

fn begins_with(first: &str, words: &[String]) -> bool
    ensures { result ≡ begins_with first.now (map string_bytes words.now) }
{
    match words.split_first() {
        Some((word, _)) => word.as_str() == first,
        None => false,
    }
}

// Words that begin with the name of a command over folders.
fn run_folders<H: Host, S: Source, F: Folder, W: Sink, C: Clock>(
    alloc: Global,
    words: &Vec<String>,
    host: &mut H,
    nodes: &mut Vec<H>,
    src: &mut S,
    folder: &mut F,
    out: &mut W,
    err: &mut W,
    clock: &mut C,
) -> Report
    ensures { Answers H.Host S.Source F.Folder W.Sink C.Clock words.now.items
        (world host.old nodes.old.items src.old folder.old out.old err.old clock.old)
        (world host.new nodes.new.items src.new folder.new out.new err.new clock.new) result }
{
    match command_of(alloc, words.as_slice()) {
        Ok(Some(Command::Service { .. })) => {
            service_laws::<H, F, S, W, C>();
            serve_all(alloc, host, folder, out, err, clock)
        }
        Ok(Some(Command::Rollout { limit, file, dirs })) => {
            if nodes.len() != dirs.items().len() {
                return tell_refused(b"", Cause::Usage, out, err);
            }
            run_rollout(alloc, limit, file, nodes, src, out, err, clock)
        }
        Ok(_) => run_command(alloc, words, host, src, out, err, clock),
        Err(OutOfMemory) => tell_refused(b"", Cause::OutOfMemory, out, err),
    }
}

/// Does all that the program does: a service over `folder` for `service DIR`, a rollout over `nodes` for
/// `rollout LIMIT FILE DIR..`, and `run_command` over `host` for all other words. The words are those after the program's name.
/// A rollout is `Usage` where there aren't as many nodes as DIRs.
pub fn run_program<H: Host, S: Source, F: Folder, W: Sink, C: Clock>(
    alloc: Global,
    words: &Vec<String>,
    host: &mut H,
    nodes: &mut Vec<H>,
    src: &mut S,
    folder: &mut F,
    out: &mut W,
    err: &mut W,
    clock: &mut C,
) -> Report
    ensures programmed { Programmed H.Host S.Source F.Folder W.Sink C.Clock words.now.items
        (world host.old nodes.old.items src.old folder.old out.old err.old clock.old)
        (world host.new nodes.new.items src.new folder.new out.new err.new clock.new) result }
{
    limit_laws();
    let words_given = words.as_slice();
    if begins_with("service", words_given) || begins_with("rollout", words_given) {
        return run_folders(alloc, words, host, nodes, src, folder, out, err, clock);
    }
    run_command(alloc, words, host, src, out, err, clock)
}
