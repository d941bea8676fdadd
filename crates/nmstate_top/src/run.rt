//! One command, at the prompt or as a step of a script.
ghost use Rattle.std.specs.Prelude.{◌≡◌, ℕ, true, false, Bool, List, String, map, string_bytes, IfOk};
ghost use Rattle.std.specs.declared.alloc.Global.{Global};
ghost use Rattle.command_words.specs.Words.{command_of};
ghost use Rattle.host_core.specs.Clocks.{Ticks};
ghost use Rattle.order_reading.specs.AsDefined.{as_defined, has_right_document};
ghost use Rattle.top_model.specs.Answered.{Answered};
ghost use Rattle.top_model.specs.Commands.{Promised, Commanded};
ghost use Rattle.top_model.specs.Promises.{StandsApart};
ghost use Rattle.top_model.specs.Runs.{run_of};
ghost use Rattle.top_model.specs.Scripts.{file_of};
ghost use Rattle.command_laws.specs.Carried.{Carried};
ghost use Rattle.command_laws.specs.First.{has_hardware};
ghost use Rattle.command_laws.specs.Words.{RanWords};
ghost use Rattle.command_laws.specs.Worked.{works_apart};
ghost use Rattle.nmstate_top.specs.Read.{WasRead};

use crate::generate::generate_run;
use crate::script::run_file;
use answer_text::tell_refused;
use base_model::{OutOfMemory, Str};
use engine_commands::{
    apply_policy_run, apply_run, check_run, commit_run, recover_run, rollback_run,
};
use host_core::{Clock, Host, Sink, Source};
use order_reading::{Order, read_order, script_file};
use plain_commands::{init_run, plan_policy_run, plan_run, policy_run, show_run, simulate_run};
use std::alloc::Global;
use top_model::{Cause, Report};

// Carries out an order.
fn run_order<H: Host, S: Source, W: Sink>(
    alloc: Global,
    order: Order,
    host: &mut H,
    out: &mut W,
    err: &mut W,
    now: u64,
) -> Report
    requires document { has_right_document order ≡ true }
    requires hardware { has_hardware order ≡ true }
    ensures carried { Carried H.Host S.Source W.Sink (as_defined order) now host.old host.new out.old out.new err.old err.new result }
    ensures apart { works_apart order ≡ true → host.new ≡ host.old }
{
    match order {
        Order::Show { only, json } => show_run::<H, S, W>(alloc, &only, json, host, out, err),
        Order::Plan { doc, batch } => plan_run::<H, S, W>(alloc, &doc, batch, host, out, err),
        Order::PlanPolicy { policy, batch } => {
            plan_policy_run::<H, S, W>(alloc, &policy, batch, host, out, err)
        }
        Order::Evaluate { policy } => policy_run::<H, S, W>(alloc, &policy, host, out, err),
        Order::Simulate { calls } => {
            simulate_run::<H, S, W>(alloc, calls.items(), host, out, err)
        }
        Order::Apply { doc, opts } => {
            apply_run::<H, S, W>(alloc, &doc, &opts, host, out, err, now)
        }
        Order::ApplyPolicy { policy, opts } => {
            apply_policy_run::<H, S, W>(alloc, &policy, &opts, host, out, err, now)
        }
        Order::Commit => commit_run::<H, S, W>(host, out, err, now),
        Order::Rollback => rollback_run::<H, S, W>(alloc, host, out, err),
        Order::Recover => recover_run::<H, S, W>(alloc, host, out, err, now),
        Order::Check => check_run::<H, S, W>(alloc, host, out, err),
        Order::Init { links } => init_run::<H, S, W>(alloc, links, host, out, err),
        Order::Generate {
            devices,
            first,
            second,
        } => generate_run::<H, S, W>(alloc, &devices, &first, &second, out, err),
    }
}

// Answers what was read of the words.
fn answer_read<H: Host, S: Source, W: Sink>(
    alloc: Global,
    read: Result<Order, Cause>,
    host: &mut H,
    out: &mut W,
    err: &mut W,
    now: u64,
) -> Report
    requires document { IfOk read (λ order. has_right_document order ≡ true) }
    requires hardware { IfOk read (λ order. has_hardware order ≡ true) }
    ensures answered { (words : List (String Global)) (in_script : Bool) (src after : S) → WasRead S.Source words in_script src after read
        → Answered (run_of H.Host S.Source W.Sink words in_script now host.old host.new src after out.old out.new err.old err.new result) }
    ensures apart { (words : List (String Global)) (in_script : Bool) (src after : S) → WasRead S.Source words in_script src after read
        → StandsApart (run_of H.Host S.Source W.Sink words in_script now host.old host.new src after out.old out.new err.old err.new result) }
{
    match read {
        Ok(order) => run_order::<H, S, W>(alloc, order, host, out, err, now),
        Err(refusal) => tell_refused(b"", refusal, out, err),
    }
}

// One command, at the prompt or as a step of a script.
pub(crate) fn run_one<H: Host, S: Source, W: Sink>(
    alloc: Global,
    words: &Vec<String>,
    in_script: bool,
    host: &mut H,
    src: &mut S,
    out: &mut W,
    err: &mut W,
    now: u64,
) -> Report
    ensures answered { Answered (run_of H.Host S.Source W.Sink words.now.items in_script now
        host.old host.new src.old src.new out.old out.new err.old err.new result) }
    ensures apart { StandsApart (run_of H.Host S.Source W.Sink words.now.items in_script now
        host.old host.new src.old src.new out.old out.new err.old err.new result) }
{
    let read = read_order(alloc, words.as_slice(), in_script, src);
    answer_read::<H, S, W>(alloc, read, host, out, err, now)
}

/// Answers one command at a moment, in seconds, and tells the answer to the sinks. The words are those after the
/// program's name; for `script`, `service` and `rollout` it answers `Usage`.
pub fn run_at<H: Host, S: Source, W: Sink>(
    alloc: Global,
    words: &Vec<String>,
    host: &mut H,
    src: &mut S,
    out: &mut W,
    err: &mut W,
    now: u64,
) -> Report
    ensures promised { Promised (run_of H.Host S.Source W.Sink words.now.items false now
        host.old host.new src.old src.new out.old out.new err.old err.new result) }
{
    run_one(alloc, words, false, host, src, out, err, now)
}

// One command, at the moment at which its input has been read: whoever waits for a document answers at the moment at which it
// came, and not at one before a change that others made meanwhile.
fn run_clocked<H: Host, S: Source, W: Sink, C: Clock>(
    alloc: Global,
    words: &Vec<String>,
    host: &mut H,
    src: &mut S,
    out: &mut W,
    err: &mut W,
    clock: &mut C,
) -> Report
    ensures { (now : ℕ) × (C.tells → Ticks (C.coming clock.old) now (C.coming clock.new))
        × Answered (run_of H.Host S.Source W.Sink words.now.items false now
        host.old host.new src.old src.new out.old out.new err.old err.new result)
        × StandsApart (run_of H.Host S.Source W.Sink words.now.items false now
        host.old host.new src.old src.new out.old out.new err.old err.new result) }
{
    let read = read_order(alloc, words.as_slice(), false, src);
    let now = clock.now();
    answer_read::<H, S, W>(alloc, read, host, out, err, now)
}

// The command of the words: `script` with this FILE, or another one.
fn run_named<H: Host, S: Source, W: Sink, C: Clock>(
    alloc: Global,
    script: &Option<Option<Str>>,
    words: &Vec<String>,
    host: &mut H,
    src: &mut S,
    out: &mut W,
    err: &mut W,
    clock: &mut C,
) -> Report
    requires { script.now ≡ file_of (command_of (map string_bytes words.now.items)) }
    ensures { (now : ℕ) × (C.tells → Ticks (C.coming clock.old) now (C.coming clock.new))
        × RanWords H.Host S.Source W.Sink words.now.items now
        host.old host.new src.old src.new out.old out.new err.old err.new result }
{
    match script {
        Some(file) => {
            let _ = clock.now();
            run_file(alloc, file, host, src, out, err)
        }
        None => run_clocked(alloc, words, host, src, out, err, clock),
    }
}

/// Does all that the program does, but for services and rollouts: asks the clock once, when the command's input has been
/// read, and is `run_at` at that moment for every command but `script`, whose lines have moments of their own. The words are
/// those after the program's name.
pub fn run_command<H: Host, S: Source, W: Sink, C: Clock>(
    alloc: Global,
    words: &Vec<String>,
    host: &mut H,
    src: &mut S,
    out: &mut W,
    err: &mut W,
    clock: &mut C,
) -> Report
    ensures commanded { Commanded H.Host S.Source W.Sink C.Clock words.now.items clock.old clock.new
        host.old host.new src.old src.new out.old out.new err.old err.new result }
{
    match script_file(alloc, words.as_slice()) {
        Ok(script) => run_named(alloc, &script, words, host, src, out, err, clock),
        Err(OutOfMemory) => {
            let _ = clock.now();
            tell_refused(b"", Cause::OutOfMemory, out, err)
        }
    }
}
