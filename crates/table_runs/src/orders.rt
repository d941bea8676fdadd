//! The order of words with what is read for it, and the steps of scripts.

use crate::commands::words;
use base_model::{OutOfMemory, Str};
use case_outside::MemorySource;
use case_table::{Text, parted};
use host_memory::Fuse;
use order_reading::{Order, read_order, read_script, script_file, steps_of};
use std::alloc::Global;
use top_model::{Cause, DocFault, Step};

// A source with this input under the name `file`, whose call of this number fails; no call has the number 0.
fn source(alloc: Global, text: &str, failing: u64) -> Result<MemorySource, OutOfMemory> {
    let mut fuses = Vec::new(alloc);
    fuses.push(Fuse {
        call: failing,
        done: false,
    })?;
    let name = String::from_str(alloc, "file")?;
    let bytes = Vec::from_slice(alloc, text.as_bytes())?;
    let mut inputs = Vec::new(alloc);
    inputs.push((name, bytes))?;
    Ok(MemorySource::new(alloc, inputs, fuses))
}

fn name_of_refusal(cause: &Cause) -> &'static str {
    match cause {
        Cause::Usage => "usage",
        Cause::NoSuchName => "no such name",
        Cause::ReadFault => "read fault",
        Cause::DocRefused(DocFault::Json(_)) => "json",
        Cause::DocRefused(DocFault::Yaml(_)) => "yaml",
        Cause::DocRefused(DocFault::Schema(_)) => "schema",
        Cause::DocRefused(DocFault::Policy(_)) => "policy fault",
        Cause::BatchLine(_) => "batch line",
        Cause::BatchLarge => "batch too large",
        _ => "another",
    }
}

fn name_of(answer: &Result<Order, Cause>) -> &'static str {
    match answer {
        Ok(Order::Show { .. }) => "show",
        Ok(Order::Plan { .. }) => "plan",
        Ok(Order::PlanPolicy { .. }) => "plan of a policy",
        Ok(Order::Evaluate { .. }) => "policy",
        Ok(Order::Simulate { .. }) => "simulate",
        Ok(Order::Apply { .. }) => "apply",
        Ok(Order::ApplyPolicy { .. }) => "apply of a policy",
        Ok(Order::Commit) => "commit",
        Ok(Order::Rollback) => "rollback",
        Ok(Order::Recover) => "recover",
        Ok(Order::Check) => "check",
        Ok(Order::Init { .. }) => "init",
        Ok(Order::Generate { .. }) => "generate",
        Err(cause) => name_of_refusal(cause),
    }
}

// What is asked, or why it is refused.
fn name_asked(
    alloc: Global,
    in_script: bool,
    words: &[String],
    source: &mut MemorySource,
) -> &'static str {
    name_of(&read_order(alloc, words, in_script, source))
}

// `WORDS | N | TEXT`: the words, the call of the source that fails, and the text of the input.
fn push_order(
    alloc: Global,
    in_script: bool,
    case: &str,
    out: &mut Text,
) -> Result<(), OutOfMemory> {
    let (line, rest) = parted(case, " | ");
    let (failing, text) = parted(rest, " | ");
    let mut source = source(alloc, text, failing.parse::<u64>().unwrap_or(0))?;
    let asked = words(alloc, line)?;
    out.push_str(name_asked(alloc, in_script, asked.as_slice(), &mut source));
    Ok(())
}

// How many steps there are, with the moment and the words of the first.
fn push_count(steps: &[Step], out: &mut Text) {
    out.push_number(steps.len() as u64);
    if let Some(step) = steps.first() {
        out.push_str(" from ");
        out.push_count(step.at, ", words ");
        out.push_number(step.words.len() as u64);
    }
}

// The steps, or the number of the line that is none.
fn push_answer(answer: &Result<Vec<Step>, Cause>, out: &mut Text) {
    match answer {
        Ok(steps) => push_count(steps, out),
        Err(Cause::BadLine(number)) => {
            out.push_str("line ");
            out.push_number(*number);
        }
        Err(_) => out.push_str("another"),
    }
}

/// Pushes what the lines of a script are.
pub fn push_steps(alloc: Global, text: &[u8], out: &mut Text) {
    push_answer(&steps_of(alloc, text), out);
}

// `WORDS`: the file of the script that they ask for.
fn push_file(alloc: Global, case: &str, out: &mut Text) -> Result<(), OutOfMemory> {
    let asked = words(alloc, case)?;
    match script_file(alloc, &asked)? {
        Some(Some(file)) => out.push_str(file.as_str()),
        Some(None) => out.push_str("standard input"),
        None => out.push_str("no script"),
    }
    Ok(())
}

// The steps of the script `file`.
fn push_script(alloc: Global, text: &str, out: &mut Text) -> Result<(), OutOfMemory> {
    let file = Some(Str::of(String::from_str(alloc, "file")?));
    let mut source = source(alloc, text, 0)?;
    push_answer(&read_script(alloc, &file, &mut source), out);
    Ok(())
}

/// Pushes the answer to a case on orders or scripts, if it is one.
pub fn answer(alloc: Global, kind: &str, case: &str, out: &mut Text) -> bool {
    let pushed = match kind {
        "order" => push_order(alloc, false, case, out),
        "order-in-script" => push_order(alloc, true, case, out),
        "script" => push_script(alloc, case, out),
        "script-file" => push_file(alloc, case, out),
        _ => return false,
    };
    out.remember(pushed.is_ok());
    true
}
