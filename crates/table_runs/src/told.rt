//! The lines of answers that no host in memory gives.

use answer_text::{summary_lines, tell_refused, write_status};
use case_outside::MemorySink;
use case_table::{Text, first_word};
use document_model::{Place, Refused};
use engine_model::Left;
use net_core::Net;
use rollout_model::Event;
use scenario_model::Summary;
use std::alloc::Global;
use top_model::Cause;

fn number(word: &str) -> u64 {
    word.parse::<u64>().unwrap_or(0)
}

fn small(word: &str) -> u8 {
    word.parse::<u8>().unwrap_or(0)
}

fn left(word: &str) -> Left {
    match word {
        "rolled-back" => Left::RolledBack,
        "pending" => Left::Pending,
        _ => Left::NotBegun,
    }
}

// `bad-line N`, `batch-line N`, `batch-large`, `call-refused CALL N`, `folder-fault`, `halted`, `limit N`,
// `unfinished MADE DEADLINE`, `expired MADE DEADLINE`, `kernel-refused N CALL LEFT`, `not-verified LEFT`, `out-of-memory`.
fn cause_of(alloc: Global, case: &str) -> Cause {
    let (word, rest) = first_word(case);
    let (first, rest) = first_word(rest);
    let (second, third) = first_word(rest);
    match word {
        "bad-line" => Cause::BadLine(number(first)),
        "batch-line" => Cause::BatchLine(number(first)),
        "batch-large" => Cause::BatchLarge,
        "call-refused" => Cause::CallRefused(number(first), small(second)),
        "folder-fault" => Cause::FolderFault,
        "halted" => Cause::Halted(Event::Bad(0)),
        "limit" => Cause::MergeRefused(Refused {
            rule: 21,
            which: small(first),
            place: Place::Whole,
        }),
        "unfinished" => Cause::Unfinished(number(first), number(second)),
        "expired" => Cause::Expired(number(first), number(second)),
        "kernel-refused" => Cause::KernelRefused(small(first), number(second), left(third)),
        "not-verified" => Cause::NotVerified(Net::empty(alloc), left(first)),
        _ => Cause::OutOfMemory,
    }
}

// The status of a refusal, and what it writes to the errors and to the output.
fn push_refusal(alloc: Global, case: &str, out: &mut Text) {
    let mut output = MemorySink::new(alloc, Vec::new(alloc));
    let mut errors = MemorySink::new(alloc, Vec::new(alloc));
    let report = tell_refused(b"", cause_of(alloc, case), &mut output, &mut errors);
    out.push_count(u64::from(report.status), " ");
    out.push_bytes(errors.bytes());
    out.push_bytes(output.bytes());
}

// `LINKS CALLS CALLS IDS METRICS`.
fn summary_of(case: &str) -> Summary {
    let (links, rest) = first_word(case);
    let (first, rest) = first_word(rest);
    let (second, rest) = first_word(rest);
    let (ids, metrics) = first_word(rest);
    Summary {
        links: links.parse::<u32>().unwrap_or(0),
        first_calls: first.parse::<u32>().unwrap_or(0),
        second_calls: second.parse::<u32>().unwrap_or(0),
        ids: number(ids),
        metrics: number(metrics),
    }
}

fn push_status(alloc: Global, case: &str, out: &mut Text) {
    let mut output = MemorySink::new(alloc, Vec::new(alloc));
    if write_status(small(case), &mut output) {
        out.push_bytes(output.bytes());
    }
}

/// Pushes the answer to a case on what is told, if it is one.
pub fn answer(alloc: Global, kind: &str, case: &str, out: &mut Text) -> bool {
    match kind {
        "refusal" => push_refusal(alloc, case, out),
        "summary" => out.push_bytes(summary_lines(&summary_of(case)).as_bytes()),
        "status" => push_status(alloc, case, out),
        _ => return false,
    }
    true
}
