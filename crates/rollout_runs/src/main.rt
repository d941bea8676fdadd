//! Rollouts of one document over many nodes: what happens on their nodes, told to them beside the table of events that this
//! program has written out for itself, and whole rollouts over hosts in memory, with what stands on each node then, after a fault
//! at each call, after a stop at each moment, and after a recovery. The cases stand in the standard input.
#![tactic(auto)]

// What each rollout over hosts is held against.
mod checks;
// Networks and documents.
mod documents;
// A fault at each call.
mod faults;
// All lists of events up to a length.
mod lists;
// A clock of one's choosing.
mod moments;
// The hosts of nodes, with their faults.
mod nodes;
// The table of events, written out once more.
mod plain;
// Rollouts over hosts, and what is seen of them.
mod rollouts;
// Rows of events and of answers.
mod rows;
// All runs in which what is next is done.
mod runs;
// Events and states as words.
mod words;

use case_table::{Answers, Text, report};
use std::alloc::Global;
use std::io::{self, Read, Write};

// What becomes of rollouts.
struct Cases;

fn push_answer(alloc: Global, kind: &str, case: &str, out: &mut Text) -> Option<()> {
    match kind {
        "events" => rows::push_told(alloc, case, out),
        "answers" => rows::push_carried_out(alloc, case, out),
        "lists" => lists::push_compared(alloc, case, out),
        "runs" => runs::push_compared(alloc, case, out),
        "rollouts" => rollouts::push_told(alloc, case, out),
        "left" => checks::push_checked(alloc, case, out),
        "faults" => faults::push_swept(alloc, case, out),
        _ => None,
    }
}

impl Answers for Cases {
    fn answer(alloc: Global, kind: &str, case: &[u8], out: &mut Text) {
        let case = str::from_utf8(case).unwrap_or("");
        if push_answer(alloc, kind, case, out).is_none() {
            out.bytes.clear();
            out.push_str("not understood");
        }
    }
}

fn main(rt: HostRuntime) -> io::Result<()> {
    let mut input = String::new(rt.alloc());
    rt.stdin().read_to_string(&mut input)?;
    let mut out = Text::new(rt.alloc());
    report::<Cases>(rt.alloc(), input.as_str(), &mut out);
    rt.stdout()
        .write_all(out.whole().unwrap_or(b"out of memory\n".as_slice()))
}
