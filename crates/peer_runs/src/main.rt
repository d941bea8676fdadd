//! The program over a host that asks a far end, in memory. Parts of the standard input, each under a heading:
//!
//! `== sessions` are commands one after another on a machine with two devices, and what each writes; see `sessions`.
//!
//! `== faults` and `== stops` are sessions whose last command is run anew for each call that fails at the far end, done or not,
//! and for each stop in it. After each a `recover` at a moment past every deadline is run, and it is said which networks then
//! stand: the one from before the session, the one that the last command makes without a fault, or another.
//!
//! `== requests` are bytes that the far end is sent, and its answers.
#![tactic(auto)]

// What stands at the far end, and one command on it.
mod machine;
// What isn't done.
mod not_done;
// Numbers and words as lines write them.
mod reading;
// Requests, and the answers of the far end.
mod requests;
// Sessions of commands.
mod sessions;
// Faults and stops at each place of a command, and what a recovery makes of them.
mod sweeps;

use crate::not_done::NotDone;
use crate::requests::push_answers;
use crate::sessions::push_session;
use crate::sweeps::{push_faults, push_stops};
use case_table::{Answers, Text, report};
use std::alloc::Global;
use std::io::{self, Read, Write};

struct Peers;

fn push_answer(alloc: Global, kind: &str, case: &str, out: &mut Text) -> Result<(), NotDone> {
    match kind {
        "sessions" => push_session(alloc, case, out),
        "faults" => push_faults(alloc, case, out),
        "stops" => push_stops(alloc, case, out),
        "requests" => push_answers(alloc, case, out),
        _ => Err(NotDone),
    }
}

impl Answers for Peers {
    fn answer(alloc: Global, kind: &str, case: &[u8], out: &mut Text) {
        let case = str::from_utf8(case).unwrap_or("");
        if push_answer(alloc, kind, case, out).is_err() {
            out.bytes.clear();
            out.push_str("not understood");
        }
    }
}

fn main(rt: HostRuntime) -> io::Result<()> {
    let mut input = String::new(rt.alloc());
    rt.stdin().read_to_string(&mut input)?;
    let mut out = Text::new(rt.alloc());
    report::<Peers>(rt.alloc(), input.as_str(), &mut out);
    rt.stdout()
        .write_all(out.whole().unwrap_or(b"out of memory\n".as_slice()))
}
