//! Whole runs of the program, in three parts of the standard input, each under a heading `=== ..`.
//!
//! `commands` are run on a host in memory, on a host over a disk in memory, or on both, as their cases say, and a line is
//! printed for each case that says whether all was told and left as it is expected.
//!
//! `plans` are documents and policies that are applied one after another to machines in memory. The plan of each, and the plan
//! back, are held against their lines in the manner of ip(8), which are read back and tried out. It is said how many there were,
//! with how many lines and calls, and where something differs.
//!
//! `services` run over a folder in memory, on hosts of both kinds: what they tell, which files they mark, and the network that
//! stands then, after a fault at each call of the folder, and after a stop at each call of the host, a recovery and another
//! service.
#![tactic(auto)]

// The lines of the cases of commands, and what comes of each.
mod cases;
// What a command is expected to tell.
mod expected;
// The files of a folder, as cases write them.
mod files;
// Hosts that are made anew from what stands.
mod hosts;
// Inputs by their names.
mod inputs;
// The lines of plans, and the calls that they are read back as.
mod lines;
// Hosts at rest, between two commands.
mod machine;
// What isn't done.
mod not_done;
// Plans, part by part.
mod parts;
// Numbers and words as lines write them.
mod reading;
// One command on a host, and what it reads and writes.
mod runs;
// Services as cases of tables.
mod service_cases;
// Services one after another, and what they tell and leave.
mod services;
// Stops of a service at each call, and what a recovery and another service make of them.
mod stops;
// Stored bytes that are damaged.
mod stored;
// Faults and stops at each place of a command, and what a recovery makes of them.
mod sweeps;
// How many documents, lines and calls there were.
mod tally;
// Texts as plans write them.
mod texts;
// What is told of the cases of commands.
mod told;
// The plan of a document or a policy, and the plan back, each beside its lines.
mod trial;

use crate::cases::Cases;
use crate::machine::Kind;
use crate::parts::push_plans;
use crate::service_cases::Services;
use crate::told::Told;
use case_table::{Text, parted, report};
use std::alloc::Global;
use std::io::{self, Read, Write};

// What stands below a heading, up to the next one.
fn part<'a>(input: &'a str, heading: &str) -> &'a str {
    let (_, below) = parted(input, heading);
    let (part, _) = parted(below, "\n=== ");
    part
}

// Runs all cases on hosts of one kind, behind what was told before.
fn run_kind(alloc: Global, kind: Kind, text: &str, told: Told) -> Told {
    let mut cases = Cases::new(alloc, kind, told);
    for line in text.lines() {
        cases.take(alloc, line);
    }
    cases.finish(alloc)
}

fn push_commands(alloc: Global, text: &str, out: &mut Text) {
    let in_memory = run_kind(alloc, Kind::Memory, text, Told::new(alloc));
    let both = run_kind(alloc, Kind::Disk, text, in_memory);
    both.push(out);
}

fn push_whole(alloc: Global, input: &str, out: &mut Text) {
    push_commands(alloc, part(input, "=== commands\n"), out);
    let planned = push_plans(alloc, part(input, "=== plans\n"), out);
    out.remember(planned.is_ok());
    report::<Services>(alloc, part(input, "=== services\n"), out);
}

fn main(rt: HostRuntime) -> io::Result<()> {
    let mut input = String::new(rt.alloc());
    rt.stdin().read_to_string(&mut input)?;
    let mut out = Text::new(rt.alloc());
    push_whole(rt.alloc(), input.as_str(), &mut out);
    rt.stdout()
        .write_all(out.whole().unwrap_or(b"out of memory\n".as_slice()))
}
