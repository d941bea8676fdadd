//! Kernel calls on whole networks, and plans from one to another. The standard input has networks, each as a document on the same
//! devices, and cases: a network, a call, and the number with which it is refused or the network that stands after it. What
//! differs is printed, and for each heading how many cases stand under it. Then it has seeds, each with a number of pairs of
//! networks that are drawn from it: the plan from the one to the other is carried out by the kernel's step, and what then stands
//! is compared. For each seed it is printed how many calls there were and how many kinds of calls and of links occurred.
#![tactic(auto)]

// Kernel calls from words.
mod calls;
// The lines of the input, and what comes of each.
mod cases;
// Kernel calls that are drawn.
mod drawn;
// Numbers that are drawn, and what they choose.
mod draws;
// Networks from documents.
mod networks;
// Options of bonds, bridges and ports from words.
mod options;
// Pairs of networks that are drawn, and the plans between them.
mod pairs;
// Calls as lines print them.
mod printing;
// Words, and what they stand for.
mod reading;
// Kinds of calls and of links.
mod seen;

use crate::cases::Cases;
use std::alloc::Global;
use std::io::{self, Read, Write};

fn take_all(alloc: Global, text: &str, cases: &mut Cases) {
    for line in text.lines() {
        cases.take(alloc, line);
    }
}

fn main(rt: HostRuntime) -> io::Result<()> {
    let mut input = String::new(rt.alloc());
    rt.stdin().read_to_string(&mut input)?;
    let mut cases = Cases::new(rt.alloc());
    take_all(rt.alloc(), input.as_str(), &mut cases);
    let told = cases.finish().unwrap_or(b"out of memory\n".as_slice());
    rt.stdout().write_all(told)
}
