//! Reads documents and hardware lists from standard input, each with what reading it is to answer, and says what differs.
//!
//! The input is parts, each with a heading `== KIND TITLE`. Most have a case a line: a document, in which a bar stands for a
//! line's end, ` => `, and its answer. The pairs have a document of numbered lines, `--`, and faults: a line's number, what
//! stands there in its place, ` => `, and the answer. The faults are in the order in which they are refused, and each two
//! that stand on different lines make a document, of which the first is the answer.
#![tactic(auto)]

// What reading a tree answers, in one line.
mod answers;
// How many cases are answered as they should be.
mod count;
// The entries of a document, each with what it states.
mod entries;
// What an entry states, field by field, each with a space in front.
mod fields;
// Documents with two faults, of which the first is refused.
mod pairs;
// Cases, one a line.
mod tables;

use crate::answers::Kind;
use crate::count::{Count, push_count};
use crate::pairs::read_pairs;
use crate::tables::read_cases;
use base_model::OutOfMemory;
use std::alloc::Global;
use std::io::{self, Read, Write};

// What a heading says that its part has, and whether it is pairs.
fn kind_of(word: &str) -> Option<(Kind, bool)> {
    match word {
        "documents" => Some((Kind::Document, false)),
        "entries" => Some((Kind::Entries, false)),
        "interfaces" => Some((Kind::Interfaces, false)),
        "hardware" => Some((Kind::Hardware, false)),
        "pairs" => Some((Kind::Document, true)),
        "hardware-pairs" => Some((Kind::Hardware, true)),
        _ => None,
    }
}

// Reads the part under a heading, and says how many of its cases are answered as they should be.
fn read_part(
    alloc: Global,
    heading: &str,
    body: &str,
    out: &mut Vec<u8>,
) -> Result<Count, OutOfMemory> {
    let (word, title) = heading.split_once(' ').unwrap_or((heading, ""));
    let count = match kind_of(word) {
        Some((kind, true)) => read_pairs(alloc, kind, body, out)?,
        Some((kind, false)) => read_cases(alloc, kind, body, out)?,
        None => Count::one(false),
    };
    push_count(title, count, out)?;
    Ok(count)
}

fn report(alloc: Global, input: &str) -> Result<Vec<u8>, OutOfMemory> {
    let mut out = Vec::new(alloc);
    let mut count = Count::none();
    for part in input.split("== ") {
        if let Some((heading, body)) = part.split_once('\n') {
            count = count.with(read_part(alloc, heading, body, &mut out)?);
        }
    }
    push_count("all", count, &mut out)?;
    Ok(out)
}

fn main(rt: HostRuntime) -> io::Result<()> {
    let mut input = String::new(rt.alloc());
    rt.stdin().read_to_string(&mut input)?;
    match report(rt.alloc(), input.as_str()) {
        Ok(report) => rt.stdout().write_all(&report),
        Err(OutOfMemory) => rt.stdout().write_all(b"out of memory\n"),
    }
}
