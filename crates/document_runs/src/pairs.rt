//! Documents with two faults, of which the first is refused.

use crate::answers::{Kind, answer};
use crate::count::Count;
use crate::tables::compare;
use base_model::OutOfMemory;
use std::alloc::Global;

// A fault: the number of its line, what stands there, and the answer.
#[derive(Clone, Copy)]
struct Fault<'a> {
    number: &'a str,
    text: &'a str,
    wanted: &'a str,
}

fn numbered(line: &str) -> (&str, &str) {
    line.split_once(' ').unwrap_or((line, ""))
}

fn fault_of(line: &str) -> Fault<'_> {
    let (place, wanted) = line.split_once(" => ").unwrap_or((line, ""));
    let (number, text) = numbered(place);
    Fault {
        number,
        text,
        wanted,
    }
}

// The document with both faults.
fn document(
    alloc: Global,
    base: &str,
    first: Fault<'_>,
    second: Fault<'_>,
) -> Result<String, OutOfMemory> {
    let mut text = String::new(alloc);
    for line in base.lines() {
        let (number, own) = numbered(line);
        text.push_str(if number == first.number {
            first.text
        } else if number == second.number {
            second.text
        } else {
            own
        })?;
        text.push_str("\n")?;
    }
    Ok(text)
}

fn read_pair(
    alloc: Global,
    kind: Kind,
    base: &str,
    first: Fault<'_>,
    second: Fault<'_>,
    out: &mut Vec<u8>,
) -> Result<Count, OutOfMemory> {
    if first.number == second.number {
        return Ok(Count::none());
    }
    let text = document(alloc, base, first, second)?;
    let answer = answer(alloc, kind, text.as_str())?;
    compare(text.as_str(), answer.as_slice(), first.wanted, out)
}

// A fault with each later one.
fn read_after(
    alloc: Global,
    kind: Kind,
    base: &str,
    faults: &str,
    index: usize,
    out: &mut Vec<u8>,
) -> Result<Count, OutOfMemory> {
    let first = fault_of(faults.lines().nth(index).unwrap_or(""));
    let mut count = Count::none();
    for (i, line) in faults.lines().enumerate() {
        if i > index {
            count = count.with(read_pair(alloc, kind, base, first, fault_of(line), out)?);
        }
    }
    Ok(count)
}

/// Reads each two faults in one document, and says where another than the first is refused.
pub fn read_pairs(
    alloc: Global,
    kind: Kind,
    body: &str,
    out: &mut Vec<u8>,
) -> Result<Count, OutOfMemory> {
    let (base, faults) = body.split_once("--\n").unwrap_or((body, ""));
    let mut count = Count::none();
    for (i, _) in faults.lines().enumerate() {
        count = count.with(read_after(alloc, kind, base, faults, i, out)?);
    }
    Ok(count)
}
