//! The adapters over real files, folders, streams and the clock, call by call, in the folder where this runs. The calls stand
//! in the standard input, in parts, each with adapters of its own and a heading `== KIND`, or `== KIND FOLDER`; a line is printed
//! for each call, with what it answered. A line without any text and one that begins with `# ` are passed over.
#![tactic(auto)]

// What calls answer.
mod answers;
// The clock.
mod clocks;
// Disks over the files of folders.
mod disks;
// A folder of documents.
mod folders;
// Calls line by line.
mod lines;
// Files and standard input.
mod sources;
// The standard streams.
mod streams;

use crate::clocks::Moments;
use crate::disks::Disks;
use crate::folders::Documents;
use crate::lines::{make, print};
use crate::sources::Inputs;
use crate::streams::Errors;
use std::io::{self, Read};
use system_adapters::{Stream, StreamSink};

// Makes the calls of a part.
fn run_part<'a>(
    rt: &'a HostRuntime,
    kind: &str,
    folder: Option<&'a str>,
    calls: &'a str,
    out: &mut StreamSink,
) {
    match kind {
        "disks" => make(&mut Disks::new(rt), calls, out),
        "folder" => make(&mut Documents::new(rt, folder), calls, out),
        "source" => make(&mut Inputs::new(rt), calls, out),
        "streams" => make(&mut Errors::new(rt), calls, out),
        "clock" => make(&mut Moments::new(rt), calls, out),
        _ => print("no such kind", out),
    }
}

// Prints the heading of a part, and makes its calls.
fn read_part(rt: &HostRuntime, part: &str, out: &mut StreamSink) {
    let (heading, calls) = part.split_once('\n').unwrap_or((part, ""));
    print(heading, out);
    match heading.split_once(' ') {
        Some((kind, folder)) => run_part(rt, kind, Some(folder), calls, out),
        None => run_part(rt, heading, None, calls, out),
    }
}

fn read_parts(rt: &HostRuntime, input: &str, out: &mut StreamSink) {
    for part in input.split("== ") {
        if !part.is_empty() {
            read_part(rt, part, out);
        }
    }
}

fn main(rt: HostRuntime) -> io::Result<()> {
    let mut input = String::new(rt.alloc());
    rt.stdin().read_to_string(&mut input)?;
    let mut out = StreamSink::new(Stream::Out(rt.stdout()));
    read_parts(&rt, input.as_str(), &mut out);
    Ok(())
}
