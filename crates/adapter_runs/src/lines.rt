//! Calls line by line.

use crate::answers::Answer;
use base_model::OutOfMemory;
use host_core::Sink;
use system_adapters::StreamSink;

/// What makes calls of one kind. What a call names may stay in use for as long as the input is there.
pub trait Calls<'a> {
    /// What a call answers. It may write to the output itself.
    fn answer(&mut self, call: &'a str, out: &mut StreamSink) -> Answer;
}

fn write(bytes: &[u8], out: &mut StreamSink) {
    let _ = out.write(bytes);
}

/// Prints a line.
pub fn print(line: &str, out: &mut StreamSink) {
    write(line.as_bytes(), out);
    write(b"\n", out);
}

fn print_answer(call: &str, answer: &Answer, out: &mut StreamSink) {
    write(b"    ", out);
    write(call.as_bytes(), out);
    write(b" => ", out);
    match answer {
        Ok(answer) => write(answer, out),
        Err(OutOfMemory) => write(b"out of memory", out),
    }
    write(b"\n", out);
}

/// Makes these calls, and prints each with its answer.
pub fn make<'a, C: Calls<'a>>(calls: &mut C, lines: &'a str, out: &mut StreamSink) {
    for line in lines.lines() {
        if !line.is_empty() && !line.starts_with("# ") {
            let answer = calls.answer(line, out);
            print_answer(line, &answer, out);
        }
    }
}
