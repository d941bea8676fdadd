//! Requests, and the answers of the far end.

use crate::machine::{bare, devices};
use crate::not_done::NotDone;
use case_table::{Text, parted, push_hex};
use far_end::FarEnd;
use host_memory::MemoryHost;
use peer_core::{MAX_ANSWER_BYTES, NETWORK, Peer};
use std::alloc::Global;

// A buffer of the host for the answer to a call.
const CALL_ROOM: usize = 2;

// An answer as digits; of a network its sign alone.
fn push_answer(answer: &[u8], out: &mut Text) {
    match answer {
        [NETWORK, ..] => out.push_str("network"),
        _ => push_hex(answer, out),
    }
    out.push_byte(b'\n');
}

// Sends a request, and pushes the answer that fits in so many bytes.
fn send(
    alloc: Global,
    far: &mut FarEnd<MemoryHost>,
    request: &[u8],
    room: usize,
    out: &mut Text,
) -> Result<(), NotDone> {
    let mut buffer = Vec::from_elem(alloc, 0, room)?;
    match far.ask(request, &mut buffer) {
        Ok(n) => push_answer(&buffer[..n as usize], out),
        Err(_) => out.push_str("failed\n"),
    }
    Ok(())
}

// `REQUEST`, with its line's end for `;`, or `short REQUEST` for a buffer of two bytes.
fn send_line(
    alloc: Global,
    far: &mut FarEnd<MemoryHost>,
    line: &str,
    out: &mut Text,
) -> Result<(), NotDone> {
    let mut request = Text::new(alloc);
    let (room, text) = match line.strip_prefix("short ") {
        Some(text) => (CALL_ROOM, text),
        None => (MAX_ANSWER_BYTES, line),
    };
    for byte in text.as_bytes() {
        request.push_byte(if *byte == b';' { b'\n' } else { *byte });
    }
    send(alloc, far, &request.bytes, room, out)
}

/// Sends requests to a far end one after another, and pushes its answers.
pub fn push_answers(alloc: Global, case: &str, out: &mut Text) -> Result<(), NotDone> {
    let (first, lines) = parted(case, "\n");
    let host = if first == "without a network" {
        bare(alloc)
    } else {
        devices(alloc)?
    };
    let mut far = FarEnd::new(alloc, host);
    for line in lines.lines() {
        send_line(alloc, &mut far, line, out)?;
    }
    Ok(())
}
