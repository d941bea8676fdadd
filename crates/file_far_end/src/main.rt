//! The far end over the files of a folder, with which a program at its other end is tried without a Linux. It reads requests from
//! its standard input, a line each, and writes an answer to each to its standard output, behind its length. `--state DIR` names the
//! folder, which is that of `nmstatectl`; without it the one where the program runs is taken. It ends with the requests.
#![tactic(auto)]

ghost use Rattle.std.specs.Prelude.{◌≤◌, length};

use byteorder::{BigEndian, ByteOrder};
use far_end::FarEnd;
use folder_hosts::{host_in, words};
use peer_core::{MAX_ANSWER_BYTES, Peer};
use std::io::{self, BufRead, Write};
use system_adapters::take_folder;

/// What a request ends with.
const LINE_END: u8 = b'\n';

/// What is sent where a request isn't answered. It says nothing, so it is a fault to who asks.
const FAULT: &[u8] = b"!";

// Writes an answer behind its length, four bytes with the highest first.
fn send(rt: &HostRuntime, answer: &[u8]) -> io::Result<()>
    requires { length answer.now ≤ MAX_ANSWER_BYTES }
{
    let mut head = [0; 4];
    BigEndian::write_u32(&mut head, answer.len() as u32);
    let mut out = rt.stdout();
    out.write_all(&head)?;
    out.write_all(answer)?;
    out.flush()
}

// Asks the far end, and sends what it answers.
fn serve<P: Peer>(
    rt: &HostRuntime,
    far: &mut P,
    request: &[u8],
    buffer: &mut [u8],
) -> io::Result<()>
    requires { length buffer.old ≤ MAX_ANSWER_BYTES }
{
    match far.ask(request, buffer) {
        Ok(n) => send(rt, &buffer[..n as usize]),
        Err(_) => send(rt, FAULT),
    }
}

// Serves requests until they end. What has no line's end isn't one.
fn serve_all<P: Peer>(rt: &HostRuntime, far: &mut P) -> io::Result<()> {
    let mut requests = rt.reader();
    for _ in 0..u64::MAX {
        let mut request = Vec::new(rt.alloc());
        requests.read_until(LINE_END, &mut request)?;
        if !request.ends_with(&[LINE_END]) {
            break;
        }
        let mut buffer = Vec::from_elem(rt.alloc(), 0, MAX_ANSWER_BYTES)?;
        serve(rt, far, &request, &mut buffer)?;
    }
    Ok(())
}

fn main(rt: HostRuntime) -> io::Result<()> {
    let mut words = words(&rt)?;
    let named = take_folder(&mut words);
    let mut far = FarEnd::new(rt.alloc(), host_in(&rt, &named));
    serve_all(&rt, &mut far)
}
