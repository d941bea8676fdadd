//! Lines in the manner of ip(8): the calls that they are, as plans print them, and their lines again.
ghost use Rattle.std.specs.Prelude.{◌≡◌};
ghost use Rattle.net_text.specs.Line.{has_line};

use case_table::Text;
use ip_batch::{BatchFault, read_batch, write_batch};
use net_model::{Call, Kind};
use net_text::write_call_line;
use std::alloc::Global;

// Whether plans have a line for the call: they have none for one that would make a device.
fn has_line(call: &Call) -> bool
    ensures { result ≡ has_line call.now }
{
    match call {
        Call::AddLink { kind, .. } => !matches!(kind, Kind::Ethernet { .. }),
        _ => true,
    }
}

fn push_call(call: &Call, out: &mut Text) {
    if has_line(call) {
        let written = write_call_line(call, &mut out.bytes);
        out.remember(written.is_ok());
    } else {
        out.push_str("a device");
    }
    out.push_byte(b'\n');
}

fn push_calls(calls: &[Call], out: &mut Text) {
    for call in calls {
        push_call(call, out);
    }
}

fn push_lines(calls: &Vec<Call>, out: &mut Text) {
    let written = write_batch(calls, &mut out.bytes);
    out.remember(written.is_ok());
}

fn push_fault(fault: BatchFault, out: &mut Text) {
    match fault {
        BatchFault::Line(number) => {
            out.push_str("line ");
            out.push_number(number);
        }
        BatchFault::TooLarge => out.push_str("too large"),
        BatchFault::OutOfMemory => out.remember(false),
    }
}

// The calls of a text, as plans print them.
fn push_plan(alloc: Global, text: &[u8], out: &mut Text) {
    match read_batch(alloc, text) {
        Ok(calls) => push_calls(&calls, out),
        Err(fault) => push_fault(fault, out),
    }
}

// The lines of the calls of a text.
fn push_again(alloc: Global, text: &[u8], out: &mut Text) {
    match read_batch(alloc, text) {
        Ok(calls) => push_lines(&calls, out),
        Err(fault) => push_fault(fault, out),
    }
}

/// Pushes the answer to a case on lines in the manner of ip(8), if it is one.
pub fn answer(alloc: Global, kind: &str, case: &[u8], out: &mut Text) -> bool {
    match kind {
        "batch" => push_plan(alloc, case, out),
        "batch-again" => push_again(alloc, case, out),
        _ => return false,
    }
    true
}
