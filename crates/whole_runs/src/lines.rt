//! The lines of plans, and the calls that they are read back as.
ghost use Rattle.std.specs.Prelude.{◌≡◌};
ghost use Rattle.net_text.specs.Line.{has_line};

use case_table::Text;
use ip_batch::{read_batch, write_batch};
use net_model::{Call, Kind};
use net_text::write_call_line;
use std::alloc::Global;

// Whether plans have a line for the call: they have none for one that would make a device.
fn has_line(call: &Call) -> bool
    ensures { result ≡ has_line call.now }
{
    match call {
        Call::AddLink { kind, .. } => !matches!(kind, Kind::Ethernet { .. }),
        _ => true,
    }
}

fn push_call(call: &Call, out: &mut Text) {
    if has_line(call) {
        let written = write_call_line(call, &mut out.bytes);
        out.remember(written.is_ok());
    }
    out.push_byte(b'\n');
}

/// Calls as `plan` prints them.
pub fn plan_text(alloc: Global, calls: &[Call]) -> Text {
    let mut out = Text::new(alloc);
    for call in calls {
        push_call(call, &mut out);
    }
    out
}

/// Calls as `plan --batch` prints them.
pub fn lines_text(alloc: Global, calls: &Vec<Call>) -> Text {
    let mut out = Text::new(alloc);
    let written = write_batch(calls, &mut out.bytes);
    out.remember(written.is_ok());
    out
}

// The calls of lines, with nothing said of them.
fn calls_of(alloc: Global, lines: &[u8]) -> Option<Vec<Call>> {
    read_batch(alloc, lines).ok()
}

/// How many calls lines are read back as, or none where these aren't the calls of the plan that was printed so, or aren't written
/// as these lines again.
pub fn read_back(alloc: Global, plan: &[u8], lines: &[u8]) -> Option<u64> {
    let calls = calls_of(alloc, lines)?;
    if plan_text(alloc, &calls).is(plan) && lines_text(alloc, &calls).is(lines) {
        Some(calls.len() as u64)
    } else {
        None
    }
}

/// How many lines a text has.
pub fn count_lines(text: &[u8]) -> u64 {
    let mut count = 0_u64;
    for byte in text {
        if *byte == b'\n' {
            count = count.saturating_add(1);
        }
    }
    count
}
