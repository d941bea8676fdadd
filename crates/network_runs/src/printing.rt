//! Calls as lines print them.
ghost use Rattle.std.specs.Prelude.{◌≡◌};
ghost use Rattle.net_text.specs.Line.{has_line};

use crate::calls::call;
use net_model::{Call, Kind};
use net_text::write_call_line;
use std::alloc::Global;

// Whether the call has a line: one that would make a device has none.
fn has_line(call: &Call) -> bool
    ensures { result ≡ has_line call.now }
{
    match call {
        Call::AddLink { kind, .. } => !matches!(kind, Kind::Ethernet { .. }),
        _ => true,
    }
}

fn line_of(alloc: Global, call: &Call) -> Option<Vec<u8>> {
    let mut line = Vec::new(alloc);
    if !has_line(call) || write_call_line(call, &mut line).is_err() {
        return None;
    }
    Some(line)
}

/// Whether a line is printed as it was read.
pub fn is_printed(alloc: Global, line: &str) -> Option<bool> {
    let printed = line_of(alloc, &call(alloc, line)?)?;
    Some(printed.as_slice() == line.as_bytes())
}
