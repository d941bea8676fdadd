//! The command that takes back a change that is being made or is due.
ghost use Rattle.top_model.specs.Orders.{recovering};
ghost use Rattle.command_laws.specs.Carried.{Carried};

use crate::rollback::back_cause;
use answer_text::{recovered_line, tell_done, tell_refused};
use engine_core::recover;
use host_core::{Host, Sink, Source};
use std::alloc::Global;
use top_model::Report;

/// `recover`: takes back a change that is being made or is due, tells what came of it, and answers the report. The moment is
/// in seconds.
///
/// It answers the cause of the fault that `engine_core::recover` gives, and `WriteFault` where a sink fails.
pub fn recover_run<H: Host, S: Source, W: Sink>(
    alloc: Global,
    host: &mut H,
    out: &mut W,
    err: &mut W,
    now: u64,
) -> Report
    ensures { Carried H.Host S.Source W.Sink recovering now host.old host.new out.old out.new err.old err.new result }
{
    match recover(host, alloc, now) {
        Ok(recovered) => tell_done(b"", recovered_line(recovered).as_bytes(), out, err),
        Err(fault) => tell_refused(b"", back_cause(fault), out, err),
    }
}
