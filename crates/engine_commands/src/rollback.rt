//! The command that takes back a change.
ghost use Rattle.std.specs.Prelude.{◌≡◌, ℕ};
ghost use Rattle.top_model.specs.Machine.{back_cause};
ghost use Rattle.top_model.specs.Orders.{rolling_back};
ghost use Rattle.command_laws.specs.Carried.{Carried};

use answer_text::{rolled_back_line, tell_done, tell_refused};
use engine_core::rollback;
use engine_model::BackFault;
use host_core::{Host, Sink, Source};
use std::alloc::Global;
use top_model::{Cause, Report};

// The cause of a fault of a command that takes changes back.
pub(crate) fn back_cause(fault: BackFault) -> Cause
    ensures { result ≡ back_cause fault }
{
    match fault {
        BackFault::NoCheckpoint => Cause::NoCheckpoint,
        BackFault::HostFault(left) => Cause::HostFault(left),
        BackFault::KernelRefused(number, call, left) => Cause::KernelRefused(number, call, left),
        BackFault::Damaged(area) => Cause::Damaged(area),
        BackFault::HardwareDiffers(names) => Cause::HardwareDiffers(names),
        BackFault::OutOfMemory => Cause::OutOfMemory,
    }
}

/// `rollback`: takes back a change, whether it waits or is being made, tells what came of it, and answers the report.
///
/// It answers the cause of the fault that `engine_core::rollback` gives, and `WriteFault` where a sink fails.
pub fn rollback_run<H: Host, S: Source, W: Sink>(
    alloc: Global,
    host: &mut H,
    out: &mut W,
    err: &mut W,
) -> Report
    ensures { (now : ℕ) → Carried H.Host S.Source W.Sink rolling_back now host.old host.new out.old out.new err.old err.new result }
{
    match rollback(host, alloc) {
        Ok(()) => tell_done(b"", rolled_back_line().as_bytes(), out, err),
        Err(fault) => tell_refused(b"", back_cause(fault), out, err),
    }
}
