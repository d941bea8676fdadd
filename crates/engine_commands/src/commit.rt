//! The command that ends a change that waits.
ghost use Rattle.std.specs.Prelude.{◌≡◌};
ghost use Rattle.top_model.specs.Machine.{commit_cause};
ghost use Rattle.top_model.specs.Orders.{committing};
ghost use Rattle.command_laws.specs.Carried.{Carried};

use answer_text::{committed_line, tell_done, tell_refused};
use engine_core::commit;
use engine_model::{CommitFault, Left};
use host_core::{Host, Sink, Source};
use top_model::{Cause, Report};

fn commit_cause(fault: CommitFault) -> Cause
    ensures { result ≡ commit_cause fault }
{
    match fault {
        CommitFault::NoCheckpoint => Cause::NoCheckpoint,
        CommitFault::Unfinished(since, deadline) => Cause::Unfinished(since, deadline),
        CommitFault::Expired(since, deadline) => Cause::Expired(since, deadline),
        CommitFault::HostFault => Cause::HostFault(Left::NotBegun),
        CommitFault::InDoubt => Cause::InDoubt,
    }
}

/// `commit`: ends a change that waits and isn't due, tells what came of it, and answers the report. The moment is in
/// seconds. It takes no memory.
///
/// It answers the cause of the fault that `engine_core::commit` gives, and `WriteFault` where a sink fails.
pub fn commit_run<H: Host, S: Source, W: Sink>(
    host: &mut H,
    out: &mut W,
    err: &mut W,
    now: u64,
) -> Report
    ensures { Carried H.Host S.Source W.Sink committing now host.old host.new out.old out.new err.old err.new result }
{
    match commit(host, now) {
        Ok(()) => tell_done(b"", committed_line().as_bytes(), out, err),
        Err(fault) => tell_refused(b"", commit_cause(fault), out, err),
    }
}
