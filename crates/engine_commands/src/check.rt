//! The command that says whether the commands can work with what is stored.
ghost use Rattle.std.specs.Prelude.{◌≡◌, ◌≢◌, ℕ, [], OnOk};
ghost use Rattle.checkpoint_cell.specs.Settled.{standing};
ghost use Rattle.engine_model.specs.Checks.{check, CheckSays, CheckAnswers, CheckExit};
ghost use Rattle.engine_model.specs.Sound.{Sound, WhereSound};
ghost use Rattle.engine_model.specs.Stations.{entry_of, left_by};
ghost use Rattle.top_model.specs.Orders.{checking};
ghost use Rattle.top_model.specs.Machine.{check_cause};
ghost use Rattle.command_laws.specs.Carried.{Carried};
ghost use Rattle.command_laws.specs.Looked.{ChangesNothing};

use answer_text::{checked_line, tell_done, tell_refused};
use engine_core::{CheckFault, Checked, check};
use engine_model::Left;
use host_core::{Host, Sink, Source};
use std::alloc::Global;
use top_model::{Cause, Report};

// The same fault as a cause.
fn check_cause(fault: CheckFault) -> Cause
    ensures { result ≡ check_cause fault }
{
    match fault {
        CheckFault::HostFault => Cause::HostFault(Left::NotBegun),
        CheckFault::Damaged(area) => Cause::Damaged(area),
        CheckFault::HardwareDiffers(names) => Cause::HardwareDiffers(names),
        CheckFault::OutOfMemory => Cause::OutOfMemory,
    }
}

// The engine's check, after which the host is let go, so that what is told of it keeps nobody off.
fn checked<H: Host>(alloc: Global, host: &mut H) -> Result<Checked, CheckFault>
    ensures says { CheckSays H.tells (H.told host.old) (H.told host.new) result }
    ensures answer { H.honest → CheckAnswers (check (standing (H.told host.old).state)) (H.told host.old) (H.told host.new) result }
    ensures sound { H.honest → OnOk result ((H.told host.new).state.cell ≢ [] → Sound (H.told host.new)) }
    ensures exit { WhereSound H.honest (H.told host.old) (CheckExit (entry_of (H.told host.old)) (left_by (H.told host.new)) result) }
    ensures looks { ChangesNothing H.tells (H.told host.old) (H.told host.new) }
{
    let answer = check(host, alloc);
    host.release();
    answer
}

/// `check`: says whether the commands can work with what is stored, and answers the report. Nothing is changed, and the host
/// is let go before the answer is told.
///
/// It answers the cause of the fault that `engine_core::check` gives, and `WriteFault` where a sink fails.
pub fn check_run<H: Host, S: Source, W: Sink>(
    alloc: Global,
    host: &mut H,
    out: &mut W,
    err: &mut W,
) -> Report
    ensures { (now : ℕ) → Carried H.Host S.Source W.Sink checking now host.old host.new out.old out.new err.old err.new result }
{
    match checked(alloc, host) {
        Ok(found) => tell_done(b"", checked_line(found).as_bytes(), out, err),
        Err(fault) => tell_refused(b"", check_cause(fault), out, err),
    }
}
