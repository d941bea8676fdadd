//! The change of a document, and its taking back.
ghost use Rattle.std.specs.Prelude.{◌≡◌, ◌≤◌, true, Some, Result, Ok, IfErr, OnOk};
ghost use Rattle.net_model.specs.NetData.{NetData};
ghost use Rattle.document_model.specs.declared.Doc.{Doc};
ghost use Rattle.document_model.specs.declared.Refused.{Refused};
ghost use Rattle.document_model.specs.Entries.{is_document};
ghost use Rattle.checkpoint_cell.specs.Cell.{Checkpoint};
ghost use Rattle.checkpoint_cell.specs.Settled.{restored_to};
ghost use Rattle.merge_model.specs.MergedNet.{merge};
ghost use Rattle.engine_model.specs.Machine.{asked, changed};
ghost use Rattle.engine_model.specs.Undone.{stand};
ghost use Rattle.scenario_model.specs.Asking.{options, IsChange};
ghost use Rattle.scenario_model.specs.Saying.{StepSays, IsPast, past_of};
ghost use Rattle.scenario_model.specs.Answering.{StepAnswers};
ghost use Rattle.scenario.specs.Stages.{IsAt};

use document_model::Doc;
use engine_core::{apply, rollback};
use engine_model::ApplyOpts;
use host_core::Host;
use scenario_model::{TIMEOUT, WorkFault};
use std::alloc::Global;

/// How the changes are made.
pub fn options(no_commit: bool) -> ApplyOpts
    ensures { result ≡ options no_commit }
{
    ApplyOpts {
        no_commit,
        no_verify: false,
        timeout: TIMEOUT,
    }
}

/// Makes the change that a document wants.
pub fn change<H: Host>(
    host: &mut H,
    alloc: Global,
    doc: &Doc,
    opts: &ApplyOpts,
    now: u64,
) -> Result<(), WorkFault>
    requires { is_document doc.now ≡ true }
    ensures says { (first second : Doc) → IsChange first second (asked doc.now opts.now now)
        → IfErr result (λ fault. StepSays H.tells first second (past_of (H.told host.old)) (H.told host.new) fault) }
    ensures answer { H.honest → (from : NetData) → IsAt (restored_to from) (H.told host.old)
        → IfErr result (λ fault. StepAnswers (merge from doc.now) (H.told host.old).faults (H.told host.new) fault) }
    ensures done { H.honest → (from : NetData) → IsAt (restored_to from) (H.told host.old)
        → OnOk result ((to : NetData) × (merge from doc.now ≡ Ok to)
        × IsAt (changed (asked doc.now opts.now now) from to).after (H.told host.new)) }
    ensures follows { OnOk result (IsPast H.tells (past_of (H.told host.old)) (past_of (H.told host.new))) }
    ensures later { (H.told host.old).faults ≤ (H.told host.new).faults }
{
    match apply(host, alloc, doc, opts, now) {
        Ok(_done) => Ok(()),
        Err(fault) => Err(WorkFault::Apply(fault)),
    }
}

// Takes back a change that waits.
fn take_back<H: Host>(host: &mut H, alloc: Global) -> Result<(), WorkFault>
    ensures says { (first second : Doc) → IfErr result (λ fault. StepSays H.tells first second (past_of (H.told host.old)) (H.told host.new) fault) }
    ensures answer { H.honest → (c : Checkpoint) (from to : NetData) → c.net ≡ Some from → IsAt (stand to (Some c)) (H.told host.old)
        → (made : Result NetData Refused) → IfErr result (λ fault. StepAnswers made (H.told host.old).faults (H.told host.new) fault) }
    ensures done { H.honest → (c : Checkpoint) (from to : NetData) → c.net ≡ Some from
        → IsAt (stand to (Some c)) (H.told host.old) → OnOk result (IsAt (restored_to from) (H.told host.new)) }
    ensures follows { OnOk result (IsPast H.tells (past_of (H.told host.old)) (past_of (H.told host.new))) }
    ensures later { (H.told host.old).faults ≤ (H.told host.new).faults }
{
    match rollback(host, alloc) {
        Ok(()) => Ok(()),
        Err(fault) => Err(WorkFault::Back(fault)),
    }
}

/// Makes the change that a document wants without commit, and takes it back.
pub fn try_out<H: Host>(host: &mut H, alloc: Global, doc: &Doc) -> Result<(), WorkFault>
    requires { is_document doc.now ≡ true }
    ensures says { (second : Doc) → IfErr result (λ fault. StepSays H.tells doc.now second (past_of (H.told host.old)) (H.told host.new) fault) }
    ensures answer { H.honest → (from : NetData) → IsAt (restored_to from) (H.told host.old)
        → IfErr result (λ fault. StepAnswers (merge from doc.now) (H.told host.old).faults (H.told host.new) fault) }
    ensures done { H.honest → (from : NetData) → IsAt (restored_to from) (H.told host.old) → OnOk result (IsAt (restored_to from) (H.told host.new)) }
    ensures follows { OnOk result (IsPast H.tells (past_of (H.told host.old)) (past_of (H.told host.new))) }
    ensures later { (H.told host.old).faults ≤ (H.told host.new).faults }
{
    let opts = options(true);
    match change(host, alloc, doc, &opts, 0) {
        Ok(()) => take_back(host, alloc),
        Err(fault) => Err(fault),
    }
}
