//! A change from one network to another, behind a checkpoint.
ghost use Rattle.std.specs.Prelude.{◌≡◌, ◌≢◌, ◌⊎◌, ◌≤◌, ℕ, true, false, None, Some, Ok, OnOk, OnErr, IfErr, IsErrOf};
ghost use Rattle.net_model.specs.NetData.{NetData};
ghost use Rattle.document_model.specs.declared.Doc.{Doc};
ghost use Rattle.host_core.specs.Faults.{Rose, HasCause};
ghost use Rattle.host_core.specs.Stops.{Steps, Stays};
ghost use Rattle.host_core.specs.HostView.{SameKernel, SameNet, NoneRefused};
ghost use Rattle.plan_model.specs.Plans.{IsPlan};
ghost use Rattle.checkpoint_cell.specs.Cell.{applying, cell_of, saved_net};
ghost use Rattle.checkpoint_cell.specs.Steps.{Holds};
ghost use Rattle.checkpoint_cell.specs.Settled.{restored_to};
ghost use Rattle.merge_model.specs.MergedNet.{merge};
ghost use Rattle.engine_model.specs.Undone.{stand};
ghost use Rattle.engine_model.specs.Sound.{WhereSound};
ghost use Rattle.engine_model.specs.Stations.{Only, Kept, Ends, AllNear};
ghost use Rattle.engine_model.specs.Compared.{NoneWaits, IsSeen, WaitsSeen};
ghost use Rattle.engine_core.specs.Attempts.{sealed, IsOnWay, IsFault, WhereRuns};
ghost use Rattle.engine_core.specs.Saying.{Start, Follows, WhereMerges, IsOpen, Why};
ghost use Rattle.engine_core.specs.Calm.{CalmSince, UpToNow};

use crate::missed::Missed;
use checkpoint_cell::{PutFault, mark_waiting, put};
use engine_model::ApplyOpts;
use engine_restore::{RunFault, run};
use host_core::{DumpFault, Failed, Host};
use net_core::Net;
use net_equal::same_net;
use net_model::Call;
use std::alloc::Global;

// Stores the checkpoint, and makes the calls.
fn begin<H: Host>(
    host: &mut H,
    alloc: Global,
    from: &Net,
    calls: &[Call],
    made: u64,
    deadline: u64,
) -> Result<(), Missed>
    requires settled { (H.told host.old).settled }
    requires none { H.tells → Holds None (H.told host.old) }
    ensures set { H.tells → OnOk result (Holds (Some (applying made deadline from.now)) (H.told host.new)) }
    ensures kept { WhereSound H.honest (H.told host.old) (Ends (restored_to from.now) (H.told host.old)
        → Kept (Only (restored_to from.now)) (H.told host.old) (H.told host.new)) }
    ensures reached { H.honest → (to : NetData) → WhereRuns calls.now from.now to (H.told host.old) (OnOk result (((H.told host.new).state.net ≡ Some to)
        × Ends (stand to (Some (applying made deadline from.now))) (H.told host.new))) }
    ensures missed { H.honest → (to : NetData) → WhereRuns calls.now from.now to (H.told host.old) (IfErr result (λ missed. IsFault missed)) }
    ensures calm { H.honest → (to : NetData) → UpToNow (H.told host.old) (λ t. (H.told host.old).state.net ≡ Some from.now
        → IsPlan from.now to calls.now → CalmSince from.now to t (H.told host.old)
        → OnOk result (CalmSince from.now to t (H.told host.new))) }
    ensures fault { IsErrOf result Missed.Failed → Rose (H.told host.old).faults (H.told host.new).faults }
    // No dump is made. Where no checkpoint stands behind it, no call was made.
    ensures fresh { H.tells → OnOk result (((H.told host.new).fresh ≡ (H.told host.old).fresh) ⊎ ((H.told host.new).fresh ≡ None)) }
    ensures unset { H.tells → OnErr result (cell_of (H.told host.new).state.cell ≡ None
        → ((H.told host.new).state.net ≡ (H.told host.old).state.net) × ((H.told host.new).kernel ≡ (H.told host.old).kernel)) }
    // On every host.
    ensures says { (doc : Doc) (start : Start) → Follows start (H.told host.old) → (H.told host.old).kernel.calls ≡ 0
        → IfErr result (λ missed. Why H.tells doc start (H.told host.new) missed) }
    ensures quiet { OnOk result (NoneRefused (H.told host.old).kernel (H.told host.new).kernel) }
    ensures compared { (found : NetData) → IsErrOf result (Missed.Differs found) → ⊥ }
    // No stop leaves a change that waits.
    ensures unmarked { WhereSound H.honest (H.told host.old) (Ends (restored_to from.now) (H.told host.old) → NoneWaits (H.told host.new)) }
    ensures moment { (H.told host.old).stops.moment ≤ (H.told host.new).stops.moment }
    ensures later { (H.told host.old).faults ≤ (H.told host.new).faults }
{
    from.laws();
    match put(host, alloc, from, made, deadline) {
        Ok(()) => {}
        Err(PutFault::Failed) => return Err(Missed::Failed),
        Err(PutFault::OutOfMemory) => return Err(Missed::OutOfMemory),
    }
    match run(host, alloc, calls) {
        Ok(()) => Ok(()),
        Err(RunFault::Refused(k, n)) => Err(Missed::Refused(k, n)),
        Err(RunFault::Failed) => Err(Missed::Failed),
        Err(RunFault::OutOfMemory) => Err(Missed::OutOfMemory),
    }
}

// Dumps and compares, unless that isn't wanted.
fn verify<H: Host>(host: &mut H, alloc: Global, to: &Net, no_verify: bool) -> Result<(), Missed>
    ensures verified { H.tells → OnOk result (no_verify ≡ false → (H.told host.new).fresh ≡ Some to.now) }
    ensures checked { H.honest → OnOk result (no_verify ≡ false → IsSeen to.now (H.told host.new)) }
    ensures missed { H.honest → (H.told host.old).state.net ≡ Some to.now → IfErr result (λ missed. IsFault missed) }
    ensures state { H.tells → (H.told host.new).state ≡ (H.told host.old).state }
    ensures stops { Steps Stays (H.told host.old).stops (H.told host.new).stops }
    ensures fault { IsErrOf result Missed.Failed → Rose (H.told host.old).faults (H.told host.new).faults }
    ensures quiet { NoneRefused (H.told host.old).kernel (H.told host.new).kernel }
    ensures compared { (found : NetData) → IsErrOf result (Missed.Differs found) → no_verify ≡ false }
    ensures says { (doc : Doc) (start : Start) (from : NetData) → Follows start (H.told host.old)
        → merge from doc ≡ Ok to.now → (H.tells → saved_net (H.told host.old).state.cell ≡ Some from) → (H.tells → IsOpen (H.told host.old))
        → IfErr result (λ missed. Why H.tells doc start (H.told host.new) missed) }
    ensures dumped { OnOk result (no_verify ≡ false → (H.told host.new).kernel.calls ≡ 0) }
    ensures fresh { H.tells → no_verify ≡ true → (H.told host.new).fresh ≡ (H.told host.old).fresh }
    ensures later { (H.told host.old).faults ≤ (H.told host.new).faults }
{
    if no_verify {
        return Ok(());
    }
    match host.dump(alloc) {
        Ok(found) => {
            if same_net(&found, to) {
                Ok(())
            } else {
                Err(Missed::Differs(found))
            }
        }
        Err(DumpFault::Failed) => Err(Missed::Failed),
        Err(DumpFault::Damaged) => Err(Missed::Damaged),
        Err(DumpFault::OutOfMemory) => Err(Missed::OutOfMemory),
    }
}

// Lets the change wait, where it is not to be committed at once.
fn mark<H: Host>(host: &mut H, no_commit: bool) -> Result<(), Failed>
    requires { H.tells → (made : ℕ) × (deadline : ℕ) × (from : NetData) × Holds (Some (applying made deadline from)) (H.told host.old) }
    ensures marked { H.tells → (made deadline : ℕ) (from : NetData)
        → Holds (Some (applying made deadline from)) (H.told host.old)
        → OnOk result (Holds (sealed no_commit made deadline from) (H.told host.new)) }
    ensures kept { WhereSound H.tells (H.told host.old) ((made deadline : ℕ) (from to : NetData) → Holds (Some (applying made deadline from)) (H.told host.old)
        → Ends (stand to (Some (applying made deadline from))) (H.told host.old)
        → Kept (IsOnWay no_commit made deadline from to) (H.told host.old) (H.told host.new)) }
    ensures ends { H.tells → (made deadline : ℕ) (from to : NetData)
        → Holds (Some (applying made deadline from)) (H.told host.old)
        → Ends (stand to (Some (applying made deadline from))) (H.told host.old)
        → OnOk result (Ends (stand to (sealed no_commit made deadline from)) (H.told host.new)) }
    ensures kernel { SameKernel H.tells (H.told host.old) (H.told host.new) }
    ensures nets { Steps SameNet (H.told host.old).stops (H.told host.new).stops }
    ensures moment { (H.told host.old).stops.moment ≤ (H.told host.new).stops.moment }
    // Also where it fails, the checkpoint stands.
    ensures stands { H.tells → cell_of (H.told host.new).state.cell ≢ None }
    ensures cause { HasCause (H.told host.old).faults (H.told host.new).faults result }
{
    if no_commit {
        return mark_waiting(host);
    }
    Ok(())
}

// Verifies the change, and lets it wait where it is to.
fn seal<H: Host>(
    host: &mut H,
    alloc: Global,
    to: &Net,
    no_commit: bool,
    no_verify: bool,
) -> Result<(), Missed>
    requires { H.tells → (made : ℕ) × (deadline : ℕ) × (from : NetData) × Holds (Some (applying made deadline from)) (H.told host.old) }
    ensures set { H.tells → (made deadline : ℕ) (from : NetData)
        → Holds (Some (applying made deadline from)) (H.told host.old)
        → OnOk result (Holds (sealed no_commit made deadline from) (H.told host.new)) }
    ensures verified { H.tells → OnOk result (no_verify ≡ false → (H.told host.new).fresh ≡ Some to.now) }
    ensures checked { H.honest → OnOk result (no_verify ≡ false → IsSeen to.now (H.told host.new)) }
    // A change is left to wait only once it is compared.
    ensures seen { H.honest → NoneWaits (H.told host.old) → no_verify ≡ false → WaitsSeen to.now (H.told host.new) }
    ensures kept { WhereSound H.honest (H.told host.old) ((made deadline : ℕ) (from : NetData) → Holds (Some (applying made deadline from)) (H.told host.old)
        → Ends (stand to.now (Some (applying made deadline from))) (H.told host.old)
        → Kept (IsOnWay no_commit made deadline from to.now) (H.told host.old) (H.told host.new)) }
    ensures ends { H.honest → (made deadline : ℕ) (from : NetData)
        → Holds (Some (applying made deadline from)) (H.told host.old)
        → Ends (stand to.now (Some (applying made deadline from))) (H.told host.old)
        → OnOk result (Ends (stand to.now (sealed no_commit made deadline from)) (H.told host.new)) }
    ensures missed { H.honest → (H.told host.old).state.net ≡ Some to.now → IfErr result (λ missed. IsFault missed) }
    ensures nets { OnOk result (Steps SameNet (H.told host.old).stops (H.told host.new).stops) }
    ensures memory { IsErrOf result Missed.OutOfMemory → Steps Stays (H.told host.old).stops (H.told host.new).stops }
    ensures fault { IsErrOf result Missed.Failed → Rose (H.told host.old).faults (H.told host.new).faults }
    // On every host.
    ensures says { (doc : Doc) (start : Start) (from : NetData) → Follows start (H.told host.old)
        → merge from doc ≡ Ok to.now → (H.tells → saved_net (H.told host.old).state.cell ≡ Some from)
        → IfErr result (λ missed. Why H.tells doc start (H.told host.new) missed) }
    ensures quiet { OnOk result (NoneRefused (H.told host.old).kernel (H.told host.new).kernel) }
    // A network is compared only where that is wanted.
    ensures compared { (found : NetData) → IsErrOf result (Missed.Differs found) → no_verify ≡ false }
    ensures dumped { OnOk result (no_verify ≡ false → (H.told host.new).kernel.calls ≡ 0) }
    ensures fresh { H.tells → no_verify ≡ true → (H.told host.new).fresh ≡ (H.told host.old).fresh }
    ensures stands { H.tells → cell_of (H.told host.new).state.cell ≢ None }
    ensures moment { (H.told host.old).stops.moment ≤ (H.told host.new).stops.moment }
    ensures later { (H.told host.old).faults ≤ (H.told host.new).faults }
{
    match verify(host, alloc, to, no_verify) {
        Ok(()) => {}
        Err(missed) => return Err(missed),
    }
    match mark(host, no_commit) {
        Ok(()) => Ok(()),
        Err(Failed) => Err(Missed::Failed),
    }
}

/// Makes a change from one network to another, behind a checkpoint.
pub fn attempt<H: Host>(
    host: &mut H,
    alloc: Global,
    from: &Net,
    to: &Net,
    calls: &[Call],
    opts: &ApplyOpts,
    made: u64,
    deadline: u64,
) -> Result<(), Missed>
    requires settled { (H.told host.old).settled }
    requires none { H.tells → Holds None (H.told host.old) }
    ensures set { H.tells → OnOk result (Holds (sealed opts.now.no_commit made deadline from.now) (H.told host.new)) }
    ensures verified { H.tells → OnOk result (opts.now.no_verify ≡ false → (H.told host.new).fresh ≡ Some to.now) }
    ensures checked { H.honest → OnOk result (opts.now.no_verify ≡ false → IsSeen to.now (H.told host.new)) }
    // A change is left to wait only once it is compared.
    ensures seen { WhereSound H.honest (H.told host.old) (Ends (restored_to from.now) (H.told host.old) → opts.now.no_verify ≡ false
        → WaitsSeen to.now (H.told host.new)) }
    ensures kept { WhereSound H.honest (H.told host.old) (Ends (restored_to from.now) (H.told host.old)
        → WhereRuns calls.now from.now to.now (H.told host.old) (Kept (IsOnWay opts.now.no_commit made deadline from.now to.now) (H.told host.old)
        (H.told host.new))) }
    ensures ends { H.honest
        → WhereRuns calls.now from.now to.now (H.told host.old) (OnOk result (Ends (stand to.now (sealed opts.now.no_commit made deadline from.now))
        (H.told host.new))) }
    ensures missed { H.honest → WhereRuns calls.now from.now to.now (H.told host.old) (IfErr result (λ missed. IsFault missed)) }
    ensures memory { WhereSound H.honest (H.told host.old) (Ends (restored_to from.now) (H.told host.old)
        → WhereRuns calls.now from.now to.now (H.told host.old) (IsErrOf result Missed.OutOfMemory → AllNear (Only (restored_to from.now)) (H.told host.new))) }
    ensures calm { H.honest → UpToNow (H.told host.old) (λ t. (H.told host.old).state.net ≡ Some from.now → IsPlan from.now to.now calls.now
        → CalmSince from.now to.now t (H.told host.old)
        → OnOk result (CalmSince from.now to.now t (H.told host.new))) }
    ensures fault { IsErrOf result Missed.Failed → Rose (H.told host.old).faults (H.told host.new).faults }
    // On every host.
    ensures says { WhereMerges from.now to.now (H.told host.old) (λ doc start. IfErr result (λ missed. Why H.tells doc start (H.told host.new) missed)) }
    ensures quiet { OnOk result (NoneRefused (H.told host.old).kernel (H.told host.new).kernel) }
    ensures compared { (found : NetData) → IsErrOf result (Missed.Differs found) → opts.now.no_verify ≡ false }
    // A change that is verified was dumped after its last call; in one that isn't no dump is made.
    ensures dumped { OnOk result (opts.now.no_verify ≡ false → (H.told host.new).kernel.calls ≡ 0) }
    ensures fresh { H.tells → OnOk result (opts.now.no_verify ≡ true → ((H.told host.new).fresh ≡ (H.told host.old).fresh) ⊎ ((H.told host.new).fresh ≡ None)) }
    // Where no checkpoint stands behind it, no call was made.
    ensures unset { H.tells → OnErr result (cell_of (H.told host.new).state.cell ≡ None
        → ((H.told host.new).state.net ≡ (H.told host.old).state.net) × ((H.told host.new).kernel ≡ (H.told host.old).kernel)) }
    ensures moment { (H.told host.old).stops.moment ≤ (H.told host.new).stops.moment }
    ensures later { (H.told host.old).faults ≤ (H.told host.new).faults }
{
    match begin(host, alloc, from, calls, made, deadline) {
        Ok(()) => {}
        Err(missed) => return Err(missed),
    }
    seal(host, alloc, to, opts.no_commit, opts.no_verify)
}
