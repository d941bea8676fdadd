//! The whole change: what is wanted, the attempt, and what follows where it fails.
ghost use Rattle.std.specs.Prelude.{◌≡◌, ◌≢◌, ◌⊎◌, ◌≤◌, ◌-◌, ℕ, Option, if◌then◌else◌, true, false, None, Some, Ok, Err, OnOk, OnErr, IfOk, IfErr, IsErrOf};
ghost use Rattle.net_model.specs.NetData.{NetData};
ghost use Rattle.document_model.specs.declared.Doc.{Doc};
ghost use Rattle.document_model.specs.declared.Refused.{Refused};
ghost use Rattle.document_model.specs.Entries.{is_document};
ghost use Rattle.host_core.specs.Faults.{Rose};
ghost use Rattle.host_core.specs.Stops.{Steps};
ghost use Rattle.host_core.specs.HostView.{State, HasNet, SameKernel, SameNet};
ghost use Rattle.plan_model.specs.Plans.{IsPlan};
ghost use Rattle.checkpoint_cell.specs.Cell.{cell_of, saved_net};
ghost use Rattle.checkpoint_cell.specs.Steps.{Holds};
ghost use Rattle.checkpoint_cell.specs.Settled.{standing, restored_to};
ghost use Rattle.merge_model.specs.MergedNet.{merge};
ghost use Rattle.engine_model.specs.Machine.{asked, apply, change, apply_fault, deadline_of, recover};
ghost use Rattle.engine_model.specs.Undone.{stand};
ghost use Rattle.engine_model.specs.Sound.{WhereSound};
ghost use Rattle.engine_model.specs.Stations.{Only, Kept, Ends};
ghost use Rattle.engine_model.specs.Answers.{IsUndone};
ghost use Rattle.engine_model.specs.Compared.{WaitsSeen, Compared};
ghost use Rattle.engine_model.specs.Refusals.{NoCallMade, ApplyCounts};
ghost use Rattle.engine_model.specs.Failing.{ApplyIdle, ApplyIntact, ApplyWaits};
ghost use Rattle.engine_model.specs.Faults.{ApplySays, ApplyExact, MayStandHalf, Tries, FailsTwice, Dumps, Backs, HasTaken};
ghost use Rattle.engine_core.specs.Attempts.{sealed, done, IsEither, IsFault, WhereRuns};
ghost use Rattle.engine_core.specs.Saying.{Start, Follows, WhereMerges, DamagedSince, Why, SettledBy, Said, taken_back_as, pending_as, damaged_as, stopped_as, IsGivenUp, ChangeIdle, ChangeIntact};
ghost use Rattle.engine_core.specs.Calm.{CalmSince, UpToNow};
ghost use Rattle.engine_core.specs.Applying.{GaveUp, Hurt, Exit, IsStation, IsApplied, ExitApply, MadeSeen};

use crate::attempting::attempt;
use crate::missed::Missed;
use checkpoint_cell::clear;
use document_model::Doc;
use engine_model::{Applied, ApplyFault, ApplyOpts, BackFault, Left, Recovered};
use engine_restore::{go_back, take_back};
use host_core::{DumpFault, Failed, Host};
use merge_core::merge;
use merge_model::MergeFault;
use net_core::Net;
use net_model::{Call, OutOfMemory};
use plan_core::plan;
use std::alloc::Global;

// The answer where the change was taken back.
fn taken_back(missed: Missed) -> ApplyFault
    ensures { result ≡ taken_back_as missed }
{
    match missed {
        Missed::Failed => ApplyFault::HostFault(Left::RolledBack),
        Missed::Refused(k, n) => ApplyFault::KernelRefused(k, n, Left::RolledBack),
        Missed::Damaged => ApplyFault::Damaged(0),
        Missed::Differs(found) => ApplyFault::NotVerified(found, Left::RolledBack),
        Missed::OutOfMemory => ApplyFault::OutOfMemory,
    }
}

// The answer of a restoring that didn't come to its end, as an apply's.
fn pending(fault: BackFault) -> ApplyFault
    ensures { result ≡ pending_as fault }
{
    match fault {
        BackFault::NoCheckpoint => ApplyFault::Damaged(1),
        BackFault::HostFault(_) => ApplyFault::HostFault(Left::Pending),
        BackFault::KernelRefused(k, n, _) => ApplyFault::KernelRefused(k, n, Left::Pending),
        BackFault::Damaged(area) => ApplyFault::Damaged(area),
        BackFault::HardwareDiffers(names) => ApplyFault::HardwareDiffers(names),
        BackFault::OutOfMemory => ApplyFault::OutOfMemory,
    }
}

// What it answers where the host had no network to verify, and the restoring told this fault.
fn damaged(fault: BackFault) -> ApplyFault
    ensures { result ≡ damaged_as fault }
{
    match fault {
        BackFault::OutOfMemory => ApplyFault::OutOfMemory,
        _ => ApplyFault::Damaged(0),
    }
}

// The answer where the restoring didn't come to its end.
fn stopped(missed: Missed, fault: BackFault) -> ApplyFault
    ensures { result ≡ stopped_as missed fault }
{
    match missed {
        Missed::OutOfMemory => ApplyFault::OutOfMemory,
        Missed::Damaged => damaged(fault),
        Missed::Failed => pending(fault),
        Missed::Refused(_, _) => pending(fault),
        Missed::Differs(_) => pending(fault),
    }
}

// Restores after a failure, and gives the answer.
fn give_up<H: Host>(host: &mut H, alloc: Global, missed: Missed) -> ApplyFault
    ensures kept { WhereSound H.honest (H.told host.old) ((from : NetData) → ((s : State) → (H.told host.old).stops.may_leave s → IsUndone s (restored_to from))
        → Kept (Only (restored_to from)) (H.told host.old) (H.told host.new)) }
    ensures exit { WhereSound H.honest (H.told host.old) ((from : NetData) → ((s : State) → (H.told host.old).stops.may_leave s → IsUndone s (restored_to from))
        → IsFault missed → GaveUp from (H.told host.old).faults result (H.told host.new)) }
    ensures memory { missed ≡ Missed.OutOfMemory → result ≡ ApplyFault.OutOfMemory }
    ensures begun { IsGivenUp result }
    ensures hurt { H.honest → (start : ℕ) (to : NetData) → IsFault missed
        → (missed ≡ Missed.Failed → Rose start (H.told host.old).faults)
        → Hurt (Rose start (H.told host.new).faults) to (H.told host.new) result }
    // On every host.
    ensures says { (doc : Doc) (opts : ApplyOpts) (made : ℕ) (start : Start) → start.faults ≤ (H.told host.old).faults
        → start.moment ≤ (H.told host.old).stops.moment → Why H.tells doc start (H.told host.old) missed
        → ((found : NetData) → missed ≡ Missed.Differs found → opts.no_verify ≡ false)
        → (H.tells → cell_of (H.told host.old).state.cell ≡ None → SettledBy H.tells made start (H.told host.old))
        → Said H.tells (asked doc opts made) start (H.told host.new) (Err result) }
    ensures counts { (doc : Doc) (start : Start) → Why H.tells doc start (H.told host.old) missed
        → ApplyCounts start.kernel (H.told host.new).kernel (Err result) }
    // Where it says that a change may stand half way, it tried to restore and failed.
    ensures tries { (doc : Doc) (opts : ApplyOpts) (start : Start) → Why H.tells doc start (H.told host.old) missed
        → ((found : NetData) → missed ≡ Missed.Differs found → opts.no_verify ≡ false)
        → Tries (opts.no_verify ≡ false) start.faults start.kernel.refusals (H.told host.new) (Err result) }
    ensures twice { H.honest → (start : ℕ) → IsFault missed → (missed ≡ Missed.Failed → Rose start (H.told host.old).faults)
        → FailsTwice ⊥ start (H.told host.new) (Err result) }
    // On an honest host, sound or not, where it says that all is taken back.
    ensures backs { H.honest → (before : Option NetData)
        → (cell_of (H.told host.old).state.cell ≡ None → (H.told host.old).state.net ≡ before)
        → Backs before (H.told host.new) (Err result) }
    // Where a change may still wait, the network was seen if it was before.
    ensures seen { H.honest → (net : NetData) → WaitsSeen net (H.told host.old) → WaitsSeen net (H.told host.new) }
    ensures moment { (H.told host.old).stops.moment ≤ (H.told host.new).stops.moment }
    ensures later { (H.told host.old).faults ≤ (H.told host.new).faults }
{
    match go_back(host, alloc) {
        Ok(_) => taken_back(missed),
        Err(fault) => stopped(missed, fault),
    }
}

// Lets a change stand that is made: it waits, or its checkpoint is cleared.
fn finish<H: Host>(host: &mut H, no_commit: bool, deadline: u64) -> Result<Applied, ApplyFault>
    requires { H.tells → (made : ℕ) × (d : ℕ) × (from : NetData) × Holds (sealed no_commit made d from) (H.told host.old) }
    // The saved network stands in its place also where it fails.
    ensures saved { H.tells → (made d : ℕ) (from : NetData) → Holds (sealed no_commit made d from) (H.told host.old)
        → saved_net (H.told host.new).state.cell ≡ Some from }
    ensures kernel { SameKernel H.tells (H.told host.old) (H.told host.new) }
    ensures kept { WhereSound H.tells (H.told host.old) ((made d : ℕ) (from to : NetData) → Holds (sealed no_commit made d from) (H.told host.old)
        → Ends (stand to (sealed no_commit made d from)) (H.told host.old) → Kept (Only (done no_commit made d from to)) (H.told host.old) (H.told host.new)) }
    ensures ends { H.tells → (made d : ℕ) (from to : NetData) → Holds (sealed no_commit made d from) (H.told host.old)
        → Ends (stand to (sealed no_commit made d from)) (H.told host.old)
        → OnOk result (Ends (done no_commit made d from to) (H.told host.new)) }
    ensures nets { H.tells → (made d : ℕ) (from to : NetData)
        → Ends (stand to (sealed no_commit made d from)) (H.told host.old) → HasNet (Some to) (H.told host.new) }
    ensures stays { OnOk result (Steps SameNet (H.told host.old).stops (H.told host.new).stops) }
    ensures doubt { IfErr result (λ fault. fault ≡ ApplyFault.InDoubt) }
    ensures fault { OnErr result (Rose (H.told host.old).faults (H.told host.new).faults) }
    // A change that is to wait isn't ended here.
    ensures ended { OnErr result (no_commit ≡ false) }
    ensures value { IfOk result (λ applied. applied.deadline ≡ (if no_commit then Some deadline else None)) }
    ensures moment { (H.told host.old).stops.moment ≤ (H.told host.new).stops.moment }
    ensures later { (H.told host.old).faults ≤ (H.told host.new).faults }
{
    if no_commit {
        return Ok(Applied {
            deadline: Some(deadline),
        });
    }
    match clear(host) {
        Ok(()) => Ok(Applied { deadline: None }),
        Err(Failed) => Err(ApplyFault::InDoubt),
    }
}

// Makes a planned change, and restores where it fails.
fn carry_out<H: Host>(
    host: &mut H,
    alloc: Global,
    from: &Net,
    to: &Net,
    calls: &[Call],
    opts: &ApplyOpts,
    made: u64,
    deadline: u64,
) -> Result<Applied, ApplyFault>
    requires settled { (H.told host.old).settled }
    requires none { H.tells → Holds None (H.told host.old) }
    ensures kept { WhereSound H.honest (H.told host.old) (Ends (restored_to from.now) (H.told host.old)
        → WhereRuns calls.now from.now to.now (H.told host.old) (Kept (IsEither opts.now.no_commit made deadline from.now to.now) (H.told host.old)
        (H.told host.new))) }
    ensures exit { WhereSound H.honest (H.told host.old) (Ends (restored_to from.now) (H.told host.old)
        → WhereRuns calls.now from.now to.now (H.told host.old) ((doc : Doc) → merge from.now doc ≡ Ok to.now
        → deadline ≡ deadline_of (asked doc opts.now made)
        → Exit (asked doc opts.now made) (restored_to from.now) (H.told host.old).faults result (H.told host.new))) }
    // A change is left to wait only once it is compared.
    ensures seen { WhereSound H.honest (H.told host.old) (Ends (restored_to from.now) (H.told host.old) → opts.now.no_verify ≡ false
        → WaitsSeen to.now (H.told host.new)) }
    // On an honest host, sound or not.
    ensures ends { H.honest
        → WhereRuns calls.now from.now to.now (H.told host.old) (OnOk result (Ends (done opts.now.no_commit made deadline from.now to.now) (H.told host.new))) }
    ensures hurt { H.honest
        → WhereRuns calls.now from.now to.now (H.told host.old) (IfErr result (λ fault. Hurt (Rose (H.told host.old).faults (H.told host.new).faults) to.now
        (H.told host.new) fault)) }
    ensures calm { H.honest → UpToNow (H.told host.old) (λ t. (H.told host.old).state.net ≡ Some from.now → IsPlan from.now to.now calls.now
        → CalmSince from.now to.now t (H.told host.old)
        → OnOk result (CalmSince from.now to.now t (H.told host.new))) }
    ensures value { IfOk result (λ applied. applied.deadline ≡ (if opts.now.no_commit then Some deadline else None)) }
    // On every host.
    ensures says { WhereMerges from.now to.now (H.told host.old) (λ doc start. SettledBy H.tells made start (H.told host.old)
        → Said H.tells (asked doc opts.now made) start (H.told host.new) result) }
    ensures counts { WhereMerges from.now to.now (H.told host.old) (λ doc start. ApplyCounts start.kernel (H.told host.new).kernel result) }
    ensures tries { WhereMerges from.now to.now (H.told host.old) (λ doc start.
        Tries (opts.now.no_verify ≡ false) start.faults start.kernel.refusals (H.told host.new) result) }
    ensures twice { H.honest → WhereRuns calls.now from.now to.now (H.told host.old) (FailsTwice ⊥ (H.told host.old).faults (H.told host.new) result) }
    ensures dumps { (H.tells → (H.told host.old).fresh ≡ Some from.now) → Dumps H.tells opts.now.no_verify (H.told host.new) result }
    ensures backs { H.honest → Backs (H.told host.old).state.net (H.told host.new) result }
    ensures begun { IfErr result (λ fault. IsGivenUp fault ⊎ (fault ≡ ApplyFault.InDoubt)) }
    ensures moment { (H.told host.old).stops.moment ≤ (H.told host.new).stops.moment }
    ensures later { (H.told host.old).faults ≤ (H.told host.new).faults }
{
    match attempt(host, alloc, from, to, calls, opts, made, deadline) {
        Ok(()) => finish(host, opts.no_commit, deadline),
        Err(missed) => Err(give_up(host, alloc, missed)),
    }
}

// Merges, plans and makes the change, where no checkpoint stands.
fn change<H: Host>(
    host: &mut H,
    alloc: Global,
    doc: &Doc,
    opts: &ApplyOpts,
    now: u64,
    left: Left,
) -> Result<Applied, ApplyFault>
    requires document { is_document doc.now ≡ true }
    requires none { H.tells → Holds None (H.told host.old) }
    requires left { left ≢ Left.Pending }
    ensures kept { WhereSound H.honest (H.told host.old) (Ends (standing (H.told host.old).state) (H.told host.old)
        → Kept (IsStation (asked doc.now opts.now now) (standing (H.told host.old).state)) (H.told host.old) (H.told host.new)) }
    ensures exit { WhereSound H.honest (H.told host.old) (Ends (standing (H.told host.old).state) (H.told host.old)
        → Exit (asked doc.now opts.now now) (standing (H.told host.old).state) (H.told host.old).faults result (H.told host.new)) }
    // A change is left to wait only once it is compared.
    ensures seen { WhereSound H.honest (H.told host.old) (Ends (standing (H.told host.old).state) (H.told host.old)
        → MadeSeen (asked doc.now opts.now now) (standing (H.told host.old).state) (H.told host.new)) }
    // On an honest host, sound or not.
    ensures exact { H.honest → ApplyExact (Rose (H.told host.old).faults (H.told host.new).faults)
        (change (asked doc.now opts.now now) (standing (H.told host.old).state) (H.told host.old).state.net)
        (H.told host.new) result }
    ensures calm { H.honest → UpToNow (H.told host.old) (λ t. (from to : NetData)
        → (H.told host.old).state.net ≡ Some from → merge from doc.now ≡ Ok to → CalmSince from to t (H.told host.old)
        → OnOk result (CalmSince from to t (H.told host.new))) }
    ensures value { IfOk result (λ applied. applied.deadline ≡ (if opts.now.no_commit then Some (deadline_of (asked doc.now opts.now now)) else None)) }
    // On every host.
    ensures says { (start : Start) → Follows start (H.told host.old) → SettledBy H.tells now start (H.told host.old)
        → (left ≡ Left.NotBegun → H.tells → (H.told host.old).state ≡ start.state)
        → Said H.tells (asked doc.now opts.now now) start (H.told host.new) result }
    ensures counts { (start : Start) → Follows start (H.told host.old) → (left ≡ Left.NotBegun → NoCallMade start.kernel (H.told host.old).kernel)
        → ApplyCounts start.kernel (H.told host.new).kernel result }
    ensures idle { ChangeIdle H.tells left (H.told host.old) (H.told host.new) result }
    // On an honest host whose count didn't rise it tells damage only where there is no network, and no other devices.
    ensures intact { H.honest → (Rose (H.told host.old).faults (H.told host.new).faults → ⊥)
        → ChangeIntact H.tells (H.told host.old) (H.told host.new) result }
    ensures tries { (start : Start) → Follows start (H.told host.old)
        → Tries (opts.now.no_verify ≡ false) start.faults start.kernel.refusals (H.told host.new) result }
    ensures twice { H.honest → FailsTwice ⊥ (H.told host.old).faults (H.told host.new) result }
    ensures dumps { Dumps H.tells opts.now.no_verify (H.told host.new) result }
    ensures backs { H.honest → Backs (H.told host.old).state.net (H.told host.new) result }
    ensures moment { (H.told host.old).stops.moment ≤ (H.told host.new).stops.moment }
    ensures later { (H.told host.old).faults ≤ (H.told host.new).faults }
{
    let from = match host.dump(alloc) {
        Ok(found) => found,
        Err(DumpFault::Failed) => return Err(ApplyFault::HostFault(left)),
        Err(DumpFault::Damaged) => return Err(ApplyFault::Damaged(0)),
        Err(DumpFault::OutOfMemory) => return Err(ApplyFault::OutOfMemory),
    };
    let to = match merge(alloc, &from, doc) {
        Ok(to) => to,
        Err(MergeFault::Refused(r)) => return Err(ApplyFault::MergeRefused(r)),
        Err(MergeFault::OutOfMemory) => return Err(ApplyFault::OutOfMemory),
    };
    let calls = match plan(alloc, &from, &to) {
        Ok(calls) => calls,
        Err(OutOfMemory) => return Err(ApplyFault::OutOfMemory),
    };
    let deadline = now.saturating_add(opts.timeout as u64);
    carry_out(host, alloc, &from, &to, &calls, opts, now, deadline)
}

// The answer of a settling that failed, as an apply's.
fn unsettled(fault: BackFault) -> ApplyFault
    ensures { result ≡ apply_fault fault }
{
    match fault {
        BackFault::NoCheckpoint => ApplyFault::Damaged(1),
        BackFault::HostFault(left) => ApplyFault::HostFault(left),
        BackFault::KernelRefused(k, n, left) => ApplyFault::KernelRefused(k, n, left),
        BackFault::Damaged(area) => ApplyFault::Damaged(area),
        BackFault::HardwareDiffers(names) => ApplyFault::HardwareDiffers(names),
        BackFault::OutOfMemory => ApplyFault::OutOfMemory,
    }
}

/// Settles, and makes the change that a document wants, whole or not at all. The moment is in seconds.
pub fn settle_and_change<H: Host>(
    host: &mut H,
    alloc: Global,
    doc: &Doc,
    opts: &ApplyOpts,
    now: u64,
) -> Result<Applied, ApplyFault>
    requires { is_document doc.now ≡ true }
    ensures kept { WhereSound H.honest (H.told host.old) (Kept (IsApplied (asked doc.now opts.now now) (H.told host.old).state) (H.told host.old)
        (H.told host.new)) }
    ensures exit { WhereSound H.honest (H.told host.old) (ExitApply (asked doc.now opts.now now) (H.told host.old) result (H.told host.new)) }
    // A change is left to wait only once it is compared.
    ensures seen { WhereSound H.honest (H.told host.old) (Compared (asked doc.now opts.now now) (H.told host.old) (H.told host.new)) }
    // On an honest host, sound or not.
    ensures exact { H.honest → ApplyExact (Rose (H.told host.old).faults (H.told host.new).faults)
        (apply (asked doc.now opts.now now) (standing (H.told host.old).state)) (H.told host.new) result }
    ensures calm { H.honest → UpToNow (H.told host.old) (λ t. (from to : NetData)
        → standing (H.told host.old).state ≡ restored_to from → merge from doc.now ≡ Ok to → CalmSince from to t (H.told host.old)
        → OnOk result (CalmSince from to t (H.told host.new))) }
    ensures value { IfOk result (λ applied. applied.deadline ≡ (if opts.now.no_commit then Some (deadline_of (asked doc.now opts.now now)) else None)) }
    // On every host.
    ensures says { ApplySays H.tells (asked doc.now opts.now now) (H.told host.old) (H.told host.new) result }
    ensures counts { ApplyCounts (H.told host.old).kernel (H.told host.new).kernel result }
    ensures unbegun { ApplyIdle H.tells now (H.told host.old) (H.told host.new) result }
    // Where a change waits that isn't due: whatever is answered, the host is as it was.
    ensures waits { ApplyWaits H.tells now (H.told host.old) (H.told host.new) }
    // On an honest host whose count didn't rise, damage and other devices leave the host as it was.
    ensures intact { H.honest → (Rose (H.told host.old).faults (H.told host.new).faults → ⊥)
        → ApplyIntact H.tells (H.told host.old) (H.told host.new) result }
    ensures damaged { H.tells → UpToNow (H.told host.old) (λ t. (area : ℕ) → IsErrOf result (ApplyFault.Damaged area)
        → DamagedSince t area (H.told host.new)) }
    // That a change may stand half way is told only where a restoring was tried.
    ensures tries { Tries (MayStandHalf H.tells (asked doc.now opts.now now) (H.told host.old))
        (H.told host.old).faults (H.told host.old).kernel.refusals (H.told host.new) result }
    ensures twice { H.honest → FailsTwice (HasTaken now (standing (H.told host.old).state).cell) (H.told host.old).faults (H.told host.new) result }
    // What the option to skip verifying skips, by what the host counts and what its last dump gave.
    ensures dumps { Dumps H.tells opts.now.no_verify (H.told host.new) result }
    // On an honest host, sound or not, where it says that all is taken back, the network is the one from before.
    ensures backs { H.honest → Backs (recover now (standing (H.told host.old).state)).after.net (H.told host.new) result }
    ensures moment { (H.told host.old).stops.moment ≤ (H.told host.new).stops.moment }
    ensures later { (H.told host.old).faults ≤ (H.told host.new).faults }
{
    match take_back(host, alloc, now) {
        Ok(Recovered::Waiting { deadline }) => Err(ApplyFault::Pending(deadline)),
        Ok(Recovered::Nothing) => change(host, alloc, doc, opts, now, Left::NotBegun),
        Ok(Recovered::Restored) => change(host, alloc, doc, opts, now, Left::RolledBack),
        Err(fault) => Err(unsettled(fault)),
    }
}
