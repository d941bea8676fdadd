//! The command that makes the change that a policy wants.
ghost use Rattle.std.specs.Prelude.{◌≡◌, ◌≤◌, ◌++◌, [], true, Ok};
ghost use Rattle.document_model.specs.Entries.{is_document};
ghost use Rattle.engine_model.specs.Machine.{apply_fault};
ghost use Rattle.policy_lang.specs.Held.{data_of};
ghost use Rattle.policy_model.specs.Values.{PolicyData};
ghost use Rattle.answer_text.specs.Speaking.{Spoken};
ghost use Rattle.top_model.specs.Machine.{apply_cause};
ghost use Rattle.top_model.specs.Orders.{applying_policy};
ghost use Rattle.top_model.specs.Texts.{error_line, note_lines};
ghost use Rattle.command_laws.specs.Begun.{Recovers, Begun, Seen, Wants, look_cause, side_of, told_side, fault_notes};
ghost use Rattle.command_laws.specs.Carried.{Carried};

use crate::apply::apply_cause;
use answer_text::{applied_line, note_text, tell_done, tell_refused};
use base_model::OutOfMemory;
use document_model::Doc;
use engine_core::{apply, recover};
use engine_model::{ApplyFault, ApplyOpts, BackFault, Left, Recovered};
use host_core::{Area, DumpFault, Host, Sink, Source};
use net_core::Net;
use policy_document::document_on;
use policy_lang::Policy;
use std::alloc::Global;
use top_model::{Cause, Report};

// Why what is due wasn't taken back.
fn settling_cause(fault: BackFault) -> Cause
    ensures { result ≡ apply_cause (apply_fault fault) }
{
    match fault {
        BackFault::NoCheckpoint => Cause::Damaged(Area::Checkpoint.number()),
        BackFault::HostFault(left) => Cause::HostFault(left),
        BackFault::KernelRefused(number, call, left) => Cause::KernelRefused(number, call, left),
        BackFault::Damaged(area) => Cause::Damaged(area),
        BackFault::HardwareDiffers(names) => Cause::HardwareDiffers(names),
        BackFault::OutOfMemory => Cause::OutOfMemory,
    }
}

// What stands where nothing was begun behind the taking back.
fn side_of(done: Recovered) -> Left
    ensures { result ≡ side_of done }
{
    match done {
        Recovered::Restored => Left::RolledBack,
        _ => Left::NotBegun,
    }
}

// Why no network was dumped.
fn look_cause(done: Recovered, fault: DumpFault) -> Cause
    ensures { result ≡ look_cause done fault }
{
    match fault {
        DumpFault::Failed => Cause::HostFault(side_of(done)),
        DumpFault::Damaged => Cause::Damaged(Area::Kernel.number()),
        DumpFault::OutOfMemory => Cause::OutOfMemory,
    }
}

// A fault of the change, which comes behind the taking back.
fn told_side(done: Recovered, fault: ApplyFault) -> ApplyFault
    ensures { result ≡ told_side done fault }
{
    match fault {
        ApplyFault::HostFault(Left::NotBegun) => ApplyFault::HostFault(side_of(done)),
        fault => fault,
    }
}

// Tells why a change wasn't made. A change that waits is met before the notes are due.
fn tell_fault<W: Sink>(notes: &[u8], fault: ApplyFault, out: &mut W, err: &mut W) -> Report
    ensures told { Spoken W.tells (apply_cause fault) [] (fault_notes fault notes.now ++ error_line (apply_cause fault))
        (W.told out.old) (W.told out.new) (W.told err.old) (W.told err.new) result }
    ensures out { (W.told out.old).faults ≤ (W.told out.new).faults }
    ensures err { (W.told err.old).faults ≤ (W.told err.new).faults }
{
    match fault {
        ApplyFault::Pending(deadline) => tell_refused(b"", Cause::Pending(deadline), out, err),
        fault => tell_refused(notes, apply_cause(fault), out, err),
    }
}

// Makes the change that the document of a policy wants, and tells what came of it, after these notes.
fn apply_noted<H: Host, S: Source, W: Sink>(
    alloc: Global,
    doc: &Doc,
    notes: &[u8],
    opts: &ApplyOpts,
    done: Recovered,
    host: &mut H,
    out: &mut W,
    err: &mut W,
    now: u64,
) -> Report
    requires document { is_document doc.now ≡ true }
    requires notes { notes.now ≡ note_lines doc.now.notes }
    ensures { (start middle : H) (p : PolicyData) → Wants H.tells H.honest now done (H.told start) (H.told middle) (H.told host.old) p doc.now
        → Carried H.Host S.Source W.Sink (applying_policy p opts.now) now start host.new out.old out.new err.old err.new result }
{
    match apply(host, alloc, doc, opts, now) {
        Ok(applied) => tell_done(notes, applied_line(applied).as_bytes(), out, err),
        Err(fault) => tell_fault(notes, told_side(done, fault), out, err),
    }
}

// The same after the notes of the document, whose memory is taken before the change.
fn apply_doc<H: Host, S: Source, W: Sink>(
    alloc: Global,
    doc: &Doc,
    opts: &ApplyOpts,
    done: Recovered,
    host: &mut H,
    out: &mut W,
    err: &mut W,
    now: u64,
) -> Report
    requires { is_document doc.now ≡ true }
    ensures { (start middle : H) (p : PolicyData) → Wants H.tells H.honest now done (H.told start) (H.told middle) (H.told host.old) p doc.now
        → Carried H.Host S.Source W.Sink (applying_policy p opts.now) now start host.new out.old out.new err.old err.new result }
{
    match note_text(alloc, doc.notes.items()) {
        Ok(notes) => {
            apply_noted::<H, S, W>(
                alloc,
                doc,
                notes.as_slice(),
                opts,
                done,
                host,
                out,
                err,
                now,
            )
        }
        Err(OutOfMemory) => tell_refused(b"", Cause::OutOfMemory, out, err),
    }
}

// Makes the change that a policy wants on this network, which was dumped.
fn apply_on<H: Host, S: Source, W: Sink>(
    alloc: Global,
    policy: &Policy,
    net: &Net,
    opts: &ApplyOpts,
    done: Recovered,
    host: &mut H,
    out: &mut W,
    err: &mut W,
    now: u64,
) -> Report
    ensures { (start middle : H) → Seen H.tells H.honest now done (H.told start) (H.told middle) (H.told host.old) net.now
        → Carried H.Host S.Source W.Sink (applying_policy (data_of policy.now) opts.now) now
        start host.new out.old out.new err.old err.new result }
{
    match document_on(alloc, policy, net) {
        Ok(doc) => apply_doc::<H, S, W>(alloc, &doc, opts, done, host, out, err, now),
        Err(cause) => tell_refused(b"", cause, out, err),
    }
}

// Makes the change that a policy wants, once no checkpoint stands.
fn apply_begun<H: Host, S: Source, W: Sink>(
    alloc: Global,
    policy: &Policy,
    opts: &ApplyOpts,
    done: Recovered,
    host: &mut H,
    out: &mut W,
    err: &mut W,
    now: u64,
) -> Report
    ensures { (start : H) → Begun H.tells H.honest now done (H.told start) (H.told host.old)
        → Carried H.Host S.Source W.Sink (applying_policy (data_of policy.now) opts.now) now
        start host.new out.old out.new err.old err.new result }
{
    match host.dump(alloc) {
        Ok(net) => apply_on::<H, S, W>(alloc, policy, &net, opts, done, host, out, err, now),
        Err(fault) => tell_refused(b"", look_cause(done, fault), out, err),
    }
}

// Makes the change that a policy wants, unless a change waits.
fn apply_recovered<H: Host, S: Source, W: Sink>(
    alloc: Global,
    policy: &Policy,
    opts: &ApplyOpts,
    done: Recovered,
    host: &mut H,
    out: &mut W,
    err: &mut W,
    now: u64,
) -> Report
    ensures { (start : H) → Recovers H.tells H.honest now (H.told start) (H.told host.old) (Ok done)
        → Carried H.Host S.Source W.Sink (applying_policy (data_of policy.now) opts.now) now
        start host.new out.old out.new err.old err.new result }
{
    match done {
        Recovered::Nothing => {
            apply_begun::<H, S, W>(alloc, policy, opts, Recovered::Nothing, host, out, err, now)
        }
        Recovered::Restored => {
            apply_begun::<H, S, W>(
                alloc,
                policy,
                opts,
                Recovered::Restored,
                host,
                out,
                err,
                now,
            )
        }
        Recovered::Waiting { deadline } => { tell_refused(b"", Cause::Pending(deadline), out, err) }
    }
}

/// `apply` of a policy: makes the change that it wants on the network as it is once what is due is taken back, tells what
/// came of it, after the notes of the document that the policy is there, and answers the report. The moment is in seconds.
///
/// It answers `Pending` where a change waits, `DocRefused` where the policy is no document on that network, the causes of
/// the faults that `engine_core::recover`, a dump and `engine_core::apply` give, `OutOfMemory` where there is none for the
/// notes, and `WriteFault` where a sink fails.
pub fn apply_policy_run<H: Host, S: Source, W: Sink>(
    alloc: Global,
    policy: &Policy,
    opts: &ApplyOpts,
    host: &mut H,
    out: &mut W,
    err: &mut W,
    now: u64,
) -> Report
    ensures { Carried H.Host S.Source W.Sink (applying_policy (data_of policy.now) opts.now) now
        host.old host.new out.old out.new err.old err.new result }
{
    match recover(host, alloc, now) {
        Ok(done) => apply_recovered::<H, S, W>(alloc, policy, opts, done, host, out, err, now),
        Err(fault) => tell_refused(b"", settling_cause(fault), out, err),
    }
}
