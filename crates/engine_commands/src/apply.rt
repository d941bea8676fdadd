//! The command that makes the change of a document.
ghost use Rattle.std.specs.Prelude.{◌≡◌, true};
ghost use Rattle.document_model.specs.Entries.{is_document};
ghost use Rattle.top_model.specs.Machine.{apply_cause};
ghost use Rattle.top_model.specs.Orders.{applying};
ghost use Rattle.top_model.specs.Texts.{note_lines};
ghost use Rattle.command_laws.specs.Carried.{Carried};

use answer_text::{applied_line, note_text, tell_done, tell_refused};
use base_model::OutOfMemory;
use document_model::Doc;
use engine_core::apply;
use engine_model::{ApplyFault, ApplyOpts};
use host_core::{Host, Sink, Source};
use std::alloc::Global;
use top_model::{Cause, Report};

/// The cause that a fault of the engine's `apply` is.
pub fn apply_cause(fault: ApplyFault) -> Cause
    ensures { result ≡ apply_cause fault }
{
    match fault {
        ApplyFault::Pending(deadline) => Cause::Pending(deadline),
        ApplyFault::MergeRefused(refused) => Cause::MergeRefused(refused),
        ApplyFault::HostFault(left) => Cause::HostFault(left),
        ApplyFault::KernelRefused(number, call, left) => Cause::KernelRefused(number, call, left),
        ApplyFault::NotVerified(found, left) => Cause::NotVerified(found, left),
        ApplyFault::InDoubt => Cause::InDoubt,
        ApplyFault::Damaged(area) => Cause::Damaged(area),
        ApplyFault::HardwareDiffers(names) => Cause::HardwareDiffers(names),
        ApplyFault::OutOfMemory => Cause::OutOfMemory,
    }
}

// Makes the change that a document wants, and tells what came of it, after these notes.
fn apply_noted<H: Host, S: Source, W: Sink>(
    alloc: Global,
    doc: &Doc,
    notes: &[u8],
    opts: &ApplyOpts,
    host: &mut H,
    out: &mut W,
    err: &mut W,
    now: u64,
) -> Report
    requires document { is_document doc.now ≡ true }
    requires notes { notes.now ≡ note_lines doc.now.notes }
    ensures { Carried H.Host S.Source W.Sink (applying doc.now opts.now) now host.old host.new out.old out.new err.old err.new result }
{
    match apply(host, alloc, doc, opts, now) {
        Ok(applied) => tell_done(notes, applied_line(applied).as_bytes(), out, err),
        Err(fault) => tell_refused(notes, apply_cause(fault), out, err),
    }
}

/// `apply` of a document: makes the change that it wants, tells what came of it, after the notes of the document, and
/// answers the report. The moment is in seconds. The memory of the notes is taken before any call on the host, so that what
/// is done can be told.
///
/// It answers the cause of the fault that `engine_core::apply` gives, `OutOfMemory` where there is none for the notes, and
/// `WriteFault` where a sink fails.
pub fn apply_run<H: Host, S: Source, W: Sink>(
    alloc: Global,
    doc: &Doc,
    opts: &ApplyOpts,
    host: &mut H,
    out: &mut W,
    err: &mut W,
    now: u64,
) -> Report
    requires { is_document doc.now ≡ true }
    ensures { Carried H.Host S.Source W.Sink (applying doc.now opts.now) now host.old host.new out.old out.new err.old err.new result }
{
    match note_text(alloc, doc.notes.items()) {
        Ok(notes) => {
            apply_noted::<H, S, W>(alloc, doc, notes.as_slice(), opts, host, out, err, now)
        }
        Err(OutOfMemory) => tell_refused(b"", Cause::OutOfMemory, out, err),
    }
}
