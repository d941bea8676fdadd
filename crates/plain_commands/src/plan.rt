//! The command that prints the calls of a change.
ghost use Rattle.std.specs.Prelude.{◌≡◌, ℕ, true, Ok, Err, IfOk};
ghost use Rattle.document_model.specs.Entries.{is_document};
ghost use Rattle.document_model.specs.declared.Refused.{Refused};
ghost use Rattle.net_model.specs.Hardware.{hardware};
ghost use Rattle.merge_model.specs.MergedNet.{merge};
ghost use Rattle.top_model.specs.Machine.{plan_to, said_plan};
ghost use Rattle.top_model.specs.Said.{Says, batched, planned};
ghost use Rattle.top_model.specs.Orders.{planning};
ghost use Rattle.command_laws.specs.Carried.{Carried};
ghost use Rattle.command_laws.specs.Looked.{ChangesNothing, LooksAs, TextOf};

use crate::look::look;
use answer_text::{call_text, note_text, tell_done, tell_refused};
use base_model::OutOfMemory;
use document_model::Doc;
use host_core::{Host, Sink, Source};
use ip_batch::write_batch;
use merge_core::merge;
use merge_model::MergeFault;
use net_core::Net;
use plan_core::plan;
use std::alloc::Global;
use top_model::{Cause, Report};

// The call lines of a plan.
fn plan_text(alloc: Global, from: &Net, to: &Net) -> Result<Vec<u8>, OutOfMemory>
    requires { hardware from.now.links ≡ hardware to.now.links }
    ensures { IfOk result (λ text. Says (planned from.now to.now) text.items) }
{
    let calls = plan(alloc, from, to)?;
    call_text(alloc, calls.as_slice())
}

// The lines of ip(8) of a plan.
fn batch_text(alloc: Global, from: &Net, to: &Net) -> Result<Vec<u8>, OutOfMemory>
    requires { hardware from.now.links ≡ hardware to.now.links }
    ensures { IfOk result (λ text. Says (batched from.now to.now) text.items) }
{
    let calls = plan(alloc, from, to)?;
    let mut text = Vec::new(alloc);
    write_batch(&calls, &mut text)?;
    Ok(text)
}

// The lines of a plan, as they are asked for.
fn text_to(alloc: Global, from: &Net, to: &Net, batch: bool) -> Result<Vec<u8>, OutOfMemory>
    requires { hardware from.now.links ≡ hardware to.now.links }
    ensures { IfOk result (λ text. Says (said_plan batch from.now to.now) text.items) }
{
    if batch {
        batch_text(alloc, from, to)
    } else {
        plan_text(alloc, from, to)
    }
}

fn lines_to(alloc: Global, from: &Net, to: &Net, batch: bool) -> Result<Vec<u8>, Cause>
    requires { hardware from.now.links ≡ hardware to.now.links }
    ensures { TextOf (λ net. Ok (said_plan batch net to.now)) from.now result }
{
    match text_to(alloc, from, to, batch) {
        Ok(text) => Ok(text),
        Err(OutOfMemory) => Err(Cause::OutOfMemory),
    }
}

// The lines of a plan to what a document makes of a network.
pub(crate) fn planned_of(
    alloc: Global,
    from: &Net,
    doc: &Doc,
    batch: bool,
) -> Result<Vec<u8>, Cause>
    requires { is_document doc.now ≡ true }
    ensures { TextOf (λ net. plan_to batch net (merge net doc.now)) from.now result }
{
    match merge(alloc, from, doc) {
        Ok(to) => lines_to(alloc, from, &to, batch),
        Err(MergeFault::Refused(refused)) => Err(Cause::MergeRefused(refused)),
        Err(MergeFault::OutOfMemory) => Err(Cause::OutOfMemory),
    }
}

// The lines of a plan from the network that is found.
fn planned<H: Host>(alloc: Global, doc: &Doc, batch: bool, host: &mut H) -> Result<Vec<u8>, Cause>
    requires { is_document doc.now ≡ true }
    ensures text { LooksAs H.tells H.honest (λ net. plan_to batch net (merge net doc.now)) (H.told host.old) (H.told host.new) result }
    ensures looks { ChangesNothing H.tells (H.told host.old) (H.told host.new) }
{
    match look(alloc, host) {
        Ok(from) => planned_of(alloc, &from, doc, batch),
        Err(cause) => Err(cause),
    }
}

/// `plan` of a document: prints the calls that would make the change that it wants, after its notes, and answers the
/// report. The calls are in their own lines, or with `batch` in lines of ip(8). Nothing is changed.
///
/// It answers `MergeRefused` where the document breaks a rule of the merge, and `HostFault`, `Damaged`, `OutOfMemory` and
/// `WriteFault` as `show_run` does.
pub fn plan_run<H: Host, S: Source, W: Sink>(
    alloc: Global,
    doc: &Doc,
    batch: bool,
    host: &mut H,
    out: &mut W,
    err: &mut W,
) -> Report
    requires { is_document doc.now ≡ true }
    ensures { (now : ℕ) → Carried H.Host S.Source W.Sink (planning doc.now batch) now host.old host.new out.old out.new err.old err.new result }
{
    let notes = match note_text(alloc, doc.notes.items()) {
        Ok(notes) => notes,
        Err(OutOfMemory) => return tell_refused(b"", Cause::OutOfMemory, out, err),
    };
    match planned(alloc, doc, batch, host) {
        Ok(text) => tell_done(notes.as_slice(), text.as_slice(), out, err),
        Err(cause) => tell_refused(notes.as_slice(), cause, out, err),
    }
}
