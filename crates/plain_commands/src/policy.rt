//! The commands that evaluate a policy on the network as it is: its value is printed, or a plan for the document that it is.
ghost use Rattle.std.specs.Prelude.{◌≡◌, ◌≤◌, ℕ, true};
ghost use Rattle.document_model.specs.Entries.{is_document};
ghost use Rattle.merge_model.specs.MergedNet.{merge};
ghost use Rattle.policy_lang.specs.Held.{data_of};
ghost use Rattle.top_model.specs.Machine.{say_value, plan_to, plan_read};
ghost use Rattle.top_model.specs.Orders.{value_on, document_on, evaluating, planning_policy};
ghost use Rattle.top_model.specs.Told.{PlanErr};
ghost use Rattle.top_model.specs.Texts.{note_lines};
ghost use Rattle.command_laws.specs.Carried.{Carried};
ghost use Rattle.command_laws.specs.Looked.{ChangesNothing, LooksAs, TextOf};
ghost use Rattle.command_laws.specs.Noted.{TellsOf, ReadErr};

use crate::look::look;
use crate::plan::planned_of;
use answer_text::{note_text, tell_done, tell_refused};
use base_model::OutOfMemory;
use document_model::Doc;
use host_core::{Host, Sink, Source};
use net_core::Net;
use policy_document::{document_on, value_on};
use policy_lang::Policy;
use std::alloc::Global;
use top_model::{Cause, Report};
use yaml_text::yaml_of_tree;

// The text of a policy's value on a network.
fn value_text(alloc: Global, policy: &Policy, net: &Net) -> Result<Vec<u8>, Cause>
    ensures { TextOf (λ net. say_value (value_on (data_of policy.now) net)) net.now result }
{
    let tree = value_on(alloc, policy, net)?;
    match yaml_of_tree(alloc, &tree) {
        Ok(text) => Ok(text),
        Err(OutOfMemory) => Err(Cause::OutOfMemory),
    }
}

// The text of its value on the network that is found.
fn evaluated<H: Host>(alloc: Global, policy: &Policy, host: &mut H) -> Result<Vec<u8>, Cause>
    ensures text { LooksAs H.tells H.honest (λ net. say_value (value_on (data_of policy.now) net)) (H.told host.old) (H.told host.new) result }
    ensures looks { ChangesNothing H.tells (H.told host.old) (H.told host.new) }
{
    match look(alloc, host) {
        Ok(net) => value_text(alloc, policy, &net),
        Err(cause) => Err(cause),
    }
}

/// `policy`: prints the value of a policy on the network that the host gives, and answers the report. Nothing is changed.
///
/// It answers `DocRefused` where the policy has no value on that network, and `HostFault`, `Damaged`, `OutOfMemory` and
/// `WriteFault` as `show_run` does.
pub fn policy_run<H: Host, S: Source, W: Sink>(
    alloc: Global,
    policy: &Policy,
    host: &mut H,
    out: &mut W,
    err: &mut W,
) -> Report
    ensures { (now : ℕ) → Carried H.Host S.Source W.Sink (evaluating (data_of policy.now)) now
        host.old host.new out.old out.new err.old err.new result }
{
    match evaluated(alloc, policy, host) {
        Ok(text) => tell_done(b"", text.as_slice(), out, err),
        Err(cause) => tell_refused(b"", cause, out, err),
    }
}

// Tells a plan for a document from a network, after these notes of the document.
fn tell_plan<W: Sink>(
    alloc: Global,
    doc: &Doc,
    notes: &[u8],
    batch: bool,
    from: &Net,
    out: &mut W,
    err: &mut W,
) -> Report
    requires document { is_document doc.now ≡ true }
    requires notes { notes.now ≡ note_lines doc.now.notes }
    ensures told { TellsOf W.tells (λ net. plan_to batch net (merge net doc.now)) (ReadErr doc.now) from.now
        (W.told out.old) (W.told out.new) (W.told err.old) (W.told err.new) result }
    ensures out { (W.told out.old).faults ≤ (W.told out.new).faults }
    ensures err { (W.told err.old).faults ≤ (W.told err.new).faults }
{
    match planned_of(alloc, from, doc, batch) {
        Ok(text) => tell_done(notes, text.as_slice(), out, err),
        Err(cause) => tell_refused(notes, cause, out, err),
    }
}

// The same after the notes of the document, which are made first.
fn plan_doc<W: Sink>(
    alloc: Global,
    doc: &Doc,
    batch: bool,
    from: &Net,
    out: &mut W,
    err: &mut W,
) -> Report
    requires { is_document doc.now ≡ true }
    ensures told { TellsOf W.tells (λ net. plan_to batch net (merge net doc.now)) (ReadErr doc.now) from.now
        (W.told out.old) (W.told out.new) (W.told err.old) (W.told err.new) result }
    ensures out { (W.told out.old).faults ≤ (W.told out.new).faults }
    ensures err { (W.told err.old).faults ≤ (W.told err.new).faults }
{
    match note_text(alloc, doc.notes.items()) {
        Ok(notes) => tell_plan(alloc, doc, notes.as_slice(), batch, from, out, err),
        Err(OutOfMemory) => tell_refused(b"", Cause::OutOfMemory, out, err),
    }
}

// Tells a plan for the document that a policy is on a network.
fn plan_on<W: Sink>(
    alloc: Global,
    policy: &Policy,
    batch: bool,
    net: &Net,
    out: &mut W,
    err: &mut W,
) -> Report
    ensures told { TellsOf W.tells (λ n. plan_read batch n (document_on (data_of policy.now) n)) (PlanErr (λ n. n ≡ net.now) (data_of policy.now)) net.now
        (W.told out.old) (W.told out.new) (W.told err.old) (W.told err.new) result }
    ensures out { (W.told out.old).faults ≤ (W.told out.new).faults }
    ensures err { (W.told err.old).faults ≤ (W.told err.new).faults }
{
    match document_on(alloc, policy, net) {
        Ok(doc) => plan_doc(alloc, &doc, batch, net, out, err),
        Err(cause) => tell_refused(b"", cause, out, err),
    }
}

/// `plan` of a policy: prints the calls that would make the change that it wants on the network that the host gives, after
/// the notes of the document that it is there, and answers the report. Nothing is changed.
///
/// It answers `DocRefused` where the policy is no document on that network, and all else as `plan_run` does.
pub fn plan_policy_run<H: Host, S: Source, W: Sink>(
    alloc: Global,
    policy: &Policy,
    batch: bool,
    host: &mut H,
    out: &mut W,
    err: &mut W,
) -> Report
    ensures { (now : ℕ) → Carried H.Host S.Source W.Sink (planning_policy (data_of policy.now) batch) now
        host.old host.new out.old out.new err.old err.new result }
{
    match look(alloc, host) {
        Ok(net) => plan_on(alloc, policy, batch, &net, out, err),
        Err(cause) => tell_refused(b"", cause, out, err),
    }
}
