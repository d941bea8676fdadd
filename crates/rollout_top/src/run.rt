//! The command `rollout`.
ghost use Rattle.std.specs.Prelude.{◌≡◌, ◌≤◌, true, length};
ghost use Rattle.document_model.specs.Entries.{is_document};
ghost use Rattle.rollout_model.specs.Rollout.{begun};
ghost use Rattle.top_model.specs.Texts.{note_lines};
ghost use Rattle.rollout_top.specs.Rollouts.{world, RolledOut, RollsDocument, RolloutAnswers};

use crate::prepare::{Prepared, prepare};
use crate::telling::{halted_cause, print_error, print_notes, report};
use answer_text::tell_refused;
use base_model::{OutOfMemory, Str};
use document_model::Doc;
use host_core::{Clock, Host, Sink, Source};
use order_reading::read_document;
use rollout_model::{Core, MAX_NODES};
use rollout_run::roll_out;
use std::alloc::Global;
use top_model::{Cause, Report};

/// How long the change of a node waits for its commit, in seconds.
pub const ROLLOUT_TIMEOUT: u32 = 60;

// Rolls the document out, with its notes before, and tells how it ended.
fn carry_out<H: Host, W: Sink, C: Clock>(
    alloc: Global,
    doc: &Doc,
    notes: &[u8],
    core: &mut Core,
    nodes: &mut Vec<H>,
    out: &mut W,
    err: &mut W,
    clock: &mut C,
) -> Report
    requires document { is_document doc.now ≡ true }
    requires notes { notes.now ≡ note_lines doc.now.notes }
    requires held { 1 ≤ core.old.limit }
    requires new { core.old ≡ begun (length nodes.old.items) core.old.limit }
    ensures { RolledOut H.Host C.Clock W.Sink core.old.limit doc.now nodes.old.items nodes.new.items clock.old clock.new
        out.old out.new err.old err.new result }
{
    let noted = print_notes(notes, err);
    let ended = roll_out(alloc, core, nodes, doc, ROLLOUT_TIMEOUT, noted, clock, out);
    let cause = halted_cause(ended.halted_by);
    let printed = print_error(&cause, ended.printed, err);
    report(cause, printed)
}

// Rolls a document out over the nodes, once the memory for it is there.
fn roll_document<H: Host, W: Sink, C: Clock>(
    alloc: Global,
    limit: u32,
    doc: &Doc,
    nodes: &mut Vec<H>,
    out: &mut W,
    err: &mut W,
    clock: &mut C,
) -> Report
    requires document { is_document doc.now ≡ true }
    requires some_nodes { 1 ≤ length nodes.old.items }
    requires few_nodes { length nodes.old.items ≤ MAX_NODES }
    requires some_held { 1 ≤ limit }
    requires few_held { limit ≤ MAX_NODES }
    ensures { RollsDocument H.Host C.Clock W.Sink limit doc.now nodes.old.items nodes.new.items clock.old clock.new
        out.old out.new err.old err.new result }
{
    let count = nodes.len() as u32;
    match prepare(alloc, limit, count, doc) {
        Ok(prepared) => {
            let Prepared { notes, mut core } = prepared;
            carry_out(
                alloc,
                doc,
                notes.as_slice(),
                &mut core,
                nodes,
                out,
                err,
                clock,
            )
        }
        Err(OutOfMemory) => tell_refused(b"", Cause::OutOfMemory, out, err),
    }
}

/// Rolls the document of a FILE out over the nodes, each with a host of its own, of which no more than `limit` have a change
/// open at a time. FILE is a name of the source; `-` is standard input. The clock is asked before each step.
///
/// The notes of the document are written to `err` before the first step, a line for each event to `out` as it comes, and at the
/// end how many nodes ended how. After a write that fails nothing more is written, and the rollout goes on.
///
/// The causes: `NoSuchName`, `ReadFault` and `DocRefused` as for a FILE of `apply`, but also for a policy, with no call on a
/// node; `OutOfMemory` before the first call, or where memory ran out on a node and that halted the rollout; `Halted` with
/// the first event that halted it; `Done` where nothing did and each node is committed; and `WriteFault` with the status of
/// the answer that wasn't written whole.
pub fn run_rollout<H: Host, S: Source, W: Sink, C: Clock>(
    alloc: Global,
    limit: u32,
    file: Str,
    nodes: &mut Vec<H>,
    src: &mut S,
    out: &mut W,
    err: &mut W,
    clock: &mut C,
) -> Report
    requires some_nodes { 1 ≤ length nodes.old.items }
    requires few_nodes { length nodes.old.items ≤ MAX_NODES }
    requires some_held { 1 ≤ limit }
    requires few_held { limit ≤ MAX_NODES }
    ensures { RolloutAnswers H.Host S.Source C.Clock W.Sink limit file (world nodes.old.items src.old out.old err.old clock.old)
        (world nodes.new.items src.new out.new err.new clock.new) result }
{
    match read_document(alloc, &Some(file), src) {
        Ok(doc) => roll_document(alloc, limit, &doc, nodes, out, err, clock),
        Err(cause) => tell_refused(b"", cause, out, err),
    }
}
