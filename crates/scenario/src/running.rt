//! A run from its first network on, stage after stage.
ghost use Rattle.std.specs.Prelude.{◌≡◌, ◌≤◌, true};
ghost use Rattle.net_model.specs.NetData.{NetData};
ghost use Rattle.document_model.specs.declared.Doc.{Doc};
ghost use Rattle.document_model.specs.Entries.{is_document};
ghost use Rattle.checkpoint_cell.specs.Settled.{restored_to};
ghost use Rattle.scenario_model.specs.Counts.{IsPlanned, HasPlan};
ghost use Rattle.scenario_model.specs.Saying.{RunSays, past_of};
ghost use Rattle.scenario_model.specs.Answering.{RunAnswers};
ghost use Rattle.scenario.specs.Stages.{IsAt};

use crate::changing::{change, options, try_out};
use crate::counts::summary_of;
use crate::planning::count_calls;
use document_model::Doc;
use host_core::Host;
use scenario_model::{FIRST_AT, SECOND_AT, Summary, WorkFault};
use std::alloc::Global;

// Counts the last network.
fn summarize<H: Host>(
    host: &mut H,
    alloc: Global,
    first_calls: u32,
    second_calls: u32,
) -> Result<Summary, WorkFault>
    ensures says { (first second : Doc) → HasPlan first first_calls → HasPlan second second_calls
        → RunSays H.tells first second (past_of (H.told host.old)) (H.told host.new) result }
    ensures answer { H.honest → (first second : Doc) (from middle last : NetData)
        → IsPlanned first from middle first_calls → IsPlanned second middle last second_calls
        → IsAt (restored_to last) (H.told host.old)
        → RunAnswers from first second (H.told host.old).faults (H.told host.new) result }
    ensures later { (H.told host.old).faults ≤ (H.told host.new).faults }
{
    match host.dump(alloc) {
        Ok(last) => Ok(summary_of(&last, first_calls, second_calls)),
        Err(fault) => Err(WorkFault::Dump(fault)),
    }
}

// Applies the second document, and counts.
fn apply_second<H: Host>(
    host: &mut H,
    alloc: Global,
    second: &Doc,
    first_calls: u32,
    second_calls: u32,
) -> Result<Summary, WorkFault>
    requires { is_document second.now ≡ true }
    ensures says { (first : Doc) → HasPlan first first_calls → HasPlan second.now second_calls
        → RunSays H.tells first second.now (past_of (H.told host.old)) (H.told host.new) result }
    ensures answer { H.honest → (first : Doc) (from middle last : NetData) → IsPlanned first from middle first_calls
        → IsPlanned second.now middle last second_calls → IsAt (restored_to middle) (H.told host.old)
        → RunAnswers from first second.now (H.told host.old).faults (H.told host.new) result }
    ensures later { (H.told host.old).faults ≤ (H.told host.new).faults }
{
    let opts = options(false);
    match change(host, alloc, second, &opts, SECOND_AT) {
        Ok(()) => summarize(host, alloc, first_calls, second_calls),
        Err(fault) => Err(fault),
    }
}

// Counts the calls for the second document, and goes on.
fn plan_second<H: Host>(
    host: &mut H,
    alloc: Global,
    second: &Doc,
    first_calls: u32,
) -> Result<Summary, WorkFault>
    requires { is_document second.now ≡ true }
    ensures says { (first : Doc) → HasPlan first first_calls → RunSays H.tells first second.now (past_of (H.told host.old)) (H.told host.new) result }
    ensures answer { H.honest → (first : Doc) (from middle : NetData) → IsPlanned first from middle first_calls → IsAt (restored_to middle) (H.told host.old)
        → RunAnswers from first second.now (H.told host.old).faults (H.told host.new) result }
    ensures later { (H.told host.old).faults ≤ (H.told host.new).faults }
{
    match count_calls(host, alloc, second) {
        Ok(second_calls) => apply_second(host, alloc, second, first_calls, second_calls),
        Err(fault) => Err(fault),
    }
}

// Applies the first document to stay, and goes on.
fn apply_first<H: Host>(
    host: &mut H,
    alloc: Global,
    first: &Doc,
    second: &Doc,
    first_calls: u32,
) -> Result<Summary, WorkFault>
    requires first { is_document first.now ≡ true }
    requires second { is_document second.now ≡ true }
    ensures says { HasPlan first.now first_calls → RunSays H.tells first.now second.now (past_of (H.told host.old)) (H.told host.new) result }
    ensures answer { H.honest → (from middle : NetData) → IsPlanned first.now from middle first_calls → IsAt (restored_to from) (H.told host.old)
        → RunAnswers from first.now second.now (H.told host.old).faults (H.told host.new) result }
    ensures later { (H.told host.old).faults ≤ (H.told host.new).faults }
{
    let opts = options(false);
    match change(host, alloc, first, &opts, FIRST_AT) {
        Ok(()) => plan_second(host, alloc, second, first_calls),
        Err(fault) => Err(fault),
    }
}

// Applies the first document and takes it back, and goes on.
fn try_first<H: Host>(
    host: &mut H,
    alloc: Global,
    first: &Doc,
    second: &Doc,
    first_calls: u32,
) -> Result<Summary, WorkFault>
    requires first { is_document first.now ≡ true }
    requires second { is_document second.now ≡ true }
    ensures says { HasPlan first.now first_calls → RunSays H.tells first.now second.now (past_of (H.told host.old)) (H.told host.new) result }
    ensures answer { H.honest → (from middle : NetData) → IsPlanned first.now from middle first_calls → IsAt (restored_to from) (H.told host.old)
        → RunAnswers from first.now second.now (H.told host.old).faults (H.told host.new) result }
    ensures later { (H.told host.old).faults ≤ (H.told host.new).faults }
{
    match try_out(host, alloc, first) {
        Ok(()) => apply_first(host, alloc, first, second, first_calls),
        Err(fault) => Err(fault),
    }
}

/// Counts the calls for the first document, applies it and takes it back, applies both documents, and counts.
pub fn run<H: Host>(
    host: &mut H,
    alloc: Global,
    first: &Doc,
    second: &Doc,
) -> Result<Summary, WorkFault>
    requires first { is_document first.now ≡ true }
    requires second { is_document second.now ≡ true }
    ensures says { RunSays H.tells first.now second.now (past_of (H.told host.old)) (H.told host.new) result }
    ensures answer { H.honest → (from : NetData) → IsAt (restored_to from) (H.told host.old)
        → RunAnswers from first.now second.now (H.told host.old).faults (H.told host.new) result }
    ensures later { (H.told host.old).faults ≤ (H.told host.new).faults }
{
    match count_calls(host, alloc, first) {
        Ok(first_calls) => try_first(host, alloc, first, second, first_calls),
        Err(fault) => Err(fault),
    }
}
