//! The number of calls of a plan.
ghost use Rattle.std.specs.Prelude.{◌≡◌, ◌≤◌, true, Some, Ok, Err, IfOk, IfErr};
ghost use Rattle.net_model.specs.NetData.{NetData};
ghost use Rattle.net_model.specs.Hardware.{hardware};
ghost use Rattle.document_model.specs.declared.Doc.{Doc};
ghost use Rattle.document_model.specs.declared.Refused.{Refused};
ghost use Rattle.document_model.specs.Entries.{is_document};
ghost use Rattle.host_core.specs.Stops.{Steps, Stays};
ghost use Rattle.merge_model.specs.MergedNet.{merge};
ghost use Rattle.scenario_model.specs.Counts.{IsPlanned, HasPlan};
ghost use Rattle.scenario_model.specs.Saying.{StepSays, IsPast, past_of};
ghost use Rattle.scenario_model.specs.Answering.{StepAnswers};
ghost use Rattle.scenario.specs.Stages.{HasLength, NoPlan, IsOneOf};

use base_model::OutOfMemory;
use document_model::Doc;
use host_core::Host;
use merge_core::merge;
use net_core::Net;
use plan_core::plan;
use scenario_model::WorkFault;
use std::alloc::Global;

// How many calls a plan from one network to the other has.
fn calls_between(alloc: Global, from: &Net, to: &Net) -> Result<u32, OutOfMemory>
    requires { hardware from.now.links ≡ hardware to.now.links }
    ensures { IfOk result (λ count. HasLength from.now to.now count) }
{
    from.laws();
    to.laws();
    let calls = plan(alloc, from, to)?;
    Ok(calls.len() as u32)
}

// How many calls a plan from one network to what a document makes of it has.
fn calls_from(alloc: Global, from: &Net, doc: &Doc) -> Result<u32, WorkFault>
    requires { is_document doc.now ≡ true }
    ensures counts { IfOk result (λ count. (to : NetData) × IsPlanned doc.now from.now to count) }
    ensures fails { IfErr result (λ fault. NoPlan doc.now from.now fault) }
{
    let to = match merge(alloc, from, doc) {
        Ok(to) => to,
        Err(fault) => return Err(WorkFault::Merge(fault)),
    };
    match calls_between(alloc, from, &to) {
        Ok(count) => Ok(count),
        Err(OutOfMemory) => Err(WorkFault::OutOfMemory),
    }
}

/// How many calls a plan has from the network of the host to what a document makes of it. Nothing is changed.
pub fn count_calls<H: Host>(host: &mut H, alloc: Global, doc: &Doc) -> Result<u32, WorkFault>
    requires { is_document doc.now ≡ true }
    ensures state { H.tells → (H.told host.new).state ≡ (H.told host.old).state }
    ensures stops { Steps Stays (H.told host.old).stops (H.told host.new).stops }
    ensures plan { IfOk result (λ count. HasPlan doc.now count) }
    ensures counts { H.honest → (from : NetData) → (H.told host.old).state.net ≡ Some from
        → IfOk result (λ count. (to : NetData) × IsPlanned doc.now from to count) }
    ensures says { (first second : Doc) → IsOneOf first second doc.now
        → IfErr result (λ fault. StepSays H.tells first second (past_of (H.told host.old)) (H.told host.new) fault) }
    ensures answer { H.honest → (from : NetData) → (H.told host.old).state.net ≡ Some from
        → IfErr result (λ fault. StepAnswers (merge from doc.now) (H.told host.old).faults (H.told host.new) fault) }
    ensures follows { IsPast H.tells (past_of (H.told host.old)) (past_of (H.told host.new)) }
    ensures later { (H.told host.old).faults ≤ (H.told host.new).faults }
{
    match host.dump(alloc) {
        Ok(from) => calls_from(alloc, &from, doc),
        Err(fault) => Err(WorkFault::Dump(fault)),
    }
}
