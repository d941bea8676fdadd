//! The command that works on a generated workload.
ghost use Rattle.std.specs.Prelude.{◌≡◌, ℕ, true};
ghost use Rattle.document_model.specs.Entries.{is_document};
ghost use Rattle.top_model.specs.Orders.{generating};
ghost use Rattle.command_laws.specs.Carried.{Carried};
ghost use Rattle.command_laws.specs.First.{is_hardware};
ghost use Rattle.command_laws.specs.Worked.{work_cause, Works};

use answer_text::{summary_lines, tell_done, tell_refused};
use base_model::Items;
use document_model::Doc;
use engine_model::ApplyFault;
use host_core::{Host, Sink, Source};
use host_memory::MemoryHost;
use merge_model::MergeFault;
use net_model::Link;
use scenario::work;
use scenario_model::{Summary, WorkFault};
use std::alloc::Global;
use top_model::{Cause, Report};

// Of a change: a document that breaks a rule is refused, and all else is of memory.
fn change_cause(fault: &ApplyFault) -> Cause
    ensures { result ≡ work_cause (WorkFault.Apply fault.now) }
{
    match fault {
        ApplyFault::MergeRefused(refused) => Cause::MergeRefused(*refused),
        ApplyFault::Pending(_) | ApplyFault::HostFault(_) | ApplyFault::KernelRefused(_, _, _) => {
            Cause::OutOfMemory
        }
        ApplyFault::NotVerified(_, _) | ApplyFault::InDoubt | ApplyFault::Damaged(_) => {
            Cause::OutOfMemory
        }
        ApplyFault::HardwareDiffers(_) | ApplyFault::OutOfMemory => Cause::OutOfMemory,
    }
}

// Of a merge.
fn merge_cause(fault: &MergeFault) -> Cause
    ensures { result ≡ work_cause (WorkFault.Merge fault.now) }
{
    match fault {
        MergeFault::Refused(refused) => Cause::MergeRefused(*refused),
        MergeFault::OutOfMemory => Cause::OutOfMemory,
    }
}

// A merge may be refused. All other faults of a host in memory without fuses are of memory.
fn work_cause(fault: &WorkFault) -> Cause
    ensures { result ≡ work_cause fault.now }
{
    match fault {
        WorkFault::Apply(fault) => change_cause(fault),
        WorkFault::Merge(fault) => merge_cause(fault),
        WorkFault::Make(_) | WorkFault::Dump(_) | WorkFault::Back(_) | WorkFault::OutOfMemory => {
            Cause::OutOfMemory
        }
    }
}

// Works on a host in memory.
fn worked_on(
    alloc: Global,
    host: &mut MemoryHost,
    devices: &Items<Link>,
    first: &Doc,
    second: &Doc,
) -> Result<Summary, Cause>
    requires hardware { is_hardware devices.now ≡ true }
    requires first { is_document first.now ≡ true }
    requires second { is_document second.now ≡ true }
    ensures { Works devices.now first.now second.now result }
{
    match work(host, alloc, devices.items(), first, second) {
        Ok(summary) => Ok(summary),
        Err(fault) => Err(work_cause(&fault)),
    }
}

// Works on a host in memory of its own, which has no network.
fn worked(alloc: Global, devices: &Items<Link>, first: &Doc, second: &Doc) -> Result<Summary, Cause>
    requires hardware { is_hardware devices.now ≡ true }
    requires first { is_document first.now ≡ true }
    requires second { is_document second.now ≡ true }
    ensures { Works devices.now first.now second.now result }
{
    let mut host = MemoryHost::new(alloc, None, Vec::new(alloc), Vec::new(alloc));
    worked_on(alloc, &mut host, devices, first, second)
}

// Works on a workload on a host of its own, and tells what was counted.
pub(crate) fn generate_run<H: Host, S: Source, W: Sink>(
    alloc: Global,
    devices: &Items<Link>,
    first: &Doc,
    second: &Doc,
    out: &mut W,
    err: &mut W,
) -> Report
    requires hardware { is_hardware devices.now ≡ true }
    requires first { is_document first.now ≡ true }
    requires second { is_document second.now ≡ true }
    ensures { (now : ℕ) (host : H) → Carried H.Host S.Source W.Sink (generating devices.now first.now second.now) now
        host host out.old out.new err.old err.new result }
{
    match worked(alloc, devices, first, second) {
        Ok(summary) => tell_done(b"", summary_lines(&summary).as_bytes(), out, err),
        Err(cause) => tell_refused(b"", cause, out, err),
    }
}
