//! A run over a host.
ghost use Rattle.std.specs.Prelude.{◌≡◌, ◌≤◌, true, None};
ghost use Rattle.document_model.specs.Entries.{is_document};
ghost use Rattle.host_core.specs.Faults.{Rose};
ghost use Rattle.scenario_model.specs.Asking.{is_hardware};
ghost use Rattle.scenario_model.specs.Saying.{WorkSays};
ghost use Rattle.scenario_model.specs.Answering.{WorkAnswers, IsCalm};

use crate::making::make_first;
use crate::running::run;
use document_model::Doc;
use host_core::Host;
use net_model::Link;
use scenario_model::{Summary, WorkFault};
use std::alloc::Global;

/// Makes the host's first network of these devices, makes and takes back the change of the first document, and then makes
/// the changes of both documents one after the other. Answers what is counted of the last network and of the plans. The
/// links are as a hardware list gives them, and the documents are as the readers give them.
pub fn work<H: Host>(
    host: &mut H,
    alloc: Global,
    hardware: &Vec<Link>,
    first: &Doc,
    second: &Doc,
) -> Result<Summary, WorkFault>
    requires hardware { is_hardware hardware.now.items ≡ true }
    requires first { is_document first.now ≡ true }
    requires second { is_document second.now ≡ true }
    // On every host each fault is that of its call.
    ensures says { WorkSays H.tells first.now second.now (H.told host.old) (H.told host.new) result }
    // On an honest host the last network is what the documents make of the devices, the second of what the first makes, and
    // the summary is of it and of plans from network to network; a merge is refused exactly so.
    ensures answer { H.honest → WorkAnswers hardware.now.items first.now second.now (H.told host.old) (H.told host.new) result }
    // Where there was no network and no fault came: done, or refused by a merge, or out of memory.
    ensures calm { H.honest → (H.told host.old).state.net ≡ None → (Rose (H.told host.old).faults (H.told host.new).faults → ⊥) → IsCalm result }
    ensures later { (H.told host.old).faults ≤ (H.told host.new).faults }
{
    match make_first(host, alloc, hardware) {
        Ok(()) => run(host, alloc, first, second),
        Err(fault) => Err(fault),
    }
}
