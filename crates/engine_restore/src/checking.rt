//! A test of what is stored: whether the commands can work with it.
ghost use Rattle.std.specs.Prelude.{◌≡◌, ◌≢◌, ◌≤◌, [], None, Some, length, IfOk, OnOk};
ghost use Rattle.host_core.specs.Stops.{Steps, Stays};
ghost use Rattle.checkpoint_cell.specs.Settled.{standing};
ghost use Rattle.engine_model.specs.Refusals.{NoCallMade};
ghost use Rattle.engine_model.specs.Sound.{Sound, WhereSound};
ghost use Rattle.engine_model.specs.Stations.{entry_of, left_by};
ghost use Rattle.engine_model.specs.Checks.{check, saved_in, differing_from, SameHardware, Compared, CheckAnswers, CheckSays, CheckExit};

use crate::devices::differing;
use base_model::{Items, OutOfMemory};
use checkpoint_cell::{CellFault, Pending, Seen, barrier, load};
use engine_model::{CheckFault, Checked};
use host_core::{Area, DumpFault, Failed, Host};
use net_core::Net;
use net_model::Name;
use std::alloc::Global;

// How many links there are.
fn link_count(net: &Net) -> u32
    ensures { result ≡ length net.now.links }
{
    net.laws();
    net.links().len() as u32
}

// The devices on which the saved network, if there is one, and this one differ.
fn differing_from(
    alloc: Global,
    pending: &Option<Pending>,
    found: &Net,
) -> Result<Items<Name>, OutOfMemory>
    ensures names { IfOk result (λ names. differing_from (saved_in pending.now) found.now ≡ names) }
    ensures same { IfOk result (λ names. names ≡ [] → SameHardware (saved_in pending.now) found.now) }
{
    match pending {
        Some(pending) => {
            pending.net.laws();
            found.laws();
            differing(alloc, &pending.net, found)
        }
        None => Ok(Items::of(Vec::new(alloc))),
    }
}

// What the comparison of the network that was found with what was loaded answers.
fn compared(
    alloc: Global,
    seen: Seen,
    pending: &Option<Pending>,
    found: &Net,
) -> Result<Checked, CheckFault>
    ensures compared { Compared seen (differing_from (saved_in pending.now) found.now) (length found.now.links) result }
    ensures same { OnOk result (SameHardware (saved_in pending.now) found.now) }
{
    match differing_from(alloc, pending, found) {
        Ok(names) => {
            if !names.items().is_empty() {
                return Err(CheckFault::HardwareDiffers(names));
            }
            Ok(Checked {
                links: link_count(found),
                cell: seen,
            })
        }
        Err(OutOfMemory) => Err(CheckFault::OutOfMemory),
    }
}

/// Says whether the commands can work with what is stored: how many links the network has and what the checkpoint is, or
/// why they can't. `Damaged(1)` comes where the checkpoint is open and has no whole image, then `Damaged(0)` where there is
/// no network, then `HardwareDiffers` where the checkpoint is of other devices; before each, `HostFault` where the host
/// failed, and `OutOfMemory`. Nothing is changed.
pub fn check<H: Host>(host: &mut H, alloc: Global) -> Result<Checked, CheckFault>
    // What is answered: on every host, and on an honest one.
    ensures says { CheckSays H.tells (H.told host.old) (H.told host.new) result }
    ensures answer { H.honest → CheckAnswers (check (standing (H.told host.old).state)) (H.told host.old) (H.told host.new) result }
    // Where it finds nothing amiss on an honest host, the host is sound, unless the checkpoint area is empty.
    ensures sound { H.honest → OnOk result ((H.told host.new).state.cell ≢ [] → Sound (H.told host.new)) }
    // Nothing is changed, at the end and at each moment.
    ensures state { H.tells → (H.told host.new).state ≡ (H.told host.old).state }
    ensures stops { Steps Stays (H.told host.old).stops (H.told host.new).stops }
    // What stops leave at the exit.
    ensures exit { WhereSound H.honest (H.told host.old) (CheckExit (entry_of (H.told host.old)) (left_by (H.told host.new)) result) }
    // No kernel call is made.
    ensures unmade { NoCallMade (H.told host.old).kernel (H.told host.new).kernel }
    ensures later { (H.told host.old).faults ≤ (H.told host.new).faults }
{
    let seen = match barrier(host) {
        Ok(seen) => seen,
        Err(Failed) => return Err(CheckFault::HostFault),
    };
    let pending = match load(host, alloc) {
        Ok(pending) => pending,
        Err(CellFault::Failed) => return Err(CheckFault::HostFault),
        Err(CellFault::Damaged) => return Err(CheckFault::Damaged(Area::Checkpoint.number())),
        Err(CellFault::OutOfMemory) => return Err(CheckFault::OutOfMemory),
    };
    let found = match host.dump(alloc) {
        Ok(found) => found,
        Err(DumpFault::Failed) => return Err(CheckFault::HostFault),
        Err(DumpFault::Damaged) => return Err(CheckFault::Damaged(Area::Kernel.number())),
        Err(DumpFault::OutOfMemory) => return Err(CheckFault::OutOfMemory),
    };
    found.laws();
    compared(alloc, seen, &pending, &found)
}
