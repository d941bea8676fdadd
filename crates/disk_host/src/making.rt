//! The making of a first network on a disk.
ghost use Rattle.std.specs.Prelude.{◌≡◌, ◌≢◌, ◌≤◌, ◌==◌, length, get_or, not, false, None, Some, IfOk, OnOk};
ghost use Rattle.host_core.specs.Faults.{HasCause};
ghost use Rattle.host_core.specs.Stops.{Steps};
ghost use Rattle.host_core.specs.DiskView.{DiskView, HasArea, Untouched};
ghost use Rattle.net_image.specs.Image.{net_of};
ghost use Rattle.call_journal.specs.Area.{is_first, selects, kernel_net, new_slot};
ghost use Rattle.disk_host.specs.Slots.{KeepsKernel, HasNone, MaybeClosed, IsShut, AreasMade, IsApart};
ghost use Rattle.disk_host.specs.Writes.{IsMadeSlot};
ghost use Rattle.disk_host.specs.Established.{Establishes};

use crate::changing::image_and_slot;
use crate::read::{SlotFault, read_synced, selected};
use crate::slot::{SECOND, store, write_synced};
use host_core::{Disk, Failed, MakeFault};
use net_core::Net;
use std::alloc::Global;

// Whether the gate of the checkpoint area is open, or the area is empty.
fn is_open<D: Disk>(disk: &mut D) -> Result<bool, Failed>
    ensures opens { D.tells → IfOk result (λ opens. opens ≡ (get_or (D.told disk.old).areas.cell 0 1 == 1)) }
    ensures untouched { Untouched D.tells (D.told disk.old) (D.told disk.new) }
    ensures cause { HasCause (D.told disk.old).faults (D.told disk.new).faults result }
{
    let mut gate = [1; 1];
    disk.read_at(1, 0, &mut gate)?;
    Ok(gate[0] == 1)
}

/// Closes the gate of the checkpoint area, where it is open or the area is empty.
fn close<D: Disk>(disk: &mut D) -> Result<(), Failed>
    requires { D.tells → HasArea 1 (D.told disk.old).areas.cell (D.told disk.old) }
    ensures closed { OnOk result (D.tells → (get_or (D.told disk.new).areas.cell 0 1 ≢ 1) × HasArea 1 (D.told disk.new).areas.cell (D.told disk.new)) }
    // A gate that was closed isn't written, and the bytes behind it never are.
    ensures shut { OnOk result (D.tells → IsShut (D.told disk.old).areas.cell (D.told disk.new).areas.cell) }
    ensures kernel { D.tells → (D.told disk.new).areas.kernel ≡ (D.told disk.old).areas.kernel }
    ensures maybe { D.tells → MaybeClosed (D.told disk.old).areas (D.told disk.new).areas }
    ensures stops { D.tells → Steps MaybeClosed (D.told disk.old).stops (D.told disk.new).stops }
    ensures stops_kernel { Steps KeepsKernel (D.told disk.old).stops (D.told disk.new).stops }
    ensures cause { HasCause (D.told disk.old).faults (D.told disk.new).faults result }
{
    let opens = is_open(disk)?;
    if opens {
        return write_synced(disk, 1, 0, &[0]);
    }
    Ok(())
}

/// Whether the slot to write, which isn't selected, is the second. Where that would lie past the end, it is selected first,
/// so that the first slot is written.
fn free_slot<D: Disk>(disk: &mut D) -> Result<bool, Failed>
    requires sure { D.tells → HasArea 0 (D.told disk.old).areas.kernel (D.told disk.old) }
    requires none { D.tells → kernel_net (D.told disk.old).areas.kernel ≡ None }
    ensures free { D.tells → IfOk result (λ second. (selects (D.told disk.new).areas.kernel ≡ not second)
        × IsApart second (D.told disk.new).areas.kernel
        × HasArea 0 (D.told disk.new).areas.kernel (D.told disk.new)) }
    ensures none { D.tells → HasNone (D.told disk.old).areas (D.told disk.new).areas }
    ensures stops { D.tells → Steps HasNone (D.told disk.old).stops (D.told disk.new).stops }
    ensures cause { HasCause (D.told disk.old).faults (D.told disk.new).faults result }
{
    let size = disk.size(0)?;
    let second = selected(disk)?;
    if !second && size <= SECOND {
        write_synced(disk, 0, 0, &[1])?;
        return Ok(false);
    }
    Ok(!second)
}

/// Closes the checkpoint, and stores an image where no network is.
fn fill<D: Disk>(disk: &mut D, first: &Net, image: &[u8], slot: &[u8]) -> Result<(), Failed>
    requires small { length image.now ≤ 864508 }
    requires image { net_of image.now ≡ Some first.now }
    requires latest { is_first image.now ≡ false }
    requires slot { slot.now ≡ new_slot image.now }
    requires sure { D.tells → HasArea 0 (D.told disk.old).areas.kernel (D.told disk.old) }
    requires cell { D.tells → HasArea 1 (D.told disk.old).areas.cell (D.told disk.old) }
    requires none { D.tells → kernel_net (D.told disk.old).areas.kernel ≡ None }
    ensures net { OnOk result (D.tells → (kernel_net (D.told disk.new).areas.kernel ≡ Some first.now)
        × HasArea 0 (D.told disk.new).areas.kernel (D.told disk.new)) }
    ensures made { OnOk result (D.tells → IsMadeSlot image.now (D.told disk.new).areas.kernel) }
    ensures cell { OnOk result (D.tells → (get_or (D.told disk.new).areas.cell 0 1 ≢ 1) × HasArea 1 (D.told disk.new).areas.cell (D.told disk.new)) }
    ensures shut { OnOk result (D.tells → IsShut (D.told disk.old).areas.cell (D.told disk.new).areas.cell) }
    ensures maybe { D.tells → AreasMade first.now (D.told disk.old).areas (D.told disk.new).areas }
    ensures stops { D.tells → Steps (AreasMade first.now) (D.told disk.old).stops (D.told disk.new).stops }
    ensures cause { HasCause (D.told disk.old).faults (D.told disk.new).faults result }
{
    close(disk)?;
    let second = free_slot(disk)?;
    store(disk, second, first, image, slot)
}

/// Where there is no network, closes the checkpoint and then stores the first one.
pub fn establish<D: Disk>(disk: &mut D, alloc: Global, first: &Net) -> Result<(), MakeFault>
    ensures { Establishes D.tells first.now (D.told disk.old) (D.told disk.new) result }
{
    // Both areas are synced first, and all memory is taken before the first write.
    match disk.sync(1) {
        Ok(()) => {}
        Err(Failed) => return Err(MakeFault::Failed),
    }
    match read_synced(disk, alloc) {
        Ok(_) => return Err(MakeFault::Exists),
        Err(SlotFault::Damaged) => {}
        Err(SlotFault::Failed) => return Err(MakeFault::Failed),
        Err(SlotFault::OutOfMemory) => return Err(MakeFault::OutOfMemory),
    }
    let Ok((image, slot)) = image_and_slot(alloc, first) else {
        return Err(MakeFault::OutOfMemory);
    };
    match fill(disk, first, &image, &slot) {
        Ok(()) => Ok(()),
        Err(Failed) => Err(MakeFault::Failed),
    }
}
