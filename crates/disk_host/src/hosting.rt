//! What a host over a disk does.
ghost use Rattle.std.specs.Prelude.{◌≡◌, ◌≢◌, ◌⊎◌, ◌≤◌, ◌<◌, ◌+◌, ◌^◌, ℕ, length, true, None, Some, IfOk, OnOk, OnErr, IsErrOf, IsSome};
ghost use Rattle.host_core.specs.Faults.{HasFault};
ghost use Rattle.host_core.specs.Stops.{Steps, Stays};
ghost use Rattle.host_core.specs.DiskView.{DiskView};
ghost use Rattle.host_core.specs.HostView.{Accepts, Refuses, MaybeCalled, SameCell, IsFirst, IsMade, MaybeMade, counted, refused};
ghost use Rattle.disk_host.specs.Over.{IsOver};
ghost use Rattle.disk_host.specs.Told.{told_of, kernel_area};
ghost use Rattle.disk_host.specs.Writes.{Writes, IsMadeOf};

use crate::changing::{Missed, change};
use crate::host::DiskHost;
use crate::making::establish;
use crate::read::{SlotFault, read_synced};
use host_core::{CallFault, Disk, DumpFault, Failed, Host, MakeFault, raised};
use net_core::Net;
use net_model::Call;
use std::alloc::Global;

impl<D: Disk> DiskHost<D> {
    /// A host over this disk. It isn't settled; nothing was called and nothing failed.
    pub fn new(disk: D) -> DiskHost<D>
        ensures over { IsOver (D.told disk) (⟦<DiskHost<D> as Host>⟧.told result) }
        ensures area { kernel_area D.Disk result ≡ (D.told disk).areas.kernel }
        ensures unsettled { (⟦<DiskHost<D> as Host>⟧.told result).settled → ⊥ }
        ensures fresh { (⟦<DiskHost<D> as Host>⟧.told result).fresh ≡ None }
        ensures faults { (⟦<DiskHost<D> as Host>⟧.told result).faults ≡ (D.told disk).faults }
        ensures calls { (⟦<DiskHost<D> as Host>⟧.told result).kernel.calls ≡ 0 }
        ensures refusals { (⟦<DiskHost<D> as Host>⟧.told result).kernel.refusals ≡ 0 }
    {
        DiskHost {
            disk,
            kept: None,
            settled: false,
            fresh: false,
            faults: 0,
            calls: 0,
            refusals: 0,
            last_refusal: 0,
            last_call: 0,
        }
    }

    /// The disk, of which a stop leaves, then and since each earlier moment, what the host told through it. It takes no
    /// memory.
    pub fn into_disk(self) -> D
        ensures over { IsOver (D.told result) (⟦<DiskHost<D> as Host>⟧.told self) }
        ensures area { (D.told result).areas.kernel ≡ kernel_area D.Disk self }
        ensures faults { (D.told result).faults ≤ (⟦<DiskHost<D> as Host>⟧.told self).faults }
        // Over a disk that tells its content the host has no fault of its own.
        ensures none_own { D.tells → (D.told result).faults ≡ (⟦<DiskHost<D> as Host>⟧.told self).faults }
    {
        let DiskHost { disk, .. } = self;
        disk
    }
}

impl<D: Disk> Host for DiskHost<D> {
    ghost use Rattle.disk_host.specs.Told.{told_of, lawful_host};

    ghost tells = { D.tells };

    ghost honest = { D.tells };

    ghost told = { told_of D.Disk };

    ghost honest_tells = { λ honest. honest };

    ghost lawful = { lawful_host D.Disk.own D.lawful };

    fn make(&mut self, alloc: Global, first: &Net) -> Result<(), MakeFault>
        requires { IsFirst first.now }
        ensures exists { D.tells → IsErrOf result MakeFault.Exists → IsSome (told_of D.Disk self.old).state.net }
        ensures met { D.tells → OnOk result ((told_of D.Disk self.old).state.net ≡ None) }
        ensures made { D.tells → OnOk result (IsMade first.now (told_of D.Disk self.old).state (told_of D.Disk self.new)) }
        ensures stays { D.tells → IsSome (told_of D.Disk self.old).state.net
            → Steps Stays (told_of D.Disk self.old).stops (told_of D.Disk self.new).stops
            × ((told_of D.Disk self.new).state ≡ (told_of D.Disk self.old).state) }
        ensures same { D.tells → IsErrOf result MakeFault.OutOfMemory
            → Steps Stays (told_of D.Disk self.old).stops (told_of D.Disk self.new).stops
            × ((told_of D.Disk self.new).state ≡ (told_of D.Disk self.old).state) }
        ensures maybe { D.tells → MaybeMade first.now (told_of D.Disk self.old).state (told_of D.Disk self.new).state }
        ensures stops { D.tells → Steps (MaybeMade first.now) (told_of D.Disk self.old).stops (told_of D.Disk self.new).stops }
        ensures kernel { (told_of D.Disk self.new).kernel ≡ (told_of D.Disk self.old).kernel }
        ensures settled { (told_of D.Disk self.old).settled → (told_of D.Disk self.new).settled }
        ensures fresh { D.tells → (told_of D.Disk self.new).fresh ≡ None }
        ensures cause { HasFault (told_of D.Disk self.old).faults (told_of D.Disk self.new).faults MakeFault.Failed result }
        // The network stands in a slot with an empty journal, which a closed gate ends.
        ensures slot { OnOk result (D.tells → IsMadeOf first.now (kernel_area D.Disk self.new)) }
    {
        self.kept = None;
        self.fresh = false;
        establish(&mut self.disk, alloc, first)
    }

    fn dump(&mut self, alloc: Global) -> Result<Net, DumpFault> {
        self.kept = None;
        match read_synced(&mut self.disk, alloc) {
            Ok(kept) => {
                self.calls = 0;
                self.settled = true;
                self.fresh = true;
                let (net, kept) = kept.copied();
                self.kept = kept;
                Ok(net)
            }
            Err(SlotFault::Failed) => Err(DumpFault::Failed),
            Err(SlotFault::Damaged) => Err(DumpFault::Damaged),
            Err(SlotFault::OutOfMemory) => Err(DumpFault::OutOfMemory),
        }
    }

    fn call(&mut self, alloc: Global, call: &Call) -> Result<(), CallFault>
        requires { (told_of D.Disk self.old).settled }
        ensures accepted { D.tells → OnOk result (Accepts call.now (told_of D.Disk self.old).state.net (told_of D.Disk self.new).state.net) }
        ensures refused { D.tells → (k : ℕ) → IsErrOf result (CallFault.Refused k) → Refuses call.now (told_of D.Disk self.old).state.net k }
        ensures maybe { D.tells → MaybeCalled call.now (told_of D.Disk self.old).state (told_of D.Disk self.new).state }
        ensures cell { D.tells → SameCell (told_of D.Disk self.old).state (told_of D.Disk self.new).state }
        ensures stops { D.tells → Steps (MaybeCalled call.now) (told_of D.Disk self.old).stops (told_of D.Disk self.new).stops }
        ensures stops_cell { Steps SameCell (told_of D.Disk self.old).stops (told_of D.Disk self.new).stops }
        ensures settled { result ≢ Err CallFault.Failed → (told_of D.Disk self.new).settled }
        ensures doubt { result ≡ Err CallFault.Failed → (told_of D.Disk self.new).settled → ⊥ }
        ensures same { (k : ℕ) → IsErrOf result (CallFault.Refused k) ⊎ IsErrOf result CallFault.OutOfMemory
            → (D.tells → (told_of D.Disk self.new).state ≡ (told_of D.Disk self.old).state)
            × Steps Stays (told_of D.Disk self.old).stops (told_of D.Disk self.new).stops }
        ensures fresh { D.tells → (told_of D.Disk self.new).fresh ≡ None }
        ensures counts { (k : ℕ) → IsErrOf result (CallFault.Refused k) → (told_of D.Disk self.new).kernel ≡ refused k (told_of D.Disk self.old).kernel }
        ensures counted { ((k : ℕ) → IsErrOf result (CallFault.Refused k) → ⊥) → (told_of D.Disk self.new).kernel ≡ counted (told_of D.Disk self.old).kernel }
        ensures cause { HasFault (told_of D.Disk self.old).faults (told_of D.Disk self.new).faults CallFault.Failed result }
        // The record is appended where there is room for it, else the network is folded; it reads back, and every other
        // byte that was there stays.
        ensures writes { OnOk result (D.tells → Writes call.now (kernel_area D.Disk self.old) (kernel_area D.Disk self.new)) }
    {
        self.calls = raised(self.calls);
        self.fresh = false;
        self.settled = false;
        match change(&mut self.disk, alloc, &mut self.kept, call) {
            Ok(()) => {
                self.settled = true;
                Ok(())
            }
            Err(Missed::Refused(k)) => {
                self.refusals = raised(self.refusals);
                self.last_refusal = k;
                self.last_call = self.calls;
                self.settled = true;
                Err(CallFault::Refused(k))
            }
            Err(Missed::Failed) => Err(CallFault::Failed),
            Err(Missed::Damaged) => {
                self.faults = raised(self.faults);
                Err(CallFault::Failed)
            }
            Err(Missed::OutOfMemory) => {
                self.settled = true;
                Err(CallFault::OutOfMemory)
            }
        }
    }

    fn cell_read(&mut self, at: u64, buf: &mut [u8]) -> Result<u64, Failed> {
        self.disk.read_at(1, at, buf)
    }

    fn cell_write(&mut self, at: u64, bytes: &[u8]) -> Result<(), Failed> {
        self.disk.write_at(1, at, bytes)
    }

    fn cell_sync(&mut self) -> Result<(), Failed> {
        self.disk.sync(1)
    }

    // What was kept goes, since others may change the disk from then on.
    fn release(&mut self) {
        self.kept = None;
        self.disk.release();
    }
}
