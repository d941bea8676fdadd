//! A disk in memory.
ghost use Rattle.std.specs.Prelude.{◌≡◌, ◌⊎◌, ◌<◌, ◌≤◌, ◌^◌, ◌+◌, ◌++◌, ◌∷◌, [], ◌↔◌, length, reverse, IsTrue, IsFalse, IsSome, IsErr, IfOk, OnOk, OnErr};
ghost use Rattle.host_core.specs.Bytes.{Torn, Written, Filled};
ghost use Rattle.host_core.specs.DiskView.{Areas, AreaTorn, HasArea, Untouched, area_of};
ghost use Rattle.host_core.specs.Faults.{HasCause};
ghost use Rattle.host_core.specs.Stops.{Steps, Keeps};
ghost use Rattle.host_memory.specs.Fused.{IsFresh};
ghost use Rattle.case_outside.specs.DiskRecord.{IsConsistent, IsConsistent-prop, IsRecorded, IsAsBefore, IsSyncTried};

use base_model::OutOfMemory;
use host_core::{Area, Disk, Failed};
use host_memory::{Fuse, Fuses, Touches, counted, fill, is_carried_out, rewritten, stopped};
use std::alloc::{AllocError, Global};

/// What was done to a disk, and what was there before it.
pub enum DiskEvent {
    Wrote {
        area: u8,
        at: u64,
        len: u64,
        before: Vec<u8>,
    },
    Synced(u8),
    FailedSync,
}

// By hand, so that a proof sees one call where one is dropped, and not a step for each part.
impl Drop for DiskEvent {
    fn drop(self) {
        match self {
            DiskEvent::Wrote {
                area: _,
                at: _,
                len: _,
                before: _,
            }
            | DiskEvent::Synced(_)
            | DiskEvent::FailedSync => {}
        }
    }
}

impl Touches for DiskEvent {
    ghost use Rattle.case_outside.specs.DiskStopped.{touch_of};

    ghost touch = { touch_of };

    fn before(&self, area: u8) -> Option<&[u8]> {
        match self {
            DiskEvent::Wrote {
                area: written,
                before,
                ..
            } if *written == area => Some(before),
            _ => None,
        }
    }

    fn range(&self, area: u8) -> Option<(u64, u64)> {
        match self {
            DiskEvent::Wrote {
                area: written,
                at,
                len,
                ..
            } if *written == area => Some((*at, *len)),
            _ => None,
        }
    }

    fn syncs(&self, area: u8) -> bool {
        match self {
            DiskEvent::Synced(synced) => *synced == area,
            DiskEvent::Wrote { .. } | DiskEvent::FailedSync => false,
        }
    }
}

/// A disk whose areas stand in memory. It keeps a record of its writes and syncs, and fails at the calls that its fuses
/// name. Memory that is refused in a write or a sync is a fault of it; without fuses there is no other.
pub struct MemoryDisk {
    alloc: Global,
    kernel: Vec<u8>,
    cell: Vec<u8>,
    events: Vec<DiskEvent>,
    fuses: Fuses,
    faults: u64,
    ghost consistent: { IsConsistent (record { kernel = kernel.items; cell = cell.items }) (reverse events.items) } by { IsConsistent-prop (record { kernel = kernel.items; cell = cell.items }) (reverse events.items) },
}

// By hand, so that a proof sees one call where one is dropped, and not a step for each part.
impl Drop for MemoryDisk {
    fn drop(self) {
        let MemoryDisk {
            alloc: _,
            kernel: _,
            cell: _,
            events: _,
            fuses: _,
            faults: _,
        } = self;
    }
}

impl MemoryDisk {
    ghost use Rattle.case_outside.specs.DiskMemory.{IsUnfused};
    ghost use Rattle.case_outside.specs.DiskPicked.{areas_stopped, stops_then};

    /// A disk with these bytes in its areas, of which none is in doubt, at which nothing was called; the calls that its fuses
    /// name are to fail.
    pub fn new(alloc: Global, kernel: Vec<u8>, cell: Vec<u8>, fuses: Vec<Fuse>) -> MemoryDisk
        ensures areas { (⟦<MemoryDisk as Disk>⟧.told result).areas ≡ record { kernel = kernel.items; cell = cell.items } }
        ensures sure { (s : Areas) → (⟦<MemoryDisk as Disk>⟧.told result).stops.may_leave s → s ≡ (⟦<MemoryDisk as Disk>⟧.told result).areas }
        ensures faults { (⟦<MemoryDisk as Disk>⟧.told result).faults ≡ 0 }
        ensures moment { (⟦<MemoryDisk as Disk>⟧.told result).stops.moment ≡ 0 }
        ensures unfused { fuses.items ≡ [] → IsUnfused result }
        ensures fresh { IsFresh fuses.items result.fuses }
    {
        MemoryDisk {
            alloc,
            kernel,
            cell,
            events: Vec::new(alloc),
            fuses: Fuses::new(fuses),
            faults: 0,
        }
    }

    /// The bytes of an area, as they read.
    pub fn area(&self, area: u8) -> &Vec<u8>
        requires { area < 2 }
        ensures { result.now.items ≡ area_of area (⟦<MemoryDisk as Disk>⟧.told self.now).areas }
    {
        if area == Area::Kernel.number() {
            &self.kernel
        } else {
            &self.cell
        }
    }

    /// How many writes and syncs it has recorded, which is the moment. Each is one, also where it answers `Failed`, unless
    /// memory is refused; a read is none.
    pub fn calls(&self) -> u64
        ensures { result ≡ (⟦<MemoryDisk as Disk>⟧.told self.now).stops.moment }
    {
        self.events.len() as u64
    }

    /// The disk after a stop behind so many writes and syncs, with nothing in doubt and no call that is to fail. The pick
    /// says which of what may be left: 0 the bytes of each area's last sync, 1 the bytes as they read then, 2 these with
    /// each byte 7 in a range that was written since, 3 the same in the second half of each range.
    pub fn stopped(&self, alloc: Global, after: u64, pick: u8) -> Result<MemoryDisk, OutOfMemory>
        requires after { after ≤ (⟦<MemoryDisk as Disk>⟧.told self.now).stops.moment }
        requires pick { pick < 4 }
        ensures areas { IfOk result (λ disk. (⟦<MemoryDisk as Disk>⟧.told disk).areas ≡ areas_stopped after pick self.now) }
        // A stop at that moment may leave these, and so might one since.
        ensures may_leave { IfOk result (λ disk. (stops_then after self.now).may_leave (⟦<MemoryDisk as Disk>⟧.told disk).areas) }
        ensures since { IfOk result (λ disk. (⟦<MemoryDisk as Disk>⟧.told self.now).stops.left_since after (⟦<MemoryDisk as Disk>⟧.told disk).areas) }
        ensures sure { IfOk result (λ disk. (s : Areas) → (⟦<MemoryDisk as Disk>⟧.told disk).stops.may_leave s → s ≡ (⟦<MemoryDisk as Disk>⟧.told disk).areas) }
        ensures faults { IfOk result (λ disk. (⟦<MemoryDisk as Disk>⟧.told disk).faults ≡ 0) }
        ensures unfused { IfOk result IsUnfused }
    {
        let kernel = stopped(alloc, &self.events, 0, &self.kernel, after, pick)?;
        let cell = stopped(alloc, &self.events, 1, &self.cell, after, pick)?;
        Ok(MemoryDisk::new(alloc, kernel, cell, Vec::new(alloc)))
    }
}

// Puts other bytes in the place of those that are there, and records a write.
fn replace(
    alloc: Global,
    held: &mut Vec<u8>,
    events: &mut Vec<DiskEvent>,
    area: u8,
    at: u64,
    len: u64,
    next: Vec<u8>,
) -> Result<(), AllocError>
    ensures held { OnOk result (held.new.items ≡ next.items) }
    ensures record { OnOk result (IsRecorded area at len held.old.items events.old.items events.new.items) }
    ensures same { OnErr result (IsAsBefore held.old.items held.new.items events.old.items events.new.items) }
{
    events.push(DiskEvent::Wrote {
        area,
        at,
        len,
        before: held.to_vec(alloc)?,
    })?;
    *held = next;
    Ok(())
}

// Writes and records the write, and answers whether the call succeeds. One that the fuse leaves undone is recorded too.
fn write(
    alloc: Global,
    held: &mut Vec<u8>,
    events: &mut Vec<DiskEvent>,
    area: u8,
    at: u64,
    bytes: &[u8],
    fuse: Option<Fuse>,
) -> bool
    requires { at + length bytes.now < 2 ^ 63 }
    ensures written { IsTrue result → Written at bytes.now held.old.items held.new.items }
    ensures torn { Torn at (length bytes.now) held.old.items held.new.items }
    ensures recorded { IsTrue result → IsRecorded area at (length bytes.now) held.old.items events.old.items events.new.items }
    ensures record { IsRecorded area at (length bytes.now) held.old.items events.old.items events.new.items
        ⊎ IsAsBefore held.old.items held.new.items events.old.items events.new.items }
    ensures fused { IsSome fuse → IsFalse result }
{
    let is_done = is_carried_out(fuse);
    let Ok(next) = rewritten(alloc, held, at, bytes, is_done) else {
        return false;
    };
    if replace(alloc, held, events, area, at, bytes.len() as u64, next).is_err() {
        return false;
    }
    fuse.is_none()
}

impl Disk for MemoryDisk {
    ghost use Rattle.host_memory.specs.Fused.{IsCounted, IsEvent, IsFused};
    ghost use Rattle.case_outside.specs.DiskMemory.{IsUnfused, disk_told, lawful_disk};

    ghost tells = { Unit {0} };

    ghost told = { disk_told };

    ghost lawful = { lawful_disk };

    fn size(&mut self, area: u8) -> Result<u64, Failed>
        requires { area < 2 }
        ensures size { IfOk result (λ n. n ≡ length (area_of area (disk_told self.old).areas)) }
        ensures untouched { Untouched (Unit {0}) (disk_told self.old) (disk_told self.new) }
        ensures no_event { (disk_told self.new).stops.moment ≡ (disk_told self.old).stops.moment }
        ensures cause { HasCause (disk_told self.old).faults (disk_told self.new).faults result }
        ensures unfused { IsUnfused self.old → IsUnfused self.new }
        ensures quiet { IsUnfused self.old → (disk_told self.new).faults ≡ (disk_told self.old).faults }
        ensures fused { IsFused self.old.fuses ↔ IsErr result }
        ensures numbered { IsCounted self.old.fuses self.new.fuses }
    {
        let is_done = self.fuses.next().is_none();
        counted(&mut self.faults, is_done)?;
        Ok(self.area(area).len() as u64)
    }

    fn read_at(&mut self, area: u8, at: u64, buf: &mut [u8]) -> Result<u64, Failed>
        requires area { area < 2 }
        requires end { at + length buf.old < 2 ^ 63 }
        ensures filled { IfOk result (λ n. Filled at (area_of area (disk_told self.old).areas) buf.old buf.new n) }
        ensures untouched { Untouched (Unit {0}) (disk_told self.old) (disk_told self.new) }
        ensures no_event { (disk_told self.new).stops.moment ≡ (disk_told self.old).stops.moment }
        ensures cause { HasCause (disk_told self.old).faults (disk_told self.new).faults result }
        ensures unfused { IsUnfused self.old → IsUnfused self.new }
        ensures quiet { IsUnfused self.old → (disk_told self.new).faults ≡ (disk_told self.old).faults }
        ensures fused { IsFused self.old.fuses ↔ IsErr result }
        ensures numbered { IsCounted self.old.fuses self.new.fuses }
    {
        let is_done = self.fuses.next().is_none();
        counted(&mut self.faults, is_done)?;
        Ok(fill(self.area(area), at, buf))
    }

    fn write_at(&mut self, area: u8, at: u64, bytes: &[u8]) -> Result<(), Failed>
        requires area { area < 2 }
        requires end { at + length bytes.now < 2 ^ 63 }
        ensures written { OnOk result (Written at bytes.now (area_of area (disk_told self.old).areas) (area_of area (disk_told self.new).areas)) }
        ensures torn { AreaTorn area at (length bytes.now) (disk_told self.old).areas (disk_told self.new).areas }
        ensures stops { Steps (AreaTorn area at (length bytes.now)) (disk_told self.old).stops (disk_told self.new).stops }
        ensures event { IsEvent result (disk_told self.old).stops (disk_told self.new).stops }
        ensures cause { HasCause (disk_told self.old).faults (disk_told self.new).faults result }
        ensures unfused { IsUnfused self.old → IsUnfused self.new }
        ensures quiet { IsUnfused self.old → OnOk result ((disk_told self.new).faults ≡ (disk_told self.old).faults) }
        ensures fused { IsFused self.old.fuses → IsErr result }
        ensures numbered { IsCounted self.old.fuses self.new.fuses }
    {
        let fuse = self.fuses.next();
        if area == Area::Kernel.number() {
            let is_done = write(
                self.alloc,
                &mut self.kernel,
                &mut self.events,
                area,
                at,
                bytes,
                fuse,
            );
            counted(&mut self.faults, is_done)
        } else {
            let is_done = write(
                self.alloc,
                &mut self.cell,
                &mut self.events,
                area,
                at,
                bytes,
                fuse,
            );
            counted(&mut self.faults, is_done)
        }
    }

    fn sync(&mut self, area: u8) -> Result<(), Failed>
        requires { area < 2 }
        ensures durable { OnOk result (HasArea area (area_of area (disk_told self.old).areas) (disk_told self.new)) }
        ensures untouched { Untouched (Unit {0}) (disk_told self.old) (disk_told self.new) }
        ensures kept { OnErr result (Keeps (disk_told self.old).stops (disk_told self.new).stops) }
        ensures event { IsEvent result (disk_told self.old).stops (disk_told self.new).stops }
        ensures cause { HasCause (disk_told self.old).faults (disk_told self.new).faults result }
        ensures unfused { IsUnfused self.old → IsUnfused self.new }
        ensures quiet { IsUnfused self.old → OnOk result ((disk_told self.new).faults ≡ (disk_told self.old).faults) }
        ensures fused { IsFused self.old.fuses → IsErr result }
        ensures numbered { IsCounted self.old.fuses self.new.fuses }
    {
        let fuse = self.fuses.next();
        let is_done = sync(&mut self.events, area, fuse);
        counted(&mut self.faults, is_done)
    }

    fn release(&mut self)
        ensures untouched { Untouched (Unit {0}) (disk_told self.old) (disk_told self.new) }
        ensures faults { (disk_told self.new).faults ≡ (disk_told self.old).faults }
        ensures same { self.new ≡ self.old }
    {}
}

// Records a sync, and answers whether it succeeds. One that fails leaves what a stop may leave as it was, also where its
// fuse lets it be done.
fn sync(events: &mut Vec<DiskEvent>, area: u8, fuse: Option<Fuse>) -> bool
    ensures record { IsSyncTried area result events.old.items events.new.items }
    ensures fused { IsSome fuse → IsFalse result }
{
    if fuse.is_some() {
        let _ = events.push(DiskEvent::FailedSync);
        return false;
    }
    events.push(DiskEvent::Synced(area)).is_ok()
}
