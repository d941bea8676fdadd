//! A host in memory.
ghost use Rattle.std.specs.Prelude.{◌≡◌, ◌≢◌, ◌⊎◌, ◌↔◌, ◌<◌, ◌≤◌, ◌+◌, ◌^◌, ℕ, [], ◌∷◌, length, get_or, map, reverse, None, Some, false, IfOk, OnOk, OnErr, IsErr, IsErrOf, IsSome, option_map};
ghost use Rattle.host_core.specs.Bytes.{Torn, Written, Filled};
ghost use Rattle.host_core.specs.Faults.{HasCause, HasFault, one_more};
ghost use Rattle.host_core.specs.HostView.{State, HasCell, Accepts, Refuses, MaybeCalled, SameCell, SameKernel, Untouched, CellTorn, IsFirst, IsMade, MaybeMade, counted, refused, dumped};
ghost use Rattle.host_core.specs.Stops.{Steps, Stays, Keeps};
ghost use Rattle.host_memory.specs.HostRecord.{IsClosing};
ghost use Rattle.host_memory.specs.HostMakes.{Makes, IsUnmade};
ghost use Rattle.host_memory.specs.HostStopped.{touch_of};
ghost use Rattle.host_memory.specs.Touches.{IsTouched, IsTouched-prop};

use crate::bytes::{fill, rewritten};
use crate::fuse::{Fuse, Fuses, counted, is_carried_out};
use crate::record::{HostEvent, called, net_before, sync, write};
use crate::touch::stopped;
use base_model::OutOfMemory;
use host_core::{CallFault, DumpFault, Failed, Host, MakeFault, raised};
use kernel_step::StepFault;
use net_core::Net;
use net_model::Call;
use std::alloc::{AllocError, Global};

/// A host whose network and checkpoint area stand in memory. It keeps a record of what was done to it, and fails at the
/// calls that its fuses name. Memory that is refused in a write or a sync of the checkpoint area is a fault of it; without
/// fuses there is no other.
pub struct MemoryHost {
    alloc: Global,
    net: Option<Net>,
    cell: Vec<u8>,
    events: Vec<HostEvent>,
    fuses: Fuses,
    settled: bool,
    fresh: bool,
    faults: u64,
    calls: u64,
    refusals: u64,
    last_number: u8,
    last_call: u64,
    ghost consistent: { IsTouched cell.items (map (touch_of 0) (reverse events.items)) } by { IsTouched-prop cell.items (map (touch_of 0) (reverse events.items)) },
}

// By hand, so that a proof sees one call where one is dropped, and not a step for each part.
impl Drop for MemoryHost {
    fn drop(self) {
        let MemoryHost {
            alloc: _,
            net: _,
            cell: _,
            events: _,
            fuses: _,
            settled: _,
            fresh: _,
            faults: _,
            calls: _,
            refusals: _,
            last_number: _,
            last_call: _,
        } = self;
    }
}

impl MemoryHost {
    ghost use Rattle.host_memory.specs.Fused.{IsFresh};
    ghost use Rattle.host_memory.specs.HostMemory.{IsUnfused};
    ghost use Rattle.host_memory.specs.HostPicked.{state_stopped, stops_then};

    /// A host with this network, or none, and these bytes in its checkpoint area, of which none is in doubt. It isn't
    /// settled; nothing was called and nothing failed, and the calls that its fuses name are to fail.
    pub fn new(alloc: Global, net: Option<Net>, cell: Vec<u8>, fuses: Vec<Fuse>) -> MemoryHost
        ensures state { (⟦<MemoryHost as Host>⟧.told result).state ≡ record { net = net; cell = cell.items } }
        ensures sure { (s : State) → (⟦<MemoryHost as Host>⟧.told result).stops.may_leave s → s ≡ (⟦<MemoryHost as Host>⟧.told result).state }
        ensures unsettled { (⟦<MemoryHost as Host>⟧.told result).settled → ⊥ }
        ensures fresh { (⟦<MemoryHost as Host>⟧.told result).fresh ≡ None }
        ensures faults { (⟦<MemoryHost as Host>⟧.told result).faults ≡ 0 }
        ensures calls { (⟦<MemoryHost as Host>⟧.told result).kernel.calls ≡ 0 }
        ensures refusals { (⟦<MemoryHost as Host>⟧.told result).kernel.refusals ≡ 0 }
        ensures moment { (⟦<MemoryHost as Host>⟧.told result).stops.moment ≡ 0 }
        ensures unfused { fuses.items ≡ [] → IsUnfused result }
        ensures fused { IsFresh fuses.items result.fuses }
    {
        MemoryHost {
            alloc,
            net,
            cell,
            events: Vec::new(alloc),
            fuses: Fuses::new(fuses),
            settled: false,
            fresh: false,
            faults: 0,
            calls: 0,
            refusals: 0,
            last_number: 0,
            last_call: 0,
        }
    }

    /// The network that it has, if it has one.
    pub fn net(&self) -> Option<&Net>
        ensures { option_map (λ net. net.now) result ≡ (⟦<MemoryHost as Host>⟧.told self.now).state.net }
    {
        self.net.as_ref()
    }

    /// The bytes of its checkpoint area, as they read.
    pub fn cell(&self) -> &Vec<u8>
        ensures { result.now.items ≡ (⟦<MemoryHost as Host>⟧.told self.now).state.cell }
    {
        &self.cell
    }

    /// How many changes of its network, writes and syncs it has recorded, which is the moment. Each write and each sync is
    /// one, also where it answers `Failed`, unless memory is refused; a read and a dump are none.
    pub fn calls(&self) -> u64
        ensures { result ≡ (⟦<MemoryHost as Host>⟧.told self.now).stops.moment }
    {
        self.events.len() as u64
    }

    /// The host after a stop behind so many of these changes, writes and syncs, with the network of that moment, nothing in
    /// doubt and no call that is to fail. The pick says which of what may be left of the checkpoint area: 0 the bytes of
    /// its last sync, 1 the bytes as they read then, 2 these with each byte 7 in a range that was written since, 3 the
    /// same in the second half of each range.
    pub fn stopped(&self, alloc: Global, after: u64, pick: u8) -> Result<MemoryHost, OutOfMemory>
        requires after { after ≤ (⟦<MemoryHost as Host>⟧.told self.now).stops.moment }
        requires pick { pick < 4 }
        ensures state { IfOk result (λ host. (⟦<MemoryHost as Host>⟧.told host).state ≡ state_stopped after pick self.now) }
        // A stop at that moment may leave it, and so might one since.
        ensures may_leave { IfOk result (λ host. (stops_then after self.now).may_leave (⟦<MemoryHost as Host>⟧.told host).state) }
        ensures since { IfOk result (λ host. (⟦<MemoryHost as Host>⟧.told self.now).stops.left_since after (⟦<MemoryHost as Host>⟧.told host).state) }
        ensures sure { IfOk result (λ host. (s : State) → (⟦<MemoryHost as Host>⟧.told host).stops.may_leave s → s ≡ (⟦<MemoryHost as Host>⟧.told host).state) }
        ensures faults { IfOk result (λ host. (⟦<MemoryHost as Host>⟧.told host).faults ≡ 0) }
        ensures unfused { IfOk result IsUnfused }
    {
        let (net, cell) = self.left(alloc, after, pick)?;
        Ok(MemoryHost::new(alloc, net, cell, Vec::new(alloc)))
    }

    // The network and the bytes of the checkpoint area after such a stop.
    fn left(
        &self,
        alloc: Global,
        after: u64,
        pick: u8,
    ) -> Result<(Option<Net>, Vec<u8>), OutOfMemory>
        requires after { after ≤ (⟦<MemoryHost as Host>⟧.told self.now).stops.moment }
        requires pick { pick < 4 }
        ensures { IfOk result (λ left. state_stopped after pick self.now ≡ record { net = left.0; cell = left.1.items }) }
    {
        let cell = stopped(alloc, &self.events, 0, &self.cell, after, pick)?;
        let net = copied(net_before(&self.events[after as usize..], &self.net))?;
        Ok((net, cell))
    }

    /// Counts a kernel call that isn't made.
    pub fn pass_over(&mut self)
        ensures { self.new ≡ record self.old { calls = one_more self.old.calls; fresh = false } }
    {
        self.calls = raised(self.calls);
        self.fresh = false;
    }

    /// Counts a kernel call that is refused with this number, whatever the network says of it.
    pub fn refuse(&mut self, number: u8)
        ensures { self.new ≡ record self.old {
          calls = one_more self.old.calls;
          fresh = false;
          refusals = one_more self.old.refusals;
          last_number =
              number;
          last_call = one_more self.old.calls;
        } }
    {
        self.calls = raised(self.calls);
        self.fresh = false;
        self.refusals = raised(self.refusals);
        self.last_number = number;
        self.last_call = self.calls;
    }
}

fn copied(net: &Option<Net>) -> Result<Option<Net>, OutOfMemory>
    ensures { IfOk result (λ copy. copy ≡ net.now) }
{
    match net {
        Some(net) => Ok(Some(net.copy()?)),
        None => Ok(None),
    }
}

// The gate of these bytes, or an open one where there are none.
fn gate(cell: &[u8]) -> u8
    ensures { result ≡ get_or cell.now 0 1 }
{
    cell.first().copied().unwrap_or(1)
}

// The bytes with the gate closed and what closing it does: a sync and, where the gate is open or there is none, its
// write and another sync.
fn closing(alloc: Global, cell: &[u8]) -> Result<(Vec<u8>, Vec<HostEvent>), AllocError>
    ensures { IfOk result (λ both. IsClosing cell.now both.0.items both.1.items) }
{
    let mut events = Vec::new(alloc);
    events.push(HostEvent::Synced)?;
    if gate(cell) != 1 {
        return Ok((cell.to_vec(alloc)?, events));
    }
    let next = rewritten(alloc, cell, 0, &[0], true)?;
    events.push(HostEvent::Wrote {
        at: 0,
        len: 1,
        before: cell.to_vec(alloc)?,
    })?;
    events.push(HostEvent::Synced)?;
    Ok((next, events))
}

// Closes the checkpoint and stores the first network, and records it. All memory is taken first.
fn stored(
    alloc: Global,
    net: &mut Option<Net>,
    cell: &mut Vec<u8>,
    events: &mut Vec<HostEvent>,
    first: &Net,
) -> Result<(), OutOfMemory>
    requires { net.old ≡ None }
    ensures made { OnOk result (Makes first.now (record { net = net.old; cell = cell.old.items }) (record { net = net.new; cell = cell.new.items })
        events.old.items events.new.items) }
    ensures same { OnErr result (IsUnmade (record { net = net.old; cell = cell.old.items }) (record { net = net.new; cell = cell.new.items })
        events.old.items events.new.items) }
{
    let copy = first.copy()?;
    let (next, mut making) = closing(alloc, cell)?;
    making.push(HostEvent::Changed(None))?;
    events.append(&mut making)?;
    *cell = next;
    *net = Some(copy);
    Ok(())
}

// Makes the first network, where there is none.
fn made(
    alloc: Global,
    net: &mut Option<Net>,
    cell: &mut Vec<u8>,
    events: &mut Vec<HostEvent>,
    first: &Net,
) -> Result<(), MakeFault>
    ensures exists { IsErrOf result MakeFault.Exists → IsSome net.old }
    ensures failed { IsErrOf result MakeFault.Failed → ⊥ }
    ensures made { OnOk result (Makes first.now (record { net = net.old; cell = cell.old.items }) (record { net = net.new; cell = cell.new.items })
        events.old.items events.new.items) }
    ensures same { OnErr result (IsUnmade (record { net = net.old; cell = cell.old.items }) (record { net = net.new; cell = cell.new.items })
        events.old.items events.new.items) }
    ensures consistent { IsTouched cell.old.items (map (touch_of 0) (reverse events.old.items))
        → IsTouched cell.new.items (map (touch_of 0) (reverse events.new.items)) }
{
    if net.is_some() {
        return Err(MakeFault::Exists);
    }
    match stored(alloc, net, cell, events, first) {
        Ok(()) => Ok(()),
        Err(OutOfMemory) => Err(MakeFault::OutOfMemory),
    }
}

impl Host for MemoryHost {
    ghost use Rattle.host_memory.specs.HostMemory.{IsUnfused, told_of, lawful_host};
    ghost use Rattle.host_memory.specs.Fused.{IsCounted, IsEvent, IsFused};

    ghost tells = { Unit {0} };

    ghost honest = { Unit {0} };

    ghost told = { told_of };

    ghost honest_tells = { λ honest. honest };

    ghost lawful = { lawful_host };

    fn make(&mut self, _alloc: Global, first: &Net) -> Result<(), MakeFault>
        requires { IsFirst first.now }
        ensures exists { IsErrOf result MakeFault.Exists → IsSome (told_of self.old).state.net }
        ensures met { OnOk result ((told_of self.old).state.net ≡ None) }
        ensures made { OnOk result (IsMade first.now (told_of self.old).state (told_of self.new)) }
        ensures stays { IsSome (told_of self.old).state.net
            → Steps Stays (told_of self.old).stops (told_of self.new).stops
            × ((told_of self.new).state ≡ (told_of self.old).state) }
        ensures same { IsErrOf result MakeFault.OutOfMemory
            → Steps Stays (told_of self.old).stops (told_of self.new).stops
            × ((told_of self.new).state ≡ (told_of self.old).state) }
        ensures maybe { MaybeMade first.now (told_of self.old).state (told_of self.new).state }
        ensures stops { Steps (MaybeMade first.now) (told_of self.old).stops (told_of self.new).stops }
        ensures kernel { (told_of self.new).kernel ≡ (told_of self.old).kernel }
        ensures settled { (told_of self.old).settled → (told_of self.new).settled }
        ensures fresh { (told_of self.new).fresh ≡ None }
        ensures cause { HasFault (told_of self.old).faults (told_of self.new).faults MakeFault.Failed result }
        ensures unfused { IsUnfused self.old → IsUnfused self.new }
        ensures quiet { IsUnfused self.old → (told_of self.new).faults ≡ (told_of self.old).faults }
        ensures fused { IsFused self.old.fuses ↔ IsErrOf result MakeFault.Failed }
        ensures numbered { IsCounted self.old.fuses self.new.fuses }
    {
        self.fresh = false;
        let fuse = self.fuses.next();
        if !is_carried_out(fuse) {
            self.faults = raised(self.faults);
            return Err(MakeFault::Failed);
        }
        let answer = made(
            self.alloc,
            &mut self.net,
            &mut self.cell,
            &mut self.events,
            first,
        );
        if fuse.is_some() {
            self.faults = raised(self.faults);
            return Err(MakeFault::Failed);
        }
        answer
    }

    fn dump(&mut self, _alloc: Global) -> Result<Net, DumpFault>
        ensures net { IfOk result (λ net. (told_of self.old).state.net ≡ Some net) }
        ensures found { OnOk result (IsSome (told_of self.old).state.net) }
        ensures damaged { IsErrOf result DumpFault.Damaged → (told_of self.old).state.net ≡ None }
        ensures state { (told_of self.new).state ≡ (told_of self.old).state }
        ensures no_event { (told_of self.new).stops.moment ≡ (told_of self.old).stops.moment }
        ensures stops { Steps Stays (told_of self.old).stops (told_of self.new).stops }
        ensures settles { OnOk result (told_of self.new).settled }
        ensures settled { (told_of self.old).settled → (told_of self.new).settled }
        ensures fresh { IfOk result (λ net. (told_of self.new).fresh ≡ Some net) }
        ensures stale { OnErr result ((told_of self.new).fresh ≡ (told_of self.old).fresh) }
        ensures calls { OnOk result ((told_of self.new).kernel ≡ dumped (told_of self.old).kernel) }
        ensures kernel { OnErr result ((told_of self.new).kernel ≡ (told_of self.old).kernel) }
        ensures cause { HasFault (told_of self.old).faults (told_of self.new).faults DumpFault.Failed result }
        ensures unfused { IsUnfused self.old → IsUnfused self.new }
        ensures quiet { IsUnfused self.old → (told_of self.new).faults ≡ (told_of self.old).faults }
        ensures fused { IsFused self.old.fuses ↔ IsErrOf result DumpFault.Failed }
        ensures numbered { IsCounted self.old.fuses self.new.fuses }
    {
        if self.fuses.next().is_some() {
            self.faults = raised(self.faults);
            return Err(DumpFault::Failed);
        }
        let Some(net) = &self.net else {
            return Err(DumpFault::Damaged);
        };
        let Ok(copy) = net.copy() else {
            return Err(DumpFault::OutOfMemory);
        };
        self.calls = 0;
        self.settled = true;
        self.fresh = true;
        Ok(copy)
    }

    fn call(&mut self, _alloc: Global, call: &Call) -> Result<(), CallFault>
        requires { (told_of self.old).settled }
        ensures accepted { OnOk result (Accepts call.now (told_of self.old).state.net (told_of self.new).state.net) }
        ensures refused { (k : ℕ) → IsErrOf result (CallFault.Refused k) → Refuses call.now (told_of self.old).state.net k }
        ensures maybe { MaybeCalled call.now (told_of self.old).state (told_of self.new).state }
        ensures cell { SameCell (told_of self.old).state (told_of self.new).state }
        ensures stops { Steps (MaybeCalled call.now) (told_of self.old).stops (told_of self.new).stops }
        ensures stops_cell { Steps SameCell (told_of self.old).stops (told_of self.new).stops }
        ensures settled { result ≢ Err CallFault.Failed → (told_of self.new).settled }
        ensures doubt { result ≡ Err CallFault.Failed → (told_of self.new).settled → ⊥ }
        ensures same { (k : ℕ) → IsErrOf result (CallFault.Refused k) ⊎ IsErrOf result CallFault.OutOfMemory
            → (Unit {0} → (told_of self.new).state ≡ (told_of self.old).state)
            × Steps Stays (told_of self.old).stops (told_of self.new).stops }
        ensures fresh { (told_of self.new).fresh ≡ None }
        ensures counts { (k : ℕ) → IsErrOf result (CallFault.Refused k) → (told_of self.new).kernel ≡ refused k (told_of self.old).kernel }
        ensures counted { ((k : ℕ) → IsErrOf result (CallFault.Refused k) → ⊥) → (told_of self.new).kernel ≡ counted (told_of self.old).kernel }
        ensures cause { HasFault (told_of self.old).faults (told_of self.new).faults CallFault.Failed result }
        ensures unfused { IsUnfused self.old → IsUnfused self.new }
        ensures quiet { IsUnfused self.old → (told_of self.new).faults ≡ (told_of self.old).faults }
        ensures fused { IsFused self.old.fuses ↔ IsErrOf result CallFault.Failed }
        ensures numbered { IsCounted self.old.fuses self.new.fuses }
    {
        self.calls = raised(self.calls);
        self.fresh = false;
        let fuse = self.fuses.next();
        if !is_carried_out(fuse) {
            self.settled = false;
            self.faults = raised(self.faults);
            return Err(CallFault::Failed);
        }
        let answer = called(&mut self.net, &mut self.events, call);
        if fuse.is_some() {
            self.settled = false;
            self.faults = raised(self.faults);
            return Err(CallFault::Failed);
        }
        match answer {
            Ok(()) => Ok(()),
            Err(StepFault::Refused(number)) => {
                self.refusals = raised(self.refusals);
                self.last_number = number;
                self.last_call = self.calls;
                Err(CallFault::Refused(number))
            }
            Err(StepFault::OutOfMemory) => Err(CallFault::OutOfMemory),
        }
    }

    fn cell_read(&mut self, at: u64, buf: &mut [u8]) -> Result<u64, Failed>
        requires { at + length buf.old < 2 ^ 63 }
        ensures filled { IfOk result (λ n. Filled at (told_of self.old).state.cell buf.old buf.new n) }
        ensures untouched { Untouched (Unit {0}) (told_of self.old) (told_of self.new) }
        ensures no_event { (told_of self.new).stops.moment ≡ (told_of self.old).stops.moment }
        ensures cause { HasCause (told_of self.old).faults (told_of self.new).faults result }
        ensures unfused { IsUnfused self.old → IsUnfused self.new }
        ensures quiet { IsUnfused self.old → (told_of self.new).faults ≡ (told_of self.old).faults }
        ensures fused { IsFused self.old.fuses ↔ IsErr result }
        ensures numbered { IsCounted self.old.fuses self.new.fuses }
    {
        let is_done = self.fuses.next().is_none();
        counted(&mut self.faults, is_done)?;
        Ok(fill(&self.cell, at, buf))
    }

    fn cell_write(&mut self, at: u64, bytes: &[u8]) -> Result<(), Failed>
        requires { at + length bytes.now < 2 ^ 63 }
        ensures written { OnOk result (Written at bytes.now (told_of self.old).state.cell (told_of self.new).state.cell) }
        ensures torn { Torn at (length bytes.now) (told_of self.old).state.cell (told_of self.new).state.cell }
        ensures kernel { SameKernel (Unit {0}) (told_of self.old) (told_of self.new) }
        ensures stops { Steps (CellTorn at (length bytes.now)) (told_of self.old).stops (told_of self.new).stops }
        ensures event { IsEvent result (told_of self.old).stops (told_of self.new).stops }
        ensures cause { HasCause (told_of self.old).faults (told_of self.new).faults result }
        ensures unfused { IsUnfused self.old → IsUnfused self.new }
        ensures quiet { IsUnfused self.old → OnOk result ((told_of self.new).faults ≡ (told_of self.old).faults) }
        ensures fused { IsFused self.old.fuses → IsErr result }
        ensures numbered { IsCounted self.old.fuses self.new.fuses }
    {
        let fuse = self.fuses.next();
        let is_done = write(
            self.alloc,
            &mut self.cell,
            &mut self.events,
            at,
            bytes,
            fuse,
        );
        counted(&mut self.faults, is_done)
    }

    fn cell_sync(&mut self) -> Result<(), Failed>
        ensures durable { OnOk result (HasCell (told_of self.old).state.cell (told_of self.new)) }
        ensures untouched { Untouched (Unit {0}) (told_of self.old) (told_of self.new) }
        ensures kept { OnErr result (Keeps (told_of self.old).stops (told_of self.new).stops) }
        ensures event { IsEvent result (told_of self.old).stops (told_of self.new).stops }
        ensures cause { HasCause (told_of self.old).faults (told_of self.new).faults result }
        ensures unfused { IsUnfused self.old → IsUnfused self.new }
        ensures quiet { IsUnfused self.old → OnOk result ((told_of self.new).faults ≡ (told_of self.old).faults) }
        ensures fused { IsFused self.old.fuses → IsErr result }
        ensures numbered { IsCounted self.old.fuses self.new.fuses }
    {
        let fuse = self.fuses.next();
        let is_done = sync(&mut self.events, fuse);
        counted(&mut self.faults, is_done)
    }

    fn release(&mut self)
        ensures untouched { Untouched (Unit {0}) (told_of self.old) (told_of self.new) }
        ensures faults { (told_of self.new).faults ≡ (told_of self.old).faults }
        ensures same { self.new ≡ self.old }
    {}
}
