//! A host that refuses kernel calls of one's choosing.
ghost use Rattle.std.specs.Prelude.{◌≡◌, Some, None};
ghost use Rattle.host_core.specs.HostView.{State};

use host_core::{CallFault, DumpFault, Failed, Host, MakeFault, raised};
use host_memory::{Fuse, MemoryHost};
use net_core::Net;
use net_model::Call;
use std::alloc::Global;

/// A kernel call that is refused: its number, from 1, among all kernel calls on the instance, and the number of the refusal.
#[derive(Clone, Copy)]
pub struct Refusal {
    pub call: u64,
    pub number: u8,
}

/// A host in memory that refuses the kernel calls that are named, whatever its network says of them. It isn't honest.
pub struct RefusingHost {
    host: MemoryHost,
    refusals: Vec<Refusal>,
    made: u64,
}

// By hand, so that a proof sees one call where one is dropped, and not a step for each part.
impl Drop for RefusingHost {
    fn drop(self) {
        let RefusingHost {
            host: _,
            refusals: _,
            made: _,
        } = self;
    }
}

impl RefusingHost {
    /// A host with this network and these bytes in its checkpoint area, of which none is in doubt. It isn't settled, and
    /// nothing was called. It fails at the calls that its fuses name, too, counted without those that its refusals
    /// name.
    pub fn new(
        alloc: Global,
        net: Net,
        cell: Vec<u8>,
        fuses: Vec<Fuse>,
        refusals: Vec<Refusal>,
    ) -> RefusingHost
        ensures state { (⟦<RefusingHost as Host>⟧.told result).state ≡ record { net = Some net; cell = cell.items } }
        ensures sure { (s : State) → (⟦<RefusingHost as Host>⟧.told result).stops.may_leave s → s ≡ (⟦<RefusingHost as Host>⟧.told result).state }
        ensures unsettled { (⟦<RefusingHost as Host>⟧.told result).settled → ⊥ }
        ensures faults { (⟦<RefusingHost as Host>⟧.told result).faults ≡ 0 }
        ensures calls { (⟦<RefusingHost as Host>⟧.told result).kernel.calls ≡ 0 }
        ensures refusals { (⟦<RefusingHost as Host>⟧.told result).kernel.refusals ≡ 0 }
    {
        RefusingHost {
            host: MemoryHost::new(alloc, Some(net), cell, fuses),
            refusals,
            made: 0,
        }
    }

    /// The network that it has, if it has one.
    pub fn net(&self) -> Option<&Net> {
        self.host.net()
    }
}

impl Host for RefusingHost {
    ghost use Rattle.case_outside.specs.Refusing.{refusing_told, lawful_refuser};

    ghost tells = { Unit {0} };

    ghost honest = { ⊥ };

    ghost told = { refusing_told };

    ghost honest_tells = { λ honest. absurd honest };

    ghost lawful = { lawful_refuser };

    fn make(&mut self, alloc: Global, first: &Net) -> Result<(), MakeFault> {
        self.host.make(alloc, first)
    }

    fn dump(&mut self, alloc: Global) -> Result<Net, DumpFault> {
        self.host.dump(alloc)
    }

    fn call(&mut self, alloc: Global, call: &Call) -> Result<(), CallFault> {
        self.made = raised(self.made);
        let made = self.made;
        match self.refusals.iter().find(|refusal| refusal.call == made) {
            Some(refusal) => {
                let number = refusal.number;
                self.host.refuse(number);
                Err(CallFault::Refused(number))
            }
            None => self.host.call(alloc, call),
        }
    }

    fn cell_read(&mut self, at: u64, buf: &mut [u8]) -> Result<u64, Failed> {
        self.host.cell_read(at, buf)
    }

    fn cell_write(&mut self, at: u64, bytes: &[u8]) -> Result<(), Failed> {
        self.host.cell_write(at, bytes)
    }

    fn cell_sync(&mut self) -> Result<(), Failed> {
        self.host.cell_sync()
    }

    fn release(&mut self) {
        self.host.release();
    }
}
