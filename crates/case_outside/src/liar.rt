//! A host that lies.
ghost use Rattle.std.specs.Prelude.{◌≡◌, Some, None};
ghost use Rattle.host_core.specs.HostView.{State};

use host_core::{CallFault, DumpFault, Failed, Host, MakeFault};
use host_memory::MemoryHost;
use net_core::Net;
use net_model::Call;
use std::alloc::Global;

/// A host in memory that answers Ok to every kernel call and does nothing. It isn't honest.
pub struct LyingHost {
    host: MemoryHost,
}

// By hand, so that a proof sees one call where one is dropped, and not a step for each part.
impl Drop for LyingHost {
    fn drop(self) {
        let LyingHost { host: _ } = self;
    }
}

impl LyingHost {
    /// A host with this network and these bytes in its checkpoint area, of which none is in doubt. It isn't settled, and
    /// nothing was called.
    pub fn new(alloc: Global, net: Net, cell: Vec<u8>) -> LyingHost
        ensures state { (⟦<LyingHost as Host>⟧.told result).state ≡ record { net = Some net; cell = cell.items } }
        ensures sure { (s : State) → (⟦<LyingHost as Host>⟧.told result).stops.may_leave s → s ≡ (⟦<LyingHost as Host>⟧.told result).state }
        ensures unsettled { (⟦<LyingHost as Host>⟧.told result).settled → ⊥ }
        ensures faults { (⟦<LyingHost as Host>⟧.told result).faults ≡ 0 }
        ensures calls { (⟦<LyingHost as Host>⟧.told result).kernel.calls ≡ 0 }
    {
        LyingHost {
            host: MemoryHost::new(alloc, Some(net), cell, Vec::new(alloc)),
        }
    }
}

impl Host for LyingHost {
    ghost use Rattle.case_outside.specs.Lying.{lying_told, lawful_liar};

    ghost tells = { Unit {0} };

    ghost honest = { ⊥ };

    ghost told = { lying_told };

    ghost honest_tells = { λ honest. absurd honest };

    ghost lawful = { lawful_liar };

    fn make(&mut self, alloc: Global, first: &Net) -> Result<(), MakeFault> {
        self.host.make(alloc, first)
    }

    fn dump(&mut self, alloc: Global) -> Result<Net, DumpFault> {
        self.host.dump(alloc)
    }

    fn call(&mut self, _alloc: Global, _call: &Call) -> Result<(), CallFault> {
        self.host.pass_over();
        Ok(())
    }

    fn cell_read(&mut self, at: u64, buf: &mut [u8]) -> Result<u64, Failed> {
        self.host.cell_read(at, buf)
    }

    fn cell_write(&mut self, at: u64, bytes: &[u8]) -> Result<(), Failed> {
        self.host.cell_write(at, bytes)
    }

    fn cell_sync(&mut self) -> Result<(), Failed> {
        self.host.cell_sync()
    }

    fn release(&mut self) {
        self.host.release();
    }
}
