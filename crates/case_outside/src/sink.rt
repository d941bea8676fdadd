//! A sink in memory.
ghost use Rattle.std.specs.Prelude.{◌≡◌, ◌++◌, [], IsTrue, IsFalse, IsSome};
ghost use Rattle.host_core.specs.Streams.{KeepsSome};
ghost use Rattle.host_memory.specs.Fused.{IsFresh};

use host_core::{Failed, Sink, raised};
use host_memory::{Fuse, Fuses};
use std::alloc::Global;

/// A sink that keeps what is written to it, and fails at the calls that its fuses name: such a call writes all or
/// nothing. A growth that is refused is a fault of it too.
pub struct MemorySink {
    bytes: Vec<u8>,
    fuses: Fuses,
    faults: u64,
}

// By hand, so that a proof sees one call where one is dropped, and not a step for each part.
impl Drop for MemorySink {
    fn drop(self) {
        let MemorySink {
            bytes: _,
            fuses: _,
            faults: _,
        } = self;
    }
}

impl MemorySink {
    /// A sink to which nothing was written and at which nothing failed.
    pub fn new(alloc: Global, fuses: Vec<Fuse>) -> MemorySink
        ensures written { (⟦<MemorySink as Sink>⟧.told result).written ≡ [] }
        ensures faults { (⟦<MemorySink as Sink>⟧.told result).faults ≡ 0 }
        ensures fresh { IsFresh fuses.items result.fuses }
    {
        MemorySink {
            bytes: Vec::new(alloc),
            fuses: Fuses::new(fuses),
            faults: 0,
        }
    }

    /// What was written so far.
    pub fn bytes(&self) -> &Vec<u8>
        ensures { result.now.items ≡ (⟦<MemorySink as Sink>⟧.told self.now).written }
    {
        &self.bytes
    }
}

/// Keeps all bytes or none, and answers whether the call is done: all were kept, and no fuse is there.
fn keep(kept: &mut Vec<u8>, bytes: &[u8], fuse: Option<Fuse>) -> bool
    ensures done { IsTrue result → kept.new.items ≡ kept.old.items ++ bytes.now }
    ensures some { KeepsSome kept.old.items bytes.now kept.new.items }
    ensures fused { IsSome fuse → IsFalse result }
{
    match fuse {
        None => kept.extend_from_slice(bytes).is_ok(),
        Some(fuse) => {
            if fuse.done {
                let _ = kept.extend_from_slice(bytes);
            }
            false
        }
    }
}

impl Sink for MemorySink {
    ghost use Rattle.std.specs.Prelude.{◌≡◌, OnOk, IsErr};
    ghost use Rattle.host_core.specs.Faults.{HasCause};
    ghost use Rattle.host_core.specs.Streams.{Appends, AppendsSome};
    ghost use Rattle.host_memory.specs.Fused.{IsCounted, IsFused};
    ghost use Rattle.case_outside.specs.SinkMemory.{sink_told};

    ghost tells = { Unit {0} };

    ghost told = { sink_told };

    fn write(&mut self, bytes: &[u8]) -> Result<(), Failed>
        ensures all { OnOk result (Appends bytes.now (sink_told self.old) (sink_told self.new)) }
        ensures some { AppendsSome bytes.now (sink_told self.old) (sink_told self.new) }
        ensures steady { OnOk result ((sink_told self.new).faults ≡ (sink_told self.old).faults) }
        ensures cause { HasCause (sink_told self.old).faults (sink_told self.new).faults result }
        ensures fused { IsFused self.old.fuses → IsErr result }
        ensures numbered { IsCounted self.old.fuses self.new.fuses }
    {
        let fuse = self.fuses.next();
        let is_done = keep(&mut self.bytes, bytes, fuse);
        if !is_done {
            self.faults = raised(self.faults);
            return Err(Failed);
        }
        Ok(())
    }
}
