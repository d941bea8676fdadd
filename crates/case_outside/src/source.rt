//! Inputs in memory.
ghost use Rattle.std.specs.Prelude.{◌≡◌, ◌≤◌, [], length, option_map};
ghost use Rattle.host_memory.specs.Fused.{IsFresh};
ghost use Rattle.case_outside.specs.Inputs.{input_named};

use host_core::{Failed, Source, StartFault, raised};
use host_memory::{Fuse, Fuses};
use std::alloc::Global;

/// Inputs by their names, of which a start copies what is to be read. A copy that is refused is a fault of it, and so is
/// each call that its fuses name.
pub struct MemorySource {
    inputs: Vec<(String, Vec<u8>)>,
    started: Vec<u8>,
    from: usize,
    fuses: Fuses,
    faults: u64,
    ghost within: { from ≤ length started.items },
}

// By hand, so that a proof sees one call where one is dropped, and not a step for each part.
impl Drop for MemorySource {
    fn drop(self) {
        let MemorySource {
            inputs: _,
            started: _,
            from: _,
            fuses: _,
            faults: _,
        } = self;
    }
}

fn input_named<'a>(inputs: &'a [(String, Vec<u8>)], name: &str) -> Option<&'a Vec<u8>>
    ensures { option_map (λ bytes. bytes.now.items) result ≡ input_named inputs.now name.now }
{
    inputs
        .iter()
        .find(|input| input.0.as_str() == name)
        .map(|input| &input.1)
}

impl MemorySource {
    /// A source of these inputs, of which none is begun, and at which nothing failed.
    pub fn new(alloc: Global, inputs: Vec<(String, Vec<u8>)>, fuses: Vec<Fuse>) -> MemorySource
        ensures inputs { (⟦<MemorySource as Source>⟧.told result).inputs ≡ input_named inputs.items }
        ensures left { (⟦<MemorySource as Source>⟧.told result).left ≡ [] }
        ensures faults { (⟦<MemorySource as Source>⟧.told result).faults ≡ 0 }
        ensures fresh { IsFresh fuses.items result.fuses }
    {
        MemorySource {
            inputs,
            started: Vec::new(alloc),
            from: 0,
            fuses: Fuses::new(fuses),
            faults: 0,
        }
    }
}

impl Source for MemorySource {
    ghost use Rattle.std.specs.Prelude.{◌≡◌, ◌≢◌, ◌↔◌, ◌≤◌, ◌<◌, length, None, Some, Err, IfOk, OnOk, IsErr, IsErrOf};
    ghost use Rattle.host_core.specs.Faults.{HasCause, HasFault};
    ghost use Rattle.host_core.specs.Streams.{Reads};
    ghost use Rattle.host_memory.specs.Fused.{IsCounted, IsFused};
    ghost use Rattle.case_outside.specs.SourceMemory.{IsUnfused, source_told};

    ghost tells = { Unit {0} };

    ghost told = { source_told };

    fn start(&mut self, name: &str) -> Result<(), StartFault>
        ensures begins { OnOk result ((source_told self.old).inputs name.now ≡ Some (source_told self.new).left) }
        ensures no_such { IsErrOf result StartFault.NoSuchName → (source_told self.old).inputs name.now ≡ None }
        ensures inputs { (source_told self.new).inputs ≡ (source_told self.old).inputs }
        ensures cause { HasFault (source_told self.old).faults (source_told self.new).faults StartFault.Failed result }
        ensures unfused { IsUnfused self.old → IsUnfused self.new }
        ensures quiet { IsUnfused self.old → result ≢ Err StartFault.Failed → (source_told self.new).faults ≡ (source_told self.old).faults }
        ensures fused { IsFused self.old.fuses → IsErrOf result StartFault.Failed }
        ensures numbered { IsCounted self.old.fuses self.new.fuses }
    {
        if self.fuses.next().is_some() {
            self.faults = raised(self.faults);
            return Err(StartFault::Failed);
        }
        let Some(bytes) = input_named(&self.inputs, name) else {
            return Err(StartFault::NoSuchName);
        };
        let Ok(started) = bytes.clone() else {
            self.faults = raised(self.faults);
            return Err(StartFault::Failed);
        };
        self.started = started;
        self.from = 0;
        Ok(())
    }

    fn read(&mut self, buf: &mut [u8]) -> Result<u64, Failed>
        requires { 0 < length buf.old }
        ensures bound { IfOk result (λ n. n ≤ length buf.old) }
        ensures reads { IfOk result (Reads (source_told self.old) (source_told self.new) buf.new) }
        ensures inputs { (source_told self.new).inputs ≡ (source_told self.old).inputs }
        ensures cause { HasCause (source_told self.old).faults (source_told self.new).faults result }
        ensures unfused { IsUnfused self.old → IsUnfused self.new }
        ensures quiet { IsUnfused self.old → (source_told self.new).faults ≡ (source_told self.old).faults }
        ensures fused { IsFused self.old.fuses ↔ IsErr result }
        ensures numbered { IsCounted self.old.fuses self.new.fuses }
    {
        if self.fuses.next().is_some() {
            self.faults = raised(self.faults);
            return Err(Failed);
        }
        let count = buf.len().min(self.started.len() - self.from);
        buf[..count].copy_from_slice(&self.started[self.from..self.from + count]);
        self.from += count;
        Ok(count as u64)
    }
}
