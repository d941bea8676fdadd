//! A disk whose calls are whole.
ghost use Rattle.std.specs.Prelude.{◌≡◌, ◌≤◌};
ghost use Rattle.host_core.specs.Faults.{Rose};
ghost use Rattle.host_core.specs.Stops.{Steps, Stays};

use crate::raw::RawDisk;
use crate::read::read_whole;
use crate::write::write_whole;
use host_core::{Disk, Failed, raised};

/// A disk over single calls of a system. A call of it goes on until the whole is done, and one that fails is counted.
pub struct WholeDisk<R: RawDisk> {
    raw: R,
    faults: u64,
}

impl<R: RawDisk + Drop> Drop for WholeDisk<R> {
    fn drop(self) {
        let WholeDisk { raw: _, faults: _ } = self;
    }
}

impl<R: RawDisk> WholeDisk<R> {
    /// The disk, with a count to begin with.
    pub fn new(raw: R, faults: u64) -> WholeDisk<R>
        ensures areas { (⟦<WholeDisk<R> as Disk>⟧.told result).areas ≡ (R.told raw).areas }
        ensures stops { Steps Stays (R.told raw).stops (⟦<WholeDisk<R> as Disk>⟧.told result).stops }
        ensures faults { (⟦<WholeDisk<R> as Disk>⟧.told result).faults ≡ faults }
    {
        WholeDisk { raw, faults }
    }

    /// How many of its calls failed.
    pub fn faults(&self) -> u64
        ensures { result ≡ (⟦<WholeDisk<R> as Disk>⟧.told self.now).faults }
    {
        self.faults
    }
}

// Counts a fault.
fn fault(faults: &mut u64) -> Failed
    ensures rose { Rose faults.old faults.new }
    ensures later { faults.old ≤ faults.new }
{
    *faults = raised(*faults);
    Failed
}

impl<R: RawDisk> Disk for WholeDisk<R> {
    ghost use Rattle.file_disk.specs.Raw.{counted, lawful_disk};

    ghost tells = { R.tells };

    ghost told = { λ d. counted (R.told d.raw) d.faults };

    ghost lawful = { λ d. lawful_disk R.tells (R.told d.raw) d.faults (R.lawful d.raw) };

    fn size(&mut self, area: u8) -> Result<u64, Failed> {
        match self.raw.size(area) {
            Ok(size) => Ok(size),
            Err(_) => Err(fault(&mut self.faults)),
        }
    }

    fn read_at(&mut self, area: u8, at: u64, buf: &mut [u8]) -> Result<u64, Failed> {
        match read_whole(&mut self.raw, area, at, buf) {
            Ok(count) => Ok(count),
            Err(_) => Err(fault(&mut self.faults)),
        }
    }

    fn write_at(&mut self, area: u8, at: u64, bytes: &[u8]) -> Result<(), Failed> {
        match write_whole(&mut self.raw, area, at, bytes) {
            Ok(()) => Ok(()),
            Err(_) => Err(fault(&mut self.faults)),
        }
    }

    fn sync(&mut self, area: u8) -> Result<(), Failed> {
        match self.raw.sync(area) {
            Ok(()) => Ok(()),
            Err(_) => Err(fault(&mut self.faults)),
        }
    }

    fn release(&mut self) {
        self.raw.release();
    }
}
