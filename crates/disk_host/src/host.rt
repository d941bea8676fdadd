//! A host over a disk.
ghost use Rattle.std.specs.Prelude.{◌≡◌, true};
ghost use Rattle.std.specs.Option.{ForSome};
ghost use Rattle.disk_host.specs.Kept.{IsTold};
ghost use Rattle.disk_host.specs.Settled.{IsSettled};

use crate::kept::Kept;
use host_core::Disk;

/// A host over a disk: area 0 is the kernel, area 1 the checkpoint. A kernel call is whole or not done, wherever a stop
/// comes. Its faults are those of the disk, and its own where the disk tells nothing.
#[derive(Drop)]
pub struct DiskHost<D: Disk> {
    pub(crate) disk: D,
    // The network, where it was read or written and nothing came between.
    pub(crate) kept: Option<Kept>,
    pub(crate) settled: bool,
    pub(crate) fresh: bool,
    pub(crate) faults: u64,
    pub(crate) calls: u64,
    pub(crate) refusals: u64,
    pub(crate) last_refusal: u8,
    pub(crate) last_call: u64,
    ghost sure: { settled ≡ true → IsSettled D.tells (D.told disk) },
    ghost known: { ForSome kept (λ k. D.tells → IsTold k (D.told disk).areas.kernel) },
    ghost none_own: { D.tells → faults ≡ 0 },
}
