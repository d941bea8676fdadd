//! What is wrong with a text of lines.

use base_model::OutOfMemory;
use std::alloc::{AllocError, AllocFailed};

/// The most bytes of a text that is read.
pub const MAX_BATCH_BYTES: usize = 4_194_304;

/// Why a text isn't read.
#[derive(Clone, Copy)]
pub enum BatchFault {
    /// The line of this number, from 1, is no spelling of a call, and isn't skipped. It is the first such line.
    Line(u64),
    /// It has more than `MAX_BATCH_BYTES` bytes.
    TooLarge,
    OutOfMemory,
}

impl From<AllocError> for BatchFault {
    ghost use Rattle.std.specs.Prelude.{◌≡◌};
    ghost use Rattle.ip_batch.specs.declared.fault.BatchFault.TheVariants.{OutOfMemory as NoMemory};

    ghost from_gives = { λ _ fault. fault ≡ NoMemory };

    fn from(_error: AllocError) -> BatchFault {
        BatchFault::OutOfMemory
    }
}

impl<T: Drop> From<AllocFailed<T>> for BatchFault {
    ghost use Rattle.std.specs.Prelude.{◌≡◌};
    ghost use Rattle.ip_batch.specs.declared.fault.BatchFault.TheVariants.{OutOfMemory as NoMemory};

    ghost from_gives = { λ _ fault. fault ≡ NoMemory };

    fn from(_error: AllocFailed<T>) -> BatchFault {
        BatchFault::OutOfMemory
    }
}

impl From<OutOfMemory> for BatchFault {
    ghost use Rattle.std.specs.Prelude.{◌≡◌};
    ghost use Rattle.ip_batch.specs.declared.fault.BatchFault.TheVariants.{OutOfMemory as NoMemory};

    ghost from_gives = { λ _ fault. fault ≡ NoMemory };

    fn from(_error: OutOfMemory) -> BatchFault {
        BatchFault::OutOfMemory
    }
}
