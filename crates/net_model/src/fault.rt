//! Why lists make no network.

use base_model::OutOfMemory;
use std::alloc::AllocError;

/// Why lists make no network.
#[derive(Clone, Copy)]
pub enum NetFault {
    /// The least part of validity that the lists break, from 1 to 13.
    Broken(u8),
    OutOfMemory,
}

impl From<AllocError> for NetFault {
    ghost use Rattle.std.specs.Prelude.{◌≡◌};
    ghost use Rattle.net_model.specs.declared.fault.NetFault.TheVariants.{OutOfMemory as NoMemory};

    ghost from_gives = { λ _ fault. fault ≡ NoMemory };

    fn from(_error: AllocError) -> Self {
        NetFault::OutOfMemory
    }
}

impl From<OutOfMemory> for NetFault {
    ghost use Rattle.std.specs.Prelude.{◌≡◌};
    ghost use Rattle.net_model.specs.declared.fault.NetFault.TheVariants.{OutOfMemory as NoMemory};

    ghost from_gives = { λ _ fault. fault ≡ NoMemory };

    fn from(_error: OutOfMemory) -> Self {
        NetFault::OutOfMemory
    }
}
