//! Why a call wasn't carried out.

use net_model::OutOfMemory;
use std::alloc::AllocError;

/// Why a call wasn't carried out. The network is then as it was.
#[derive(Clone, Copy)]
pub enum StepFault {
    /// The kernel refuses the call, with the number of the refusal.
    Refused(u8),
    OutOfMemory,
}

impl From<OutOfMemory> for StepFault {
    ghost use Rattle.std.specs.Prelude.{◌≡◌};
    ghost use Rattle.kernel_model.specs.declared.fault.StepFault.TheVariants.{OutOfMemory as NoMemory};

    ghost from_gives = { λ _ fault. fault ≡ NoMemory };

    fn from(_error: OutOfMemory) -> Self {
        StepFault::OutOfMemory
    }
}

impl From<AllocError> for StepFault {
    ghost use Rattle.std.specs.Prelude.{◌≡◌};
    ghost use Rattle.kernel_model.specs.declared.fault.StepFault.TheVariants.{OutOfMemory as NoMemory};

    ghost from_gives = { λ _ fault. fault ≡ NoMemory };

    fn from(_error: AllocError) -> Self {
        StepFault::OutOfMemory
    }
}
