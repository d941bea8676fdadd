//! Why a document can't be merged.

use document_model::Refused;
use std::alloc::AllocError;

/// Why a document can't be merged into a network.
#[derive(Clone, Copy)]
pub enum MergeFault {
    /// The first rule of the merge that the document breaks, and the first place where it breaks it.
    Refused(Refused),
    OutOfMemory,
}

impl From<AllocError> for MergeFault {
    ghost use Rattle.std.specs.Prelude.{◌≡◌};
    ghost use Rattle.merge_model.specs.declared.fault.MergeFault.TheVariants.{OutOfMemory as NoMemory};

    ghost from_gives = { λ _ fault. fault ≡ NoMemory };

    fn from(_error: AllocError) -> Self {
        MergeFault::OutOfMemory
    }
}
