//! Why a policy is refused.

use base_model::{OutOfMemory as NoMemory, Path};
use std::alloc::{AllocError, AllocFailed};

/// Why a tree is no policy, or a policy has no value. Of several causes the one that stands first here is answered, at its
/// first place: captures in the order of the tree, then the strings under `desired` in order.
#[derive(Drop)]
pub enum PolicyFault {
    /// The tree is no map; at the top another key than `capture` and `desired`, or no `desired`; `capture` is no map of
    /// strings, or has more than [`MAX_CAPTURES`](crate::MAX_CAPTURES).
    WrongShape(Path),
    /// A capture or a place is no expression.
    BadExpression(Path),
    /// A capture or a place names a capture that isn't there.
    UnknownCapture(Path),
    /// A capture that its own value would be made of.
    CaptureCycle(Path),
    /// A path leads nowhere, that of a step to no list, or the reference of a step to no string, number or boolean.
    NoValue(Path),
    /// The value has more than [`MAX_LEVELS`](doc_tree::MAX_LEVELS) levels.
    TooDeep,
    /// The value has more than [`MAX_NODES`](crate::MAX_NODES) nodes.
    TooLarge,
    /// Out of memory.
    OutOfMemory,
}

impl From<AllocError> for PolicyFault {
    ghost use Rattle.std.specs.Prelude.{◌≡◌};
    ghost use Rattle.policy_model.specs.declared.fault.PolicyFault.TheVariants.{OutOfMemory as WantsMemory};

    ghost from_gives = { λ _ fault. fault ≡ WantsMemory };

    fn from(_error: AllocError) -> Self {
        PolicyFault::OutOfMemory
    }
}

impl<T: Drop> From<AllocFailed<T>> for PolicyFault {
    ghost use Rattle.std.specs.Prelude.{◌≡◌};
    ghost use Rattle.policy_model.specs.declared.fault.PolicyFault.TheVariants.{OutOfMemory as WantsMemory};

    ghost from_gives = { λ _ fault. fault ≡ WantsMemory };

    fn from(_error: AllocFailed<T>) -> Self {
        PolicyFault::OutOfMemory
    }
}

impl From<NoMemory> for PolicyFault {
    ghost use Rattle.std.specs.Prelude.{◌≡◌};
    ghost use Rattle.policy_model.specs.declared.fault.PolicyFault.TheVariants.{OutOfMemory as WantsMemory};

    ghost from_gives = { λ _ fault. fault ≡ WantsMemory };

    fn from(_error: NoMemory) -> Self {
        PolicyFault::OutOfMemory
    }
}
