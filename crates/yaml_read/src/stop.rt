//! Why the reading of a line stops.

ghost use Rattle.std.specs.Prelude.{◌≡◌};
ghost use Rattle.yaml_read.specs.declared.stop.Stop.TheVariants.{Memory};

use std::alloc::{AllocError, AllocFailed};

/// Why a line can't continue a valid document.
#[derive(Clone, Copy)]
pub enum Why {
    /// A sign of YAML that lies outside the subset stands where a value or a key begins.
    Outside,
    /// A key equals an earlier one of its map.
    Repeated,
    /// A node begins that has too many others round it.
    Deep,
    /// Anything else.
    Unfit,
}

/// Why reading stopped.
#[derive(Clone, Copy)]
pub enum Stop {
    /// Out of memory.
    Memory,
    /// The text can't continue a valid document.
    Because(Why),
}

/// What becomes of a key that equals an earlier one of its map.
#[derive(Clone, Copy)]
pub enum Repeats {
    Refused,
    Taken,
}

impl From<AllocError> for Stop {
    ghost from_gives = { λ _ e. e ≡ Memory };

    fn from(_error: AllocError) -> Stop {
        Stop::Memory
    }
}

impl<T: Drop> From<AllocFailed<T>> for Stop {
    ghost from_gives = { λ _ e. e ≡ Memory };

    fn from(_error: AllocFailed<T>) -> Stop {
        Stop::Memory
    }
}
