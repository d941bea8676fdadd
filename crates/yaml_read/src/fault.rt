//! Why a text stands for no tree.

ghost use Rattle.std.specs.Prelude.{◌≡◌};
ghost use Rattle.yaml_read.specs.declared.fault.YamlFault.TheVariants.{OutOfMemory};

use std::alloc::{AllocError, AllocFailed};

/// The first fault of a text.
#[derive(Clone, Copy)]
pub enum YamlFault {
    /// The bytes aren't UTF-8. The number is the place, from 0, at which the first ill-formed sequence begins.
    NotUtf8(u64),
    /// The line has something of YAML that lies outside the subset. The number is that of the line, from 1, here and below.
    Unsupported(u64),
    /// The line can't continue a valid document.
    Malformed(u64),
    /// A key on the line equals an earlier one of its map.
    DuplicateKey(u64),
    /// A node of level 33 begins on the line.
    TooDeep(u64),
    /// The text has more than 4,194,304 bytes.
    TooLarge,
    /// Out of memory.
    OutOfMemory,
}

impl From<AllocError> for YamlFault {
    ghost from_gives = { λ _ e. e ≡ OutOfMemory };

    fn from(_error: AllocError) -> YamlFault {
        YamlFault::OutOfMemory
    }
}

impl<T: Drop> From<AllocFailed<T>> for YamlFault {
    ghost from_gives = { λ _ e. e ≡ OutOfMemory };

    fn from(_error: AllocFailed<T>) -> YamlFault {
        YamlFault::OutOfMemory
    }
}
