//! The outside in memory of programs of cases, beside a host in memory: it fails where it is told to, and hosts lie or refuse.
#![tactic(auto)]

// A clock that stands still.
mod clock;
// A disk in memory.
mod disk;
// A folder in memory.
mod folder;
// A host that lies.
mod liar;
// A host that refuses kernel calls of one's choosing.
mod refusing;
// A sink in memory.
mod sink;
// Inputs in memory.
mod source;

pub use clock::FixedClock;
pub use disk::{DiskEvent, MemoryDisk};
pub use folder::{FolderFile, MemoryFolder};
pub use liar::LyingHost;
pub use refusing::{Refusal, RefusingHost};
pub use sink::MemorySink;
pub use source::MemorySource;
