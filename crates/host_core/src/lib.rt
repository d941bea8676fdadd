//! The outside as the tool sees it: a disk, a host with its network and its checkpoint area, sources of input, sinks for
//! output, folders of documents and a clock.
#![tactic(auto)]

// The two areas of a disk.
mod area;
// The clock.
mod clock;
// The disk.
mod disk;
// Faults and their counts.
mod faults;
// A folder of documents.
mod folder;
// The host.
mod host;
// Sources of input and sinks for output.
mod stream;

pub use area::Area;
pub use clock::Clock;
pub use disk::Disk;
pub use faults::{Failed, raised};
pub use folder::{Folder, NamesFault};
pub use host::{CallFault, DumpFault, Host, MakeFault};
pub use stream::{Sink, Source, StartFault};
