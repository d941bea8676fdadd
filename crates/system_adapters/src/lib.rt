//! The outside of the program as the system gives it: files and standard input as a source, the standard streams as sinks, a
//! folder of documents, and the clock. Each tells its count of faults alone. Beside them the folders that the words name, and
//! the taking of standard streams that are closed.
#![tactic(auto)]

// The system's clock.
mod clock;
// The files of a folder of documents.
mod folder;
// The standard streams as sinks.
mod sink;
// Files and standard input as a source.
mod source;
// The standard streams, taken where they are closed.
mod standard;
// The folders that the words name.
mod state;

pub use clock::SystemClock;
pub use folder::FileFolder;
pub use sink::{Stream, StreamSink};
pub use source::FileSource;
pub use standard::take_closed_streams;
pub use state::{node_folders, service_folder, take_folder};
