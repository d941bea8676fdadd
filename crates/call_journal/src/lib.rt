//! Kernel calls as bytes, and journals of calls.
#![tactic(auto)]

// Why bytes are no call, and no journal.
mod fault;
// What holds of calls as bytes, of journals and of kernel areas.
mod laws;
// The calls on links, behind their numbers.
mod link_call;
// Calls from their bytes.
mod read;
// The records of a journal.
mod record;
// Journals, carried out on a network.
mod replaying;
// The calls on addresses, routes, rules and DNS, behind their numbers.
mod rest_call;
// What the records of a journal weigh.
mod weight;
// Calls as bytes, appended to others.
mod write;

pub use base_model::OutOfMemory;
pub use fault::{RecordFault, ReplayFault};
pub use laws::{area_laws, call_laws, journal_laws};
pub use read::read_call;
pub use replaying::replay;
pub use weight::record_weight;
pub use write::write_call;
