//! What the words ask for: the command's order, with what was read for it: a document, a policy, a hardware list, a text of
//! calls, or a script.
//!
//! No call on the host is made here.
#![tactic(auto)]

// Reading an input.
mod input;
// Documents and hardware lists.
mod document;
// Texts of calls.
mod calls;
// Generated workloads, as they are read again where they are printed.
mod workload;
// Policies.
mod policies;
// The order of the words.
mod order;
// The document of a FILE that may be nothing else.
mod named;
// One line of a script.
mod line;
// The lines of a script.
mod script;

pub use document::{document_in, document_of};
pub use named::read_document;
pub use order::{Order, read_order};
pub use policies::policy_cause;
pub use script::{read_script, script_file, steps_of};
