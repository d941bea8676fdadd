//! A run of a workload over a host.
#![tactic(auto)]

// The change of a document, and its taking back.
mod changing;
// What is counted of a network.
mod counts;
// The first network.
mod making;
// The number of calls of a plan.
mod planning;
// A run from its first network on, stage after stage.
mod running;
// A run.
mod whole;

pub use scenario_model::{Summary, WorkFault};
pub use whole::work;
