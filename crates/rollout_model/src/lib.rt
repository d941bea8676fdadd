//! How one change is rolled out over many nodes: the states of a node, what each event does, what is done next, and what
//! holds after every list of events.
#![tactic(auto)]

// The states of a node, what happens to it, and what is done with it.
mod node;

// What each event does to its node.
mod table;

// A rollout: what it was told, and what is done next.
mod rollout;

// The laws of every list of events.
mod laws;

pub use laws::rollout_laws;
pub use node::{Action, Event, NodeState};
pub use rollout::{Core, MAX_NODES};
