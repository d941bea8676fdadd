//! The command `rollout`, from the FILE's name to the report: one document for many nodes.
#![tactic(auto)]

// What is taken before the first call on a node.
mod prepare;

// What is told besides the lines of the rollout.
mod telling;

// The command.
mod run;

pub use rollout_model::MAX_NODES;
pub use run::{ROLLOUT_TIMEOUT, run_rollout};
