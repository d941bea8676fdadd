//! The commands that need no engine: those that look at the network and change nothing, and `init`, which makes one.
#![tactic(auto)]

// Looking at the network.
mod look;
// The command that prints the network.
mod show;
// The command that prints the calls of a change.
mod plan;
// The commands that evaluate a policy on the network as it is.
mod policy;
// The command that tries out calls.
mod simulate;
// The command that makes the first network.
mod init;

pub use init::init_run;
pub use plan::plan_run;
pub use policy::{plan_policy_run, policy_run};
pub use show::show_run;
pub use simulate::simulate_run;
