//! The calls of the engine, over any host: a change is made, committed, tested, taken back.
#![tactic(auto)]

// Why a change that was begun didn't come to its end.
mod missed;
// A change from one network to another, behind a checkpoint.
mod attempting;
// The whole change: what is wanted, the attempt, and what follows where it fails.
mod applying;
// The end of a change that waits.
mod committing;
// The calls that begin a change, and end one that waits.
mod engine;

pub use engine::{apply, commit};
pub use engine_model::{
    Applied, ApplyFault, ApplyOpts, BackFault, CheckFault, Checked, CommitFault, Left, Recovered,
};
pub use engine_restore::{check, recover, rollback, settle};
