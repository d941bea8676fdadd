//! The commands that the engine answers: a change is made, ended or taken back, or what is stored is checked.
#![tactic(auto)]

// The command that makes the change of a document.
mod apply;
// The command that makes the change that a policy wants.
mod policy_apply;
// The command that ends a change that waits.
mod commit;
// The command that takes back a change.
mod rollback;
// The command that takes back a change that is being made or is due.
mod recover;
// The command that says whether the commands can work with what is stored.
mod check;

pub use apply::{apply_cause, apply_run};
pub use check::check_run;
pub use commit::commit_run;
pub use policy_apply::apply_policy_run;
pub use recover::recover_run;
pub use rollback::rollback_run;
