//! All that the program does with its words: a command, a service or a rollout, over what is handed in.
#![tactic(auto)]

// The numbers that what is promised takes from the code.
mod limits;
// The words of the program.
mod program;

pub use limits::limit_laws;
pub use program::run_program;
pub use top_model::{Cause, Report};
