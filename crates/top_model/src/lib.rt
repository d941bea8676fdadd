//! What the top call answers, as definitions: what is asked of it, what each command answers and leaves, how an answer is
//! told, and what follows for a whole run.
#![tactic(auto)]

// What a command answers.
mod report;

pub use report::{Cause, DocFault, Report, Step};
