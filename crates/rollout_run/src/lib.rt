//! A whole rollout: steps at the moments of a clock until nothing is left to be done, and a line for each event.
#![tactic(auto)]

// The lines of events, and the one at the end.
mod lines;

// What is printed, line by line.
mod printing;

// The steps, from the first to the last.
mod roll;

pub use printing::Printed;
pub use roll::{Ended, roll_out};
