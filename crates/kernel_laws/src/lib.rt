//! The laws of the kernel's step.
#![tactic(auto)]

// What is known of the kernel's step on every network.
mod laws;

pub use laws::step_laws;
