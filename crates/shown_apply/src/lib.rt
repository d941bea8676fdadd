//! That a printed state, read again and merged into the network that was printed, changes nothing.
#![tactic(auto)]

// The laws of a printed state that is read and merged again, for every network.
mod laws;

pub use laws::apply_laws;
