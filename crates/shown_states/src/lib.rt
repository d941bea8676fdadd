//! What the commands keep of each network that they leave: it is printed as a document that can be read.
#![tactic(auto)]

// The laws of the networks that the commands leave, for every order.
mod laws;

pub use laws::state_laws;
