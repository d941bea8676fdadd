//! A network: its lists with their indexes, valid and in order.
#![tactic(auto)]

// A network.
mod net;
// The lists of a network that is taken apart, or not yet closed, with their indexes.
mod parts;
// The lists of a network, put in order.
mod sorting;
// What is valid: the thirteen parts, asked one after another.
mod valid;

pub use net::Net;
pub use parts::Parts;
