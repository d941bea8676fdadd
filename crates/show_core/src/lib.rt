//! The state of a network as it is printed.
#![tactic(auto)]

// The tree of a link.
mod links;
// The tree of a network.
mod network;
// Maps of a tree, built pair by pair.
mod pairs;
// Trees of words, numbers, names and addresses, and of lists of them.
mod values;

pub use base_model::OutOfMemory;
pub use network::tree_of_net;
