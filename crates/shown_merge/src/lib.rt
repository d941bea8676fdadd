//! What is known of merging the document that a printed state is into the network that was printed.
#![tactic(auto)]

// The laws of a printed state that is merged into its own network, for every network.
mod laws;

pub use laws::shown_laws;
