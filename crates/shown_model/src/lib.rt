//! The document that a printed state is.
#![tactic(auto)]
