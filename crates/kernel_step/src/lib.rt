//! The kernel's calls on a network, carried out in place.
#![tactic(auto)]

// Addresses that come and go.
mod addresses;
// Places in strictly sorted lists.
mod places;
// The refusals of calls on addresses, routes, rules and DNS.
mod refuse;
// Rules and DNS.
mod rest;
// Routes that come and go.
mod routes;
// One call on a network.
mod stepping;

pub use kernel_model::StepFault;
pub use stepping::{Kernel, step};
