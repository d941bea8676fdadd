//! Plans: the calls that lead from one network to another.
#![tactic(auto)]

// What a network has, by binary search.
mod has;
// The whole plan.
mod phases;
// Addresses, routes, rules and DNS that are missing.
mod put_on;
// Rules, routes and addresses that the target hasn't.
mod take_off;

pub use phases::plan;
