//! Finding what a network holds by binary search: a route by its key, and an address on a link. Beside it the ranges of all
//! that a network holds.
#![tactic(auto)]

// Finding an address on a link.
mod address;
// The ranges of what a kernel call carries.
mod calls;
// The ranges of links.
mod link_ranges;
// What the small types say of their values, and of all values of a list.
mod ranged;
// The ranges of all that a network holds.
mod ranges;
// Finding a route by its key.
mod route;

pub use address::find_address;
pub use calls::{all_call_ranges, call_ranges};
pub use ranges::range_laws;
pub use route::find_route;
