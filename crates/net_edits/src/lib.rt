//! Edits of the lists of a network, as its calls make them.
#![tactic(auto)]

// Edits of the addresses of links, and how many these have.
mod address_edits;
// Edits of links alone.
mod link_edits;
// Edits of routes alone.
mod route_edits;

pub use address_edits::{count_all, count_without, counted, lower, put_address, remove_address};
pub use link_edits::{
    attach_named, detach_from, detach_named, free_links, insert_link, is_among, is_port, keep_links,
};
pub use route_edits::{insert_route, keep_on_link, position_of, remove_routes, same_route};
