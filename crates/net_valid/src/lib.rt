//! What is valid of lists of links, part by part.
#![tactic(auto)]

// The graph of dependence: for each link, the places of those that it depends on.
mod graph;
// What was built into the machine.
mod hardware;
// The part of validity that looks at which link depends on which.
mod valid_dependence;
// The part of validity that looks at counts and at fields that aren't used.
mod valid_limits;
// The parts of validity that look at links: names, bases, controllers, MTUs and addresses.
mod valid_links;
// The part of validity that looks at options.
mod valid_options;
// The part of validity that looks at the two ends of each pair.
mod valid_peers;

pub use graph::arrows;
pub use hardware::same_devices;
pub use valid_dependence::no_cycle;
pub use valid_limits::{
    is_default_bond, is_default_bridge, is_default_port, links_fit, unused_default,
};
pub use valid_links::{
    addresses_fit, base_stands, bases_stand, bases_up, controllers_take, mtu_in_range, mtus_fit,
    names_differ, ports_without_addresses,
};
pub use valid_options::{bond_ok, bridge_in_range, options_fit, port_in_range};
pub use valid_peers::peers_stand;
