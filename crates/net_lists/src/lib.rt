//! Lists of links, routes and rules: what is found in them and where, and whether they are in order.
#![tactic(auto)]

// Finding links by name in lists that are sorted by name, and what kinds of links go together.
mod lookup;
// Which routes stay with the addresses of a link.
mod on_link;
// Whether lists are strictly sorted, as those of a network are.
mod order;
// Where something stands in a list of a network, or where it belongs, by binary search.
mod position;
// VLANs over one base with one protocol and number.
mod twins;
// The parts of validity that look at routes and rules.
mod valid_routes;

pub use lookup::{
    can_be_base, find_link, has_peer, is_bond, is_bond_or_bridge, is_bridge, is_ethernet,
    is_port_of, peer_of, ports_of, takes,
};
pub use on_link::{key_stays, stays_on_link};
pub use order::{each_in_order, links_in_order, routes_in_order, rules_in_order};
pub use position::{
    address_position, link_position, place_of, prefix_position, route_position, rule_position,
};
pub use twins::{add_vlan_keys, has_vlan, is_first_vlan, leave_out_seen, vlans_differ};
pub use valid_routes::{is_on_link, route_on_link, routes_stand, rules_differ};
