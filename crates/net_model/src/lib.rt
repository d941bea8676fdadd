//! The network model: links, routes, rules and the settings of DNS, the calls that change them, and what a network is.
#![tactic(auto)]

// Addresses, prefixes and subnets.
mod address;
// The calls of the kernel.
mod call;
// The settings of DNS.
mod dns;
// DNS search domains.
mod domain;
// Why lists make no network.
mod fault;
// Numbers of routing tables and of VLANs.
mod id;
// The limits of a network and of its parts.
mod limits;
// Links and their kinds.
mod link;
// Hardware addresses.
mod mac;
// Names of links.
mod name;
// What bonds, bridges and their ports are set to.
mod options;
// Where something stands in a list of a network, or where it belongs.
mod position;
// Routes.
mod route;
// The key of a route, by which routes are ordered.
mod route_key;
// Rules that choose the routing table of a packet.
mod rule;

pub use address::{Addr, Prefix, Subnet, max_len};
pub use base_model::{Items, OutOfMemory, Path, PathStep, Str};
pub use call::Call;
pub use dns::Dns;
pub use domain::Domain;
pub use fault::NetFault;
pub use id::{TableId, VlanId};
pub use limits::{
    DEFAULT_MTU, MAX_ADDRESSES, MAX_DOMAIN_LEN, MAX_LINK_ADDRESSES, MAX_LINKS, MAX_MTU,
    MAX_NAME_LEN, MAX_ROUTES, MAX_RULES, MAX_SEARCH, MAX_SERVERS, MAX_VLAN_ID, MIN_MTU,
};
pub use link::{Kind, Link};
pub use mac::Mac;
pub use name::Name;
pub use options::{BondMode, BondOpts, BridgeOpts, HashPolicy, LacpRate, PortOpts, Proto};
pub use position::Position;
pub use route::Route;
pub use route_key::RouteKey;
pub use rule::{Rule, Target};
