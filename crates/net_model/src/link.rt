//! Links and their kinds.

use crate::address::Prefix;
use crate::id::{TableId, VlanId};
use crate::mac::Mac;
use crate::name::Name;
use crate::options::{BondMode, BondOpts, BridgeOpts, PortOpts, Proto};
use base_model::Items;

/// What a link is.
#[derive(Clone, Copy, PartialEq, Eq)]
pub enum Kind {
    /// A device with the MAC that it was built with.
    Ethernet {
        permanent: Mac,
    },
    Bond {
        mode: BondMode,
    },
    Bridge,
    /// The frames of a link that carry one tag.
    Vlan {
        base: Name,
        id: VlanId,
        proto: Proto,
    },
    /// A routing domain with its own table.
    Vrf {
        table: TableId,
    },
    /// A device that stands for itself alone: what is sent over it goes nowhere.
    Dummy,
    /// One end of a pair: what is sent over it comes in at the other end.
    Veth {
        peer: Name,
    },
}

/// A link with all its settings; those that its kind or controller doesn't use have their defaults in a valid network.
#[derive(Clone, Drop)]
pub struct Link {
    pub name: Name,
    pub kind: Kind,
    pub up: bool,
    /// The longest packet in bytes, without the link's own header.
    pub mtu: u32,
    pub mac: Mac,
    /// The bond, bridge or VRF that has the link as a port.
    pub controller: Option<Name>,
    pub bond: BondOpts,
    pub bridge: BridgeOpts,
    pub port: PortOpts,
    pub addrs: Items<Prefix>,
}
