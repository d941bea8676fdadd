//! The ranges of links.
ghost use Rattle.net_search.specs.Ranges.{VlanRanges, KindRanges, BondRanges, BridgeRanges, PortRanges, LinkRanges};

use crate::ranged::{
    Ranged, all_ranges, mac_ranges, maybe_ranges, table_ranges, u8_range, u16_range, u32_range,
};
use net_model::{BondOpts, BridgeOpts, Kind, Link, Name, PortOpts, VlanId};

fn vlan_ranges(base: &Name, id: VlanId)
    ensures { VlanRanges base.now id }
{
    base.range_law();
    id.laws();
}

// What the kind holds.
pub(crate) fn kind_ranges(kind: Kind)
    ensures { KindRanges kind }
{
    match kind {
        Kind::Ethernet { permanent } => mac_ranges(permanent),
        Kind::Bond { mode: _ } => {}
        Kind::Bridge => {}
        Kind::Vlan { base, id, proto: _ } => vlan_ranges(&base, id),
        Kind::Vrf { table } => table_ranges(table),
        Kind::Dummy => {}
        Kind::Veth { peer } => peer.range_law(),
    }
}

pub(crate) fn bond_ranges(of: &BondOpts)
    ensures { BondRanges of.now }
{
    maybe_ranges(&of.primary);
    u32_range(of.miimon);
    u32_range(of.updelay);
    u32_range(of.downdelay);
}

pub(crate) fn bridge_ranges(of: &BridgeOpts)
    ensures { BridgeRanges of.now }
{
    u16_range(of.priority);
    u8_range(of.forward_delay);
    u8_range(of.hello_time);
    u8_range(of.max_age);
    u32_range(of.mac_ageing);
}

pub(crate) fn port_ranges(of: &PortOpts)
    ensures { PortRanges of.now }
{
    u16_range(of.cost);
    u8_range(of.priority);
}

fn link_ranges(link: &Link)
    ensures { LinkRanges link.now }
{
    link.name.range_law();
    kind_ranges(link.kind);
    u32_range(link.mtu);
    mac_ranges(link.mac);
    maybe_ranges(&link.controller);
    bond_ranges(&link.bond);
    bridge_ranges(&link.bridge);
    port_ranges(&link.port);
    all_ranges(link.addrs.items());
}

impl Ranged for Link {
    ghost use Rattle.net_search.specs.Ranges.{LinkRanges};

    ghost in_range = { LinkRanges };

    fn range_law(&self) {
        link_ranges(self);
    }
}
