//! Finding links by name in lists that are sorted by name, and what kinds of links go together.
ghost use Rattle.std.specs.Prelude.{◌≡◌, true, option_copied, IfOk};
ghost use Rattle.net_model.specs.Words.{rises};
ghost use Rattle.net_model.specs.Order.{link_cmp};
ghost use Rattle.net_model.specs.Dependence.{has_base};
ghost use Rattle.net_model.specs.Links.{find_link, can_be_base, takes, is_bond, is_bridge, is_bond_or_bridge, is_ethernet, peer_of, has_peer, is_port_of, ports_of};

use net_model::{Kind, Link, Name};
use std::alloc::{AllocError, Global};

/// The link of a name, by binary search, or `None` where no link has it. The links are sorted by name.
pub fn find_link<'a>(links: &'a [Link], name: &Name) -> Option<&'a Link>
    requires { rises link_cmp links.now ≡ true }
    ensures { option_copied result ≡ find_link name.now links.now }
{
    match links.binary_search_by_key(name, |link| link.name) {
        Ok(i) => Some(&links[i]),
        Err(_) => None,
    }
}

/// Whether a VLAN may have a link of this kind as base: all but VRFs.
pub fn can_be_base(kind: &Kind) -> bool
    ensures { result ≡ can_be_base kind.now }
{
    match kind {
        Kind::Vrf { .. } => false,
        _ => true,
    }
}

/// Whether the kind is a bond.
pub fn is_bond(kind: &Kind) -> bool
    ensures { result ≡ is_bond kind.now }
{
    matches!(kind, Kind::Bond { .. })
}

/// Whether the kind is a bridge.
pub fn is_bridge(kind: &Kind) -> bool
    ensures { result ≡ is_bridge kind.now }
{
    matches!(kind, Kind::Bridge)
}

/// Whether the kind is a bond or a bridge.
pub fn is_bond_or_bridge(kind: &Kind) -> bool
    ensures { result ≡ is_bond_or_bridge kind.now }
{
    is_bond(kind) || is_bridge(kind)
}

/// Whether the kind is an Ethernet device.
pub fn is_ethernet(kind: &Kind) -> bool
    ensures { result ≡ is_ethernet kind.now }
{
    matches!(kind, Kind::Ethernet { .. })
}

/// Whether the kind is a VLAN over the named link.
pub fn has_base(kind: &Kind, name: &Name) -> bool
    ensures { result ≡ has_base kind.now name.now }
{
    match kind {
        Kind::Vlan { base, .. } => base == name,
        _ => false,
    }
}

/// The name of a veth's peer.
pub fn peer_of(kind: &Kind) -> Option<Name>
    ensures { result ≡ peer_of kind.now }
{
    match kind {
        Kind::Veth { peer } => Some(*peer),
        _ => None,
    }
}

/// Whether the kind is a veth with the named link as its peer.
pub fn has_peer(kind: &Kind, name: &Name) -> bool
    ensures { result ≡ has_peer kind.now name.now }
{
    match kind {
        Kind::Veth { peer } => peer == name,
        _ => false,
    }
}

/// Whether a controller of the first kind may have a port of the second: a bond Ethernet links, dummies and
/// veths; a bridge these, bonds and VLANs; a VRF all but VRFs.
pub fn takes(controller: &Kind, port: &Kind) -> bool
    ensures { result ≡ takes controller.now port.now }
{
    match controller {
        Kind::Bond { .. } => matches!(
            port,
            Kind::Ethernet { .. } | Kind::Dummy | Kind::Veth { .. }
        ),
        Kind::Bridge => !matches!(port, Kind::Bridge | Kind::Vrf { .. }),
        Kind::Vrf { .. } => !matches!(port, Kind::Vrf { .. }),
        _ => false,
    }
}

/// Whether the link is a port of this controller.
pub fn is_port_of(link: &Link, controller: &Name) -> bool
    ensures { result ≡ is_port_of controller.now link.now }
{
    match &link.controller {
        Some(own) => own == controller,
        None => false,
    }
}

/// The names of the controller's ports, in the order of the links.
pub fn ports_of(alloc: Global, links: &[Link], controller: &Name) -> Result<Vec<Name>, AllocError>
    ensures { IfOk result (λ ports. ports.items ≡ ports_of links.now controller.now) }
{
    links
        .iter()
        .filter(|link| is_port_of(link, controller))
        .map(|link| link.name)
        .collect(alloc)
}
