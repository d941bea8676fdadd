//! The connected subnets of links, to find whether one of them holds a gateway.
ghost use Rattle.std.specs.Prelude.{◌≡◌, ◌++◌, ◌∷◌, ◌/◌, ◌^◌, ◌≤◌, [], List, true, IfOk, OnOk};
ghost use Rattle.std.specs.List.{list_any, flat_map};
ghost use Rattle.std.specs.BTreeSet.{contains, Updates};
ghost use Rattle.net_model.specs.OnLink.{holds};
ghost use Rattle.net_model.specs.Links.{named_passes};
ghost use Rattle.route_merge.specs.Connected.{Connected, connected, connected_of, connected_cmp, alike, narrowed, HasLengths, HasConnected};

use net_model::{Addr, Link, Name, max_len};
use std::alloc::{AllocError, Global};
use std::collections::BTreeSet;
use std::marker::Model;

// A device, the family of an address, the length of its prefix, and its leading bits.
type Connected = (Name, bool, u8, u128);

// The bits above the lowest `host` of them.
fn leading_bits(bits: u128, host: u8) -> u128
    requires { host ≤ 128 }
    ensures { result ≡ bits / 2 ^ host }
{
    if host == 128 { 0 } else { bits >> host }
}

// The subnet of this length that the address is in, at this device.
fn connected(dev: &Name, addr: Addr, len: u8) -> Connected
    ensures { result ≡ connected dev.now addr len }
{
    let host = max_len(addr.is_v6()).saturating_sub(len);
    (*dev, addr.is_v6(), len, leading_bits(addr.bits(), host))
}

fn connected_of(alloc: Global, link: &Link) -> Result<Vec<Connected>, AllocError>
    ensures { IfOk result (λ subnets. subnets.items ≡ connected_of link.now) }
{
    link.addrs
        .items()
        .iter()
        .map(|prefix| connected(&link.name, prefix.addr(), prefix.len()))
        .collect(alloc)
}

// The subnets of all addresses, each at its device.
fn all_connected(alloc: Global, links: &[Link]) -> Result<Vec<Connected>, AllocError>
    ensures { IfOk result (λ subnets. subnets.items ≡ flat_map connected_of links.now) }
{
    let mut subnets = Vec::new(alloc);
    for link in links {
        let own = connected_of(alloc, link)?;
        subnets.extend_from_slice(&own)?;
    }
    Ok(subnets)
}

// Whether both have the same length.
fn alike(a: &Connected, b: &Connected) -> bool
    ensures { result ≡ alike a.now b.now }
{
    a.2 == b.2
}

fn has_length(lengths: &[Connected], subnet: &Connected) -> bool
    ensures { result ≡ list_any (λ s. alike s subnet.now) lengths.now }
{
    lengths.iter().any(|other| alike(other, subnet))
}

// One more, unless one of the same length is there.
#[tactic(auto, using(crate::proofs::ConnectedSubnets::length_pushed))]
fn push_length(lengths: &mut Vec<Connected>, subnet: &Connected) -> Result<(), AllocError>
    ensures { OnOk result ((ks : List Connected) → HasLengths lengths.old.items ks → HasLengths lengths.new.items (ks ++ subnet.now ∷ [])) }
{
    if has_length(lengths, subnet) {
        return Ok(());
    }
    lengths.push(*subnet)?;
    Ok(())
}

fn insert(set: &mut BTreeSet<Connected>, subnet: Connected) -> Result<(), AllocError>
    ensures { OnOk result (Updates connected_cmp set.old set.new subnet true) }
{
    set.insert(subnet)?;
    Ok(())
}

#[tactic(auto, using(crate::proofs::ConnectedSubnets::one_connected_more))]
fn push_connected(set: &mut BTreeSet<Connected>, subnet: &Connected) -> Result<(), AllocError>
    ensures { OnOk result ((ks : List Connected) → HasConnected set.old ks → HasConnected set.new (ks ++ subnet.now ∷ [])) }
{
    insert(set, *subnet)
}

// The subnet of the gateway that is as long as this one.
fn narrowed(length: &Connected, dev: &Name, gateway: Addr) -> Connected
    ensures { result ≡ narrowed length.now (dev.now, gateway) }
{
    connected(dev, gateway, length.2)
}

fn holds_any(lengths: &[Connected], set: &BTreeSet<Connected>, dev: &Name, gateway: Addr) -> bool
    ensures { result ≡ list_any (λ s. contains connected_cmp set.now (narrowed s (dev.now, gateway))) lengths.now }
{
    lengths
        .iter()
        .any(|length| set.contains(&narrowed(length, dev, gateway)))
}

/// Links with the connected subnets of all their addresses: a subnet of each length that is there, and a set of all. A
/// gateway is looked up once for each length.
#[derive(Drop)]
pub(crate) struct ConnectedSubnets<'a> {
    links: &'a [Link],
    lengths: Vec<Connected>,
    subnets: BTreeSet<Connected>,
}

impl<'a> Model for ConnectedSubnets<'a> {
    ghost use Rattle.std.specs.Prelude.{List};
    ghost use Rattle.std.specs.List.{flat_map};
    ghost use Rattle.net_model.specs.declared.Link.{Link};
    ghost use Rattle.route_merge.specs.Connected.{connected_of, HasLengths, HasConnected};

    ghost Value = { List Link };

    ghost view = { λ c. c.links.now };

    ghost invariant = { λ c. HasLengths c.lengths.items (flat_map connected_of c.links.now) × HasConnected c.subnets (flat_map connected_of c.links.now) };
}

impl<'a> ConnectedSubnets<'a> {
    /// The links with their index. The error is that memory is out.
    pub(crate) fn of(alloc: Global, links: &'a [Link]) -> Result<ConnectedSubnets<'a>, AllocError>
        ensures { IfOk result (λ connected. connected ≡ links.now) }
    {
        let all = all_connected(alloc, links)?;
        let mut lengths = Vec::new(alloc);
        let mut subnets = BTreeSet::new(alloc);
        for subnet in &all {
            push_length(&mut lengths, subnet)?;
            push_connected(&mut subnets, subnet)?;
        }
        Ok(ConnectedSubnets {
            links,
            lengths,
            subnets,
        })
    }

    /// Whether an address of the link of this name has the gateway in its subnet.
    pub(crate) fn hold(&self, dev: &Name, gateway: Addr) -> bool
        ensures { result ≡ named_passes (λ l. list_any (λ b. holds b gateway) l.addrs) self.now dev.now }
    {
        holds_any(&self.lengths, &self.subnets, dev, gateway)
    }
}
