//! The parts of validity that look at links: names, bases, controllers, MTUs and addresses.
ghost use Rattle.std.specs.Prelude.{◌≡◌, ◌&&◌, ◌||◌, true, nat_le, IfOk, IsSorted};
ghost use Rattle.std.specs.List.{list_any};
ghost use Rattle.net_model.specs.Words.{rises, is_empty};
ghost use Rattle.net_model.specs.Order.{link_cmp};
ghost use Rattle.net_model.specs.Links.{can_be_base, takes, base_passes, controller_passes, is_bond_or_bridge};
ghost use Rattle.net_model.specs.Valid.{names_differ, each_base_stands, bases_stand, controllers_take, bases_up, mtu_in_range, mtus_fit, is_bond_or_bridge_port, ports_without_addresses, all_v4, same_address, addresses_differ, addresses_fit};

use net_lists::{can_be_base, find_link, is_bond_or_bridge, links_in_order, takes, vlans_differ};
use net_model::{Kind, Link, MAX_MTU, MIN_MTU, Prefix};
use std::alloc::{AllocError, Global};

/// Part 1, on links that are sorted by name: whether names differ. Where they do, the list rises.
pub fn names_differ(links: &[Link]) -> bool
    requires { IsSorted link_cmp links.now }
    ensures differ { result ≡ names_differ links.now }
    ensures rise { result ≡ rises link_cmp links.now }
{
    links_in_order(links)
}

/// Whether the base of a VLAN is there and may be one. A kind that is no VLAN passes. The links are sorted by name.
#[tactic(auto, using(net_model::proofs::lemmas::Found::named_passes_found))]
pub fn base_stands(links: &[Link], kind: &Kind) -> bool
    requires { rises link_cmp links.now ≡ true }
    ensures { result ≡ base_passes (λ b. can_be_base b.kind) links.now kind.now }
{
    match kind {
        Kind::Vlan { base, .. } => match find_link(links, base) {
            Some(link) => can_be_base(&link.kind),
            None => false,
        },
        _ => true,
    }
}

fn each_base_stands(links: &[Link]) -> bool
    requires { rises link_cmp links.now ≡ true }
    ensures { result ≡ each_base_stands links.now }
{
    links.iter().all(|link| base_stands(links, &link.kind))
}

/// Part 2: whether each base is there and can be one, and VLANs differ.
pub fn bases_stand(alloc: Global, links: &[Link]) -> Result<bool, AllocError>
    requires { rises link_cmp links.now ≡ true }
    ensures { IfOk result (λ stand. stand ≡ bases_stand links.now) }
{
    if !each_base_stands(links) {
        return Ok(false);
    }
    vlans_differ(alloc, links)
}

#[tactic(auto, using(net_model::proofs::lemmas::Found::named_passes_found))]
fn controller_takes(links: &[Link], link: &Link) -> bool
    requires { rises link_cmp links.now ≡ true }
    ensures { result ≡ controller_passes (λ c. takes c.kind link.now.kind) links.now link.now }
{
    match &link.controller {
        Some(controller) => match find_link(links, controller) {
            Some(found) => takes(&found.kind, &link.kind),
            None => false,
        },
        None => true,
    }
}

/// Part 3: whether each controller is there and takes its port's kind.
pub fn controllers_take(links: &[Link]) -> bool
    requires { rises link_cmp links.now ≡ true }
    ensures { result ≡ controllers_take links.now }
{
    links.iter().all(|link| controller_takes(links, link))
}

#[tactic(auto, using(net_model::proofs::lemmas::Found::named_passes_found))]
fn base_is_up(links: &[Link], kind: &Kind) -> bool
    requires { rises link_cmp links.now ≡ true }
    ensures { result ≡ base_passes (λ b. b.up) links.now kind.now }
{
    match kind {
        Kind::Vlan { base, .. } => match find_link(links, base) {
            Some(link) => link.up,
            None => false,
        },
        _ => true,
    }
}

/// Part 5: whether each VLAN that is up has a base that is up.
pub fn bases_up(links: &[Link]) -> bool
    requires { rises link_cmp links.now ≡ true }
    ensures { result ≡ bases_up links.now }
{
    links
        .iter()
        .all(|link| !link.up || base_is_up(links, &link.kind))
}

#[tactic(auto, using(net_model::proofs::lemmas::Found::named_passes_found))]
fn base_allows(links: &[Link], kind: &Kind, mtu: u32) -> bool
    requires { rises link_cmp links.now ≡ true }
    ensures { result ≡ base_passes (λ b. nat_le mtu b.mtu) links.now kind.now }
{
    match kind {
        Kind::Vlan { base, .. } => match find_link(links, base) {
            Some(link) => mtu <= link.mtu,
            None => false,
        },
        _ => true,
    }
}

/// Whether an MTU in bytes is from 68 to 65535.
pub fn mtu_in_range(mtu: u32) -> bool
    ensures { result ≡ mtu_in_range mtu }
{
    mtu >= MIN_MTU && mtu <= MAX_MTU
}

/// Part 6: whether each MTU is in range and at most the base's.
pub fn mtus_fit(links: &[Link]) -> bool
    requires { rises link_cmp links.now ≡ true }
    ensures { result ≡ mtus_fit links.now }
{
    links.iter().all(|link| mtu_in_range(link.mtu) && base_allows(links, &link.kind, link.mtu))
}

#[tactic(auto, using(net_model::proofs::lemmas::Found::named_passes_found))]
fn is_bond_or_bridge_port(links: &[Link], link: &Link) -> bool
    requires { rises link_cmp links.now ≡ true }
    ensures { result ≡ is_bond_or_bridge_port links.now link.now }
{
    match &link.controller {
        Some(controller) => match find_link(links, controller) {
            Some(found) => is_bond_or_bridge(&found.kind),
            None => false,
        },
        None => false,
    }
}

fn is_bare(link: &Link) -> bool
    ensures { result ≡ is_empty link.now.addrs }
{
    link.addrs.items().is_empty()
}

/// Part 7: whether no port of a bond or bridge has an address.
pub fn ports_without_addresses(links: &[Link]) -> bool
    requires { rises link_cmp links.now ≡ true }
    ensures { result ≡ ports_without_addresses links.now }
{
    links.iter().all(|link| !is_bond_or_bridge_port(links, link) || is_bare(link))
}

fn all_v4(addrs: &[Prefix]) -> bool
    ensures { result ≡ all_v4 addrs.now }
{
    addrs.iter().all(|prefix| !prefix.addr().is_v6())
}

fn has_address(addrs: &[Prefix], own: &Prefix) -> bool
    ensures { result ≡ list_any (λ b. same_address own.now.addr b.addr) addrs.now }
{
    addrs.iter().any(|prefix| own.addr() == prefix.addr())
}

fn addresses_differ(addrs: &[Prefix]) -> bool
    ensures { result ≡ addresses_differ addrs.now }
{
    let mut left = addrs;
    while let Some((prefix, rest)) = left.split_first() {
        if has_address(rest, prefix) {
            return false;
        }
        left = rest;
    }
    true
}

fn has_fit_addresses(link: &Link) -> bool
    ensures { result ≡ ((link.now.up || all_v4 link.now.addrs) && addresses_differ link.now.addrs) }
{
    let addrs = link.addrs.items();
    (link.up || all_v4(addrs)) && addresses_differ(addrs)
}

/// Part 8: whether IPv6 addresses stand only on links that are up, and no address stands twice on a link.
pub fn addresses_fit(links: &[Link]) -> bool
    ensures { result ≡ addresses_fit links.now }
{
    links.iter().all(|link| has_fit_addresses(link))
}
