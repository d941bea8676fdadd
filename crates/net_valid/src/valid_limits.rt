//! The part of validity that looks at counts and at fields that aren't used.
ghost use Rattle.std.specs.Prelude.{◌≡◌, ◌↔◌, ◌&&◌, ◌||◌, nat_le, true, length, IsTrue};
ghost use Rattle.std.specs.List.{list_all};
ghost use Rattle.net_model.specs.declared.limits.TheConstants.{MAX_ADDRESSES, MAX_LINK_ADDRESSES};
ghost use Rattle.net_model.specs.Words.{rises};
ghost use Rattle.net_model.specs.Order.{link_cmp};
ghost use Rattle.net_model.specs.Links.{is_bond, is_bridge};
ghost use Rattle.net_model.specs.Options.{default_bond, default_bridge, default_port, is_layer2, is_default_bond, is_default_bridge, is_default_port};
ghost use Rattle.net_model.specs.Valid.{address_count, links_fit, is_bridge_port, unused_default};

use crate::valid_options::is_fast;
use net_lists::{find_link, is_bond, is_bridge};
use net_model::{
    BondOpts, BridgeOpts, HashPolicy, Link, MAX_ADDRESSES, MAX_LINK_ADDRESSES, MAX_LINKS, PortOpts,
};

// Counts down from the limit, so that no sum is made which might not fit.
fn addresses_within(links: &[Link]) -> bool
    ensures { result ≡ nat_le (address_count links.now) MAX_ADDRESSES }
{
    let mut room = MAX_ADDRESSES;
    let mut left = links;
    while let Some((link, rest)) = left.split_first() {
        let count = link.addrs.items().len();
        if count > room {
            return false;
        }
        room -= count;
        left = rest;
    }
    true
}

fn each_within(links: &[Link]) -> bool
    ensures { result ≡ list_all (λ l. nat_le (length l.addrs) MAX_LINK_ADDRESSES) links.now }
{
    links
        .iter()
        .all(|link| link.addrs.items().len() <= MAX_LINK_ADDRESSES)
}

/// Whether there are few enough links and addresses.
pub fn links_fit(links: &[Link]) -> bool
    ensures { result ≡ links_fit links.now }
{
    links.len() <= MAX_LINKS && each_within(links) && addresses_within(links)
}

fn is_layer2(policy: HashPolicy) -> bool
    ensures { result ≡ is_layer2 policy }
{
    matches!(policy, HashPolicy::Layer2)
}

/// Whether these are the options of a new bond.
#[tactic(auto, using(net_model::proofs::lemmas::Same::default_bond_exact))]
pub fn is_default_bond(opts: &BondOpts) -> bool
    ensures test { result ≡ is_default_bond opts.now }
    ensures exact { IsTrue result ↔ (opts.now ≡ default_bond) }
{
    opts.primary.is_none()
        && !is_fast(opts.lacp_rate)
        && is_layer2(opts.hash_policy)
        && opts.miimon == 0
        && opts.updelay == 0
        && opts.downdelay == 0
}

/// Whether these are the options of a new bridge.
#[tactic(auto, using(net_model::proofs::lemmas::Same::default_bridge_exact))]
pub fn is_default_bridge(opts: &BridgeOpts) -> bool
    ensures test { result ≡ is_default_bridge opts.now }
    ensures exact { IsTrue result ↔ (opts.now ≡ default_bridge) }
{
    !opts.stp
        && opts.priority == 32768
        && opts.forward_delay == 15
        && opts.hello_time == 2
        && opts.max_age == 20
        && opts.mac_ageing == 300
}

/// Whether these are the options of a new port.
#[tactic(auto, using(net_model::proofs::lemmas::Same::default_port_exact))]
pub fn is_default_port(opts: &PortOpts) -> bool
    ensures test { result ≡ is_default_port opts.now }
    ensures exact { IsTrue result ↔ (opts.now ≡ default_port) }
{
    opts.cost == 100 && opts.priority == 32 && !opts.hairpin
}

#[tactic(auto, using(net_model::proofs::lemmas::Found::named_passes_found))]
fn is_bridge_port(links: &[Link], link: &Link) -> bool
    requires { rises link_cmp links.now ≡ true }
    ensures { result ≡ is_bridge_port links.now link.now }
{
    match &link.controller {
        Some(controller) => match find_link(links, controller) {
            Some(found) => is_bridge(&found.kind),
            None => false,
        },
        None => false,
    }
}

fn has_unused_defaults(links: &[Link], link: &Link) -> bool
    requires { rises link_cmp links.now ≡ true }
    ensures { result ≡ ((is_bond link.now.kind || is_default_bond link.now.bond)
        && (is_bridge link.now.kind || is_default_bridge link.now.bridge)
        && (is_bridge_port links.now link.now || is_default_port link.now.port)) }
{
    (is_bond(&link.kind) || is_default_bond(&link.bond))
        && (is_bridge(&link.kind) || is_default_bridge(&link.bridge))
        && (is_bridge_port(links, link) || is_default_port(&link.port))
}

/// Whether fields that the kind or the controller doesn't use have their defaults.
pub fn unused_default(links: &[Link]) -> bool
    requires { rises link_cmp links.now ≡ true }
    ensures { result ≡ unused_default links.now }
{
    links.iter().all(|link| has_unused_defaults(links, link))
}
