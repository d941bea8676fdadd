//! The refusals of calls on addresses, routes, rules and DNS.
ghost use Rattle.std.specs.Prelude.{◌≡◌, ◌&&◌, ◌||◌, true, not, nat_le};
ghost use Rattle.net_model.specs.Words.{rises};
ghost use Rattle.net_model.specs.Order.{link_cmp};
ghost use Rattle.net_model.specs.Links.{named_passes, is_bond_or_bridge};
ghost use Rattle.net_model.specs.Valid.{is_bond_or_bridge_port, address_count, same_block, route_on_link};
ghost use Rattle.net_model.specs.declared.limits.TheConstants.{MAX_ADDRESSES, MAX_LINK_ADDRESSES};
ghost use Rattle.kernel_model.specs.Outcome.{first_true};
ghost use Rattle.kernel_model.specs.Words.{has_link, is_full};
ghost use Rattle.kernel_model.specs.Addresses.{has_address, has_block, add_address_refusals, del_address_refusals};
ghost use Rattle.kernel_model.specs.Routes.{add_route_refusals, del_route_refusals};
ghost use Rattle.kernel_model.specs.Rest.{add_rule_refusals, del_rule_refusals, set_dns_refusals};

use crate::places::{has_key, has_route, has_rule};
use kernel_model::refusal::{
    ADDRESS_EXISTS, BAD_GATEWAY, LIMIT, LINK_DOWN, NO_ADDRESS, NO_LINK, NO_ROUTE, NO_RULE,
    PORT_ADDRESS, ROUTE_EXISTS, RULE_EXISTS,
};
use link_step::has_link;
use net_core::Net;
use net_lists::{find_link, is_bond_or_bridge, route_on_link};
use net_model::{
    Dns, Link, MAX_ADDRESSES, MAX_LINK_ADDRESSES, MAX_ROUTES, MAX_RULES, MAX_SEARCH, MAX_SERVERS,
    Name, Prefix, Route, Rule,
};

#[tactic(auto, using(net_model::proofs::lemmas::Found::named_passes_found))]
fn is_named_bond_or_bridge(links: &[Link], name: &Name) -> bool
    requires { rises link_cmp links.now ≡ true }
    ensures { result ≡ named_passes (λ c. is_bond_or_bridge c.kind) links.now name.now }
{
    find_link(links, name).is_some_and(|link| is_bond_or_bridge(&link.kind))
}

fn has_bond_or_bridge(links: &[Link], link: &Link) -> bool
    requires { rises link_cmp links.now ≡ true }
    ensures { result ≡ is_bond_or_bridge_port links.now link.now }
{
    match &link.controller {
        Some(controller) => is_named_bond_or_bridge(links, controller),
        None => false,
    }
}

#[tactic(auto, using(net_model::proofs::lemmas::Found::named_passes_found))]
fn is_port(links: &[Link], name: &Name) -> bool
    requires { rises link_cmp links.now ≡ true }
    ensures { result ≡ named_passes (is_bond_or_bridge_port links.now) links.now name.now }
{
    find_link(links, name).is_some_and(|link| has_bond_or_bridge(links, link))
}

fn has_address(addrs: &[Prefix], addr: &Prefix) -> bool
    ensures { result ≡ has_address addr.now addrs.now }
{
    addrs.iter().any(|own| addr.addr() == own.addr())
}

#[tactic(auto, using(net_model::proofs::lemmas::Found::named_passes_found))]
fn link_has_address(links: &[Link], name: &Name, addr: &Prefix) -> bool
    requires { rises link_cmp links.now ≡ true }
    ensures { result ≡ named_passes (λ l. has_address addr.now l.addrs) links.now name.now }
{
    find_link(links, name).is_some_and(|link| has_address(link.addrs.items(), addr))
}

#[tactic(auto, using(net_model::proofs::lemmas::Found::named_passes_found))]
fn is_down(links: &[Link], name: &Name) -> bool
    requires { rises link_cmp links.now ≡ true }
    ensures { result ≡ named_passes (λ l. not l.up) links.now name.now }
{
    find_link(links, name).is_some_and(|link| !link.up)
}

#[tactic(auto, using(net_model::proofs::lemmas::Found::named_passes_found))]
fn link_is_full(links: &[Link], name: &Name) -> bool
    requires { rises link_cmp links.now ≡ true }
    ensures { result ≡ named_passes (λ l. is_full MAX_LINK_ADDRESSES l.addrs) links.now name.now }
{
    find_link(links, name).is_some_and(|link| link.addrs.items().len() >= MAX_LINK_ADDRESSES)
}

fn is_v6_on_down(links: &[Link], name: &Name, addr: &Prefix) -> bool
    requires { rises link_cmp links.now ≡ true }
    ensures { result ≡ (addr.now.addr.v6 && named_passes (λ l. not l.up) links.now name.now) }
{
    addr.addr().is_v6() && is_down(links, name)
}

fn has_no_room(net: &Net, name: &Name) -> bool
    ensures { result ≡ (named_passes (λ l. is_full MAX_LINK_ADDRESSES l.addrs) net.now.links name.now || nat_le MAX_ADDRESSES (address_count net.now.links)) }
{
    net.laws();
    link_is_full(net.links(), name) || net.address_count() >= MAX_ADDRESSES
}

pub(crate) fn add_address(net: &Net, name: &Name, addr: &Prefix) -> Option<u8>
    ensures { result ≡ first_true (add_address_refusals name.now addr.now net.now) }
{
    net.laws();
    let links = net.links();
    if !has_link(links, name) {
        return Some(NO_LINK);
    }
    if is_port(links, name) {
        return Some(PORT_ADDRESS);
    }
    if link_has_address(links, name, addr) {
        return Some(ADDRESS_EXISTS);
    }
    if is_v6_on_down(links, name, addr) {
        return Some(LINK_DOWN);
    }
    if has_no_room(net, name) {
        return Some(LIMIT);
    }
    None
}

fn same_block(a: &Prefix, b: &Prefix) -> bool
    ensures { result ≡ same_block a.now b.now }
{
    a.addr() == b.addr() && a.len() == b.len()
}

fn has_block(addrs: &[Prefix], addr: &Prefix) -> bool
    ensures { result ≡ has_block addr.now addrs.now }
{
    addrs.iter().any(|own| same_block(addr, own))
}

#[tactic(auto, using(net_model::proofs::lemmas::Found::named_passes_found))]
fn link_has_block(links: &[Link], name: &Name, addr: &Prefix) -> bool
    requires { rises link_cmp links.now ≡ true }
    ensures { result ≡ named_passes (λ l. has_block addr.now l.addrs) links.now name.now }
{
    find_link(links, name).is_some_and(|link| has_block(link.addrs.items(), addr))
}

pub(crate) fn del_address(net: &Net, name: &Name, addr: &Prefix) -> Option<u8>
    ensures { result ≡ first_true (del_address_refusals name.now addr.now net.now) }
{
    net.laws();
    let links = net.links();
    if !has_link(links, name) {
        return Some(NO_LINK);
    }
    if !link_has_block(links, name, addr) {
        return Some(NO_ADDRESS);
    }
    None
}

#[tactic(auto, using(net_model::proofs::lemmas::Found::named_passes_found))]
fn is_off_link(links: &[Link], route: &Route) -> bool
    requires { rises link_cmp links.now ≡ true }
    ensures { result ≡ named_passes (λ l. not (route_on_link l route.now)) links.now route.now.dev }
{
    find_link(links, &route.dev).is_some_and(|link| !route_on_link(link, route))
}

pub(crate) fn add_route(net: &Net, route: &Route) -> Option<u8>
    ensures { result ≡ first_true (add_route_refusals route.now net.now) }
{
    net.laws();
    let links = net.links();
    if !has_link(links, &route.dev) {
        return Some(NO_LINK);
    }
    if is_down(links, &route.dev) {
        return Some(LINK_DOWN);
    }
    if is_off_link(links, route) {
        return Some(BAD_GATEWAY);
    }
    if has_key(net.routes(), route) {
        return Some(ROUTE_EXISTS);
    }
    if net.routes().len() >= MAX_ROUTES {
        return Some(LIMIT);
    }
    None
}

pub(crate) fn del_route(net: &Net, route: &Route) -> Option<u8>
    ensures { result ≡ first_true (del_route_refusals route.now net.now) }
{
    net.laws();
    if !has_route(net.routes(), route) {
        return Some(NO_ROUTE);
    }
    None
}

pub(crate) fn add_rule(net: &Net, rule: &Rule) -> Option<u8>
    ensures { result ≡ first_true (add_rule_refusals rule.now net.now) }
{
    net.laws();
    if has_rule(net.rules(), rule) {
        return Some(RULE_EXISTS);
    }
    if net.rules().len() >= MAX_RULES {
        return Some(LIMIT);
    }
    None
}

pub(crate) fn del_rule(net: &Net, rule: &Rule) -> Option<u8>
    ensures { result ≡ first_true (del_rule_refusals rule.now net.now) }
{
    net.laws();
    if !has_rule(net.rules(), rule) {
        return Some(NO_RULE);
    }
    None
}

pub(crate) fn set_dns(dns: &Dns) -> Option<u8>
    ensures { result ≡ first_true (set_dns_refusals dns.now) }
{
    if dns.servers.items().len() > MAX_SERVERS || dns.search.items().len() > MAX_SEARCH {
        return Some(LIMIT);
    }
    None
}
