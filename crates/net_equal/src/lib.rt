//! Whether two networks are one, part by part. It takes no memory.
#![tactic(auto)]

ghost use Rattle.std.specs.Prelude.{◌≡◌, ◌↔◌, IsTrue};

use net_core::Net;
use net_model::{Addr, BondOpts, Dns, Domain, Link, Prefix, Route, Rule};

fn same_prefixes(a: &[Prefix], b: &[Prefix]) -> bool
    ensures { IsTrue result ↔ (a.now ≡ b.now) }
{
    a == b
}

fn same_addresses(a: &[Addr], b: &[Addr]) -> bool
    ensures { IsTrue result ↔ (a.now ≡ b.now) }
{
    a == b
}

fn same_domains(a: &[Domain], b: &[Domain]) -> bool
    ensures { IsTrue result ↔ (a.now ≡ b.now) }
{
    a == b
}

fn same_rules(a: &[Rule], b: &[Rule]) -> bool
    ensures { IsTrue result ↔ (a.now ≡ b.now) }
{
    a == b
}

/// Whether the settings of DNS are one, in one order.
pub fn same_dns(a: &Dns, b: &Dns) -> bool
    ensures { IsTrue result ↔ (a.now ≡ b.now) }
{
    same_addresses(a.servers.items(), b.servers.items())
        && same_domains(a.search.items(), b.search.items())
}

fn same_bond_choices(a: &BondOpts, b: &BondOpts) -> bool
    ensures { IsTrue result ↔ ((a.now.primary ≡ b.now.primary) × (a.now.lacp_rate ≡ b.now.lacp_rate) × (a.now.hash_policy ≡ b.now.hash_policy)) }
{
    a.primary == b.primary && a.lacp_rate == b.lacp_rate && a.hash_policy == b.hash_policy
}

fn same_bond_times(a: &BondOpts, b: &BondOpts) -> bool
    ensures { IsTrue result ↔ ((a.now.miimon ≡ b.now.miimon) × (a.now.updelay ≡ b.now.updelay) × (a.now.downdelay ≡ b.now.downdelay)) }
{
    a.miimon == b.miimon && a.updelay == b.updelay && a.downdelay == b.downdelay
}

fn same_bond(a: &BondOpts, b: &BondOpts) -> bool
    ensures { IsTrue result ↔ (a.now ≡ b.now) }
{
    same_bond_choices(a, b) && same_bond_times(a, b)
}

fn same_tie(a: &Link, b: &Link) -> bool
    ensures { IsTrue result ↔ ((a.now.name ≡ b.now.name) × (a.now.kind ≡ b.now.kind) × (a.now.controller ≡ b.now.controller)) }
{
    a.name == b.name && a.kind == b.kind && a.controller == b.controller
}

fn same_device(a: &Link, b: &Link) -> bool
    ensures { IsTrue result ↔ ((a.now.up ≡ b.now.up) × (a.now.mtu ≡ b.now.mtu) × (a.now.mac ≡ b.now.mac)) }
{
    a.up == b.up && a.mtu == b.mtu && a.mac == b.mac
}

fn same_options(a: &Link, b: &Link) -> bool
    ensures { IsTrue result ↔ ((a.now.bond ≡ b.now.bond) × (a.now.bridge ≡ b.now.bridge) × (a.now.port ≡ b.now.port)) }
{
    same_bond(&a.bond, &b.bond) && a.bridge == b.bridge && a.port == b.port
}

fn same_link(a: &Link, b: &Link) -> bool
    ensures { IsTrue result ↔ (a.now ≡ b.now) }
{
    same_tie(a, b)
        && same_device(a, b)
        && same_options(a, b)
        && same_prefixes(a.addrs.items(), b.addrs.items())
}

fn same_route_key(a: &Route, b: &Route) -> bool
    ensures { IsTrue result ↔ ((a.now.dest ≡ b.now.dest) × (a.now.table ≡ b.now.table) × (a.now.metric ≡ b.now.metric)) }
{
    a.dest == b.dest && a.table == b.table && a.metric == b.metric
}

fn same_way(a: &Route, b: &Route) -> bool
    ensures { IsTrue result ↔ ((a.now.gateway ≡ b.now.gateway) × (a.now.dev ≡ b.now.dev)) }
{
    a.gateway == b.gateway && a.dev == b.dev
}

fn same_route(a: &Route, b: &Route) -> bool
    ensures { IsTrue result ↔ (a.now ≡ b.now) }
{
    same_route_key(a, b) && same_way(a, b)
}

fn same_links(a: &[Link], b: &[Link]) -> bool
    ensures { IsTrue result ↔ (a.now ≡ b.now) }
{
    if a.len() != b.len() {
        return false;
    }
    for i in 0..a.len() {
        if !same_link(&a[i], &b[i]) {
            return false;
        }
    }
    true
}

fn same_routes(a: &[Route], b: &[Route]) -> bool
    ensures { IsTrue result ↔ (a.now ≡ b.now) }
{
    if a.len() != b.len() {
        return false;
    }
    for i in 0..a.len() {
        if !same_route(&a[i], &b[i]) {
            return false;
        }
    }
    true
}

/// Whether two networks are one.
pub fn same_net(a: &Net, b: &Net) -> bool
    ensures { IsTrue result ↔ (a.now ≡ b.now) }
{
    same_links(a.links(), b.links())
        && same_routes(a.routes(), b.routes())
        && same_rules(a.rules(), b.rules())
        && same_dns(a.dns(), b.dns())
}
