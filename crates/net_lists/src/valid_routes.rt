//! The parts of validity that look at routes and rules.
ghost use Rattle.std.specs.Prelude.{◌≡◌, ◌&&◌, true, IsSorted};
ghost use Rattle.std.specs.List.{list_any, list_all};
ghost use Rattle.net_model.specs.Words.{rises};
ghost use Rattle.net_model.specs.Order.{link_cmp, route_cmp, rule_cmp};
ghost use Rattle.net_model.specs.OnLink.{holds, is_on_link};
ghost use Rattle.net_model.specs.Valid.{route_on_link, route_stands, routes_stand, keys_differ, rules_differ};

use crate::lookup::find_link;
use crate::order::{routes_in_order, rules_in_order};
use net_model::{Addr, Link, Prefix, Route, Rule};
use std::cmp::Ordering;

fn one_holds(addrs: &[Prefix], gateway: Addr) -> bool
    ensures { result ≡ list_any (λ b. holds b gateway) addrs.now }
{
    addrs.iter().any(|prefix| prefix.holds(gateway))
}

/// Whether a gateway to a destination of this family is on-link at a link with these addresses.
pub fn is_on_link(addrs: &[Prefix], v6: bool, gateway: Addr) -> bool
    ensures { result ≡ is_on_link addrs.now v6 gateway }
{
    gateway.is_v6() == v6 && (gateway.is_link_local() || one_holds(addrs, gateway))
}

/// Whether a route over this link has no gateway, or one that is on-link there.
pub fn route_on_link(link: &Link, route: &Route) -> bool
    ensures { result ≡ route_on_link link.now route.now }
{
    match route.gateway {
        Some(gateway) => is_on_link(link.addrs.items(), route.dest.is_v6(), gateway),
        None => true,
    }
}

#[tactic(auto, using(net_model::proofs::lemmas::Found::named_passes_found))]
fn route_stands(links: &[Link], route: &Route) -> bool
    requires { rises link_cmp links.now ≡ true }
    ensures { result ≡ route_stands links.now route.now }
{
    find_link(links, &route.dev).is_some_and(|link| link.up && route_on_link(link, route))
}

fn each_route_stands(links: &[Link], routes: &[Route]) -> bool
    requires { rises link_cmp links.now ≡ true }
    ensures { result ≡ list_all (route_stands links.now) routes.now }
{
    routes.iter().all(|route| route_stands(links, route))
}

// How routes are ordered: by destination, table and metric.
pub(crate) fn order_routes(a: &Route, b: &Route) -> Ordering
    ensures { result ≡ route_cmp a.now b.now }
{
    a.dest
        .cmp(&b.dest)
        .then(a.table.cmp(&b.table))
        .then(a.metric.cmp(&b.metric))
}

fn keys_differ(routes: &[Route]) -> bool
    requires { IsSorted route_cmp routes.now }
    ensures { result ≡ keys_differ routes.now }
{
    routes_in_order(routes)
}

/// Part 9, on sorted routes: whether each device is up and each gateway on-link, and keys differ.
pub fn routes_stand(links: &[Link], routes: &[Route]) -> bool
    requires links { rises link_cmp links.now ≡ true }
    requires routes { IsSorted route_cmp routes.now }
    ensures { result ≡ routes_stand links.now routes.now }
{
    each_route_stands(links, routes) && keys_differ(routes)
}

/// Part 10, on sorted rules: whether rules differ.
pub fn rules_differ(rules: &[Rule]) -> bool
    requires { IsSorted rule_cmp rules.now }
    ensures { result ≡ rules_differ rules.now }
{
    rules_in_order(rules)
}
