//! Whether lists are strictly sorted, as those of a network are.
ghost use Rattle.std.specs.Prelude.{◌≡◌};
ghost use Rattle.std.specs.List.{list_all};
ghost use Rattle.net_model.specs.Words.{rises, is_before_head};
ghost use Rattle.net_model.specs.Order.{block_cmp, link_cmp, route_cmp, rule_cmp};

use crate::valid_routes::order_routes;
use net_model::{Link, Prefix, Route, Rule};

fn is_link_before(link: &Link, rest: &[Link]) -> bool
    ensures { result ≡ is_before_head link_cmp link.now rest.now }
{
    match rest.first() {
        Some(next) => link.name < next.name,
        None => true,
    }
}

/// Whether links are strictly sorted by name.
pub fn links_in_order(links: &[Link]) -> bool
    ensures { result ≡ rises link_cmp links.now }
{
    let mut left = links;
    while let Some((link, rest)) = left.split_first() {
        if !is_link_before(link, rest) {
            return false;
        }
        left = rest;
    }
    true
}

fn is_prefix_before(prefix: &Prefix, rest: &[Prefix]) -> bool
    ensures { result ≡ is_before_head block_cmp prefix.now rest.now }
{
    match rest.first() {
        Some(next) => prefix.cmp(next).is_lt(),
        None => true,
    }
}

// Whether addresses are strictly sorted.
fn addresses_in_order(addrs: &[Prefix]) -> bool
    ensures { result ≡ rises block_cmp addrs.now }
{
    let mut left = addrs;
    while let Some((prefix, rest)) = left.split_first() {
        if !is_prefix_before(prefix, rest) {
            return false;
        }
        left = rest;
    }
    true
}

/// Whether the addresses of each link are strictly sorted.
pub fn each_in_order(links: &[Link]) -> bool
    ensures { result ≡ list_all (λ l. rises block_cmp l.addrs) links.now }
{
    links
        .iter()
        .all(|link| addresses_in_order(link.addrs.items()))
}

fn is_route_before(route: &Route, rest: &[Route]) -> bool
    ensures { result ≡ is_before_head route_cmp route.now rest.now }
{
    match rest.first() {
        Some(next) => order_routes(route, next).is_lt(),
        None => true,
    }
}

/// Whether routes are strictly sorted, by destination, table and metric.
pub fn routes_in_order(routes: &[Route]) -> bool
    ensures { result ≡ rises route_cmp routes.now }
{
    let mut left = routes;
    while let Some((route, rest)) = left.split_first() {
        if !is_route_before(route, rest) {
            return false;
        }
        left = rest;
    }
    true
}

fn is_rule_before(rule: &Rule, rest: &[Rule]) -> bool
    ensures { result ≡ is_before_head rule_cmp rule.now rest.now }
{
    match rest.first() {
        Some(next) => rule.cmp(next).is_lt(),
        None => true,
    }
}

/// Whether rules are strictly sorted, by all their fields.
pub fn rules_in_order(rules: &[Rule]) -> bool
    ensures { result ≡ rises rule_cmp rules.now }
{
    let mut left = rules;
    while let Some((rule, rest)) = left.split_first() {
        if !is_rule_before(rule, rest) {
            return false;
        }
        left = rest;
    }
    true
}
