//! Where something stands in a list of a network, or where it belongs, by binary search.
ghost use Rattle.std.specs.Prelude.{◌≡◌, true};
ghost use Rattle.net_model.specs.Words.{rises};
ghost use Rattle.net_model.specs.Order.{address_cmp, block_cmp, link_cmp, route_cmp, rule_cmp};
ghost use Rattle.net_model.specs.Positions.{LinkPosition, Located, Places};
ghost use Rattle.net_model.specs.Valid.{addresses_differ, same_address, same_block, same_key, same_rule};

use crate::valid_routes::order_routes;
use net_model::{Link, Name, Position, Prefix, Route, Rule};
use std::cmp::Ordering;

/// The place of the link of a name, in links that are sorted by name.
pub fn link_position(links: &[Link], name: &Name) -> Position
    requires { rises link_cmp links.now ≡ true }
    ensures { LinkPosition result name.now links.now }
{
    match links.binary_search_by_key(name, |link| link.name) {
        Ok(i) => Position::At(i),
        Err(i) => Position::Gap(i),
    }
}

/// The place of the link of a name, or `None` where no link has it, in links that are sorted by name.
pub fn place_of(links: &[Link], name: &Name) -> Option<usize>
    requires { rises link_cmp links.now ≡ true }
    ensures { Places result name.now links.now }
{
    match link_position(links, name) {
        Position::At(i) => Some(i),
        Position::Gap(_) => None,
    }
}

/// The place of the route with this one's destination, table and metric, in routes that are sorted by these.
pub fn route_position(routes: &[Route], route: &Route) -> Position
    requires { rises route_cmp routes.now ≡ true }
    ensures { Located same_key route_cmp result route.now routes.now }
{
    match routes.binary_search_by(|other| order_routes(other, route)) {
        Ok(i) => Position::At(i),
        Err(i) => Position::Gap(i),
    }
}

/// The place of a rule, in rules that are sorted by all their fields.
pub fn rule_position(rules: &[Rule], rule: &Rule) -> Position
    requires { rises rule_cmp rules.now ≡ true }
    ensures { Located same_rule rule_cmp result rule.now rules.now }
{
    match rules.binary_search(rule) {
        Ok(i) => Position::At(i),
        Err(i) => Position::Gap(i),
    }
}

fn order_addresses(a: &Prefix, b: &Prefix) -> Ordering
    ensures { result ≡ address_cmp a.now.addr b.now.addr }
{
    a.addr().cmp(&b.addr())
}

/// The place of the prefix with this one's address, whatever its length, in a link's addresses.
pub fn address_position(addrs: &[Prefix], prefix: &Prefix) -> Position
    requires in_order { rises block_cmp addrs.now ≡ true }
    requires differ { addresses_differ addrs.now ≡ true }
    ensures { Located (λ a b. same_address a.addr b.addr) block_cmp result prefix.now addrs.now }
{
    match addrs.binary_search_by(|other| order_addresses(other, prefix)) {
        Ok(i) => Position::At(i),
        Err(i) => Position::Gap(i),
    }
}

/// The place of a prefix, with its length, in prefixes that are sorted.
pub fn prefix_position(addrs: &[Prefix], prefix: &Prefix) -> Position
    requires { rises block_cmp addrs.now ≡ true }
    ensures { Located same_block block_cmp result prefix.now addrs.now }
{
    match addrs.binary_search(prefix) {
        Ok(i) => Position::At(i),
        Err(i) => Position::Gap(i),
    }
}
