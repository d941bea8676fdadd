//! What a network has, by binary search.
ghost use Rattle.std.specs.Prelude.{◌≡◌, true};
ghost use Rattle.std.specs.List.{list_any};
ghost use Rattle.net_model.specs.Words.{rises};
ghost use Rattle.net_model.specs.Order.{block_cmp};
ghost use Rattle.net_model.specs.Valid.{addresses_differ, same_block, same_rule};
ghost use Rattle.kernel_model.specs.Addresses.{has_block};
ghost use Rattle.net_model.specs.Edits.{same_route};
ghost use Rattle.plan_model.specs.Undisturbed.{has_route};
ghost use Rattle.plan_model.specs.Wants.{has_address};

use net_core::Net;
use net_lists::address_position;
use net_model::{Name, Position, Prefix, Route, Rule};

/// Whether the rule is there.
pub fn has_rule(net: &Net, rule: &Rule) -> bool
    ensures { result ≡ list_any (same_rule rule.now) net.now.rules }
{
    match net.rule_position(rule) {
        Position::At(_) => true,
        Position::Gap(_) => false,
    }
}

fn is_same_route(a: &Route, b: &Route) -> bool
    ensures { result ≡ same_route a.now b.now }
{
    a == b
}

/// Whether the route is there, with all its fields.
pub fn has_route(net: &Net, route: &Route) -> bool
    ensures { result ≡ has_route route.now net.now.routes }
{
    match net.route_position(route) {
        Position::At(i) => is_same_route(route, &net.routes()[i]),
        Position::Gap(_) => false,
    }
}

fn is_same_prefix(a: &Prefix, b: &Prefix) -> bool
    ensures { result ≡ same_block a.now b.now }
{
    a == b
}

/// Whether the prefix is among a link's addresses.
pub fn has_prefix(addrs: &[Prefix], prefix: &Prefix) -> bool
    requires in_order { rises block_cmp addrs.now ≡ true }
    requires differ { addresses_differ addrs.now ≡ true }
    ensures { result ≡ has_block prefix.now addrs.now }
{
    match address_position(addrs, prefix) {
        Position::At(i) => is_same_prefix(prefix, &addrs[i]),
        Position::Gap(_) => false,
    }
}

/// Whether the link of this name is there and has the prefix among its addresses.
pub fn has_address(net: &Net, name: &Name, prefix: &Prefix) -> bool
    ensures { result ≡ has_address net.now name.now prefix.now }
{
    net.laws();
    match net.link(name) {
        Some(link) => has_prefix(link.addrs.items(), prefix),
        None => false,
    }
}
