//! What is valid: the thirteen parts, asked one after another.
ghost use Rattle.std.specs.Prelude.{◌≡◌, ◌&&◌, true, IfOk};
ghost use Rattle.net_model.specs.Words.{rises};
ghost use Rattle.net_model.specs.Order.{link_cmp};
ghost use Rattle.net_model.specs.NetData.{AreSorted};
ghost use Rattle.net_model.specs.Valid.{least_broken, least_broken_after_cycles, counts_fit, limits_hold};

use crate::parts::Parts;
use base_model::OutOfMemory;
use net_lists::{routes_stand, rules_differ};
use net_model::{MAX_ROUTES, MAX_RULES, MAX_SEARCH, MAX_SERVERS};
use net_valid::{
    addresses_fit, bases_stand, bases_up, controllers_take, links_fit, mtus_fit, names_differ,
    no_cycle, options_fit, peers_stand, ports_without_addresses, unused_default,
};
use std::alloc::Global;

fn counts_fit(parts: &Parts) -> bool
    ensures { result ≡ counts_fit parts.now }
{
    links_fit(&parts.links)
        && parts.routes.len() <= MAX_ROUTES
        && parts.rules.len() <= MAX_RULES
        && parts.dns.servers.items().len() <= MAX_SERVERS
        && parts.dns.search.items().len() <= MAX_SEARCH
}

// Part 12.
fn limits_hold(parts: &Parts) -> bool
    requires { rises link_cmp parts.now.links ≡ true }
    ensures { result ≡ limits_hold parts.now }
{
    counts_fit(parts) && unused_default(&parts.links)
}

// The number of the least part of validity after the fourth that the lists break.
fn least_broken_after_cycles(parts: &Parts) -> Option<u8>
    requires sorted { AreSorted parts.now }
    requires rise { rises link_cmp parts.now.links ≡ true }
    ensures { result ≡ least_broken_after_cycles parts.now }
{
    let links = &parts.links;
    if !bases_up(links) {
        return Some(5);
    }
    if !mtus_fit(links) {
        return Some(6);
    }
    if !ports_without_addresses(links) {
        return Some(7);
    }
    if !addresses_fit(links) {
        return Some(8);
    }
    if !routes_stand(links, &parts.routes) {
        return Some(9);
    }
    if !rules_differ(&parts.rules) {
        return Some(10);
    }
    if !options_fit(links) {
        return Some(11);
    }
    if !limits_hold(parts) {
        return Some(12);
    }
    if !peers_stand(links) {
        return Some(13);
    }
    None
}

// The number of the least part of validity that the lists break.
pub(crate) fn least_broken(alloc: Global, parts: &Parts) -> Result<Option<u8>, OutOfMemory>
    requires { AreSorted parts.now }
    ensures { IfOk result (λ part. part ≡ least_broken parts.now) }
{
    let links = &parts.links;
    if !names_differ(links) {
        return Ok(Some(1));
    }
    if !bases_stand(alloc, links)? {
        return Ok(Some(2));
    }
    if !controllers_take(links) {
        return Ok(Some(3));
    }
    if !no_cycle(alloc, links)? {
        return Ok(Some(4));
    }
    Ok(least_broken_after_cycles(parts))
}
