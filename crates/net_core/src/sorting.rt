//! The lists of a network, put in order.
ghost use Rattle.std.specs.Prelude.{◌≡◌, IfOk, OnOk, map, IsPermutation, IsSorted};
ghost use Rattle.net_model.specs.Words.{sorted};
ghost use Rattle.net_model.specs.Order.{block_cmp, link_cmp, route_cmp, rule_cmp};
ghost use Rattle.net_model.specs.NetData.{net_of, arranged, IsSorting};

use crate::parts::Parts;
use base_model::{Items, OutOfMemory};
use net_model::{Dns, Link, Prefix, Route, Rule};
use std::alloc::{AllocError, Global};

fn sort_addresses(addrs: &mut Vec<Prefix>) -> Result<(), AllocError>
    ensures sorted { OnOk result (IsSorted block_cmp addrs.new.items) }
    ensures moved { IsPermutation addrs.old.items addrs.new.items }
{
    addrs.sort()
}

fn sorted_addresses(addrs: Items<Prefix>) -> Result<Items<Prefix>, AllocError>
    ensures { IfOk result (λ in_order. in_order ≡ sorted block_cmp addrs) }
{
    let mut addrs = addrs.into_vec();
    sort_addresses(&mut addrs)?;
    Ok(Items::of(addrs))
}

fn arranged(link: Link) -> Result<Link, AllocError>
    ensures { IfOk result (λ l. l ≡ arranged link) }
{
    let Link {
        name,
        kind,
        up,
        mtu,
        mac,
        controller,
        bond,
        bridge,
        port,
        addrs,
    } = link;
    let addrs = sorted_addresses(addrs)?;
    Ok(Link {
        name,
        kind,
        up,
        mtu,
        mac,
        controller,
        bond,
        bridge,
        port,
        addrs,
    })
}

// The links, each with its addresses in order.
fn each_arranged(alloc: Global, links: Vec<Link>) -> Result<Vec<Link>, AllocError>
    ensures { IfOk result (λ done. done.items ≡ map arranged links.items) }
{
    let mut done = Vec::new(alloc);
    for link in links {
        done.push(arranged(link)?)?;
    }
    Ok(done)
}

fn sort_links(links: &mut Vec<Link>) -> Result<(), AllocError>
    ensures sorted { OnOk result (IsSorted link_cmp links.new.items) }
    ensures moved { IsPermutation links.old.items links.new.items }
{
    links.sort_by_key(|link| link.name)
}

fn sort_routes(routes: &mut Vec<Route>) -> Result<(), AllocError>
    ensures sorted { OnOk result (IsSorted route_cmp routes.new.items) }
    ensures moved { IsPermutation routes.old.items routes.new.items }
{
    routes.sort_by_key(|route| (route.dest, route.table, route.metric))
}

fn sort_rules(rules: &mut Vec<Rule>) -> Result<(), AllocError>
    ensures sorted { OnOk result (IsSorted rule_cmp rules.new.items) }
    ensures moved { IsPermutation rules.old.items rules.new.items }
{
    rules.sort()
}

// The lists, each sorted, but for those of DNS.
pub(crate) fn sorted_parts(
    alloc: Global,
    links: Vec<Link>,
    mut routes: Vec<Route>,
    mut rules: Vec<Rule>,
    dns: Dns,
) -> Result<Parts, OutOfMemory>
    ensures { IfOk result (λ parts. IsSorting (net_of links.items routes.items rules.items dns) parts) }
{
    let mut links = each_arranged(alloc, links)?;
    sort_links(&mut links)?;
    sort_routes(&mut routes)?;
    sort_rules(&mut rules)?;
    Parts::of(alloc, links, routes, rules, dns)
}
