//! The tree of a network.
ghost use Rattle.std.specs.Prelude.{◌≡◌, ◌≤◌, true, not, ◌&&◌, ◌==◌, ◌++◌, codes, IfOk, option_map, filter};
ghost use Rattle.doc_tree.specs.Shape.{Shape, shape, is_distinct, has_short_lists, levels};
ghost use Rattle.doc_tree.specs.declared.limits.TheConstants.{MAX_LEVELS};
ghost use Rattle.net_model.specs.Links.{is_named};
ghost use Rattle.show_core.specs.Fields.{Fields, fields, field, each};
ghost use Rattle.show_core.specs.Pairs.{Holds, IsTree};
ghost use Rattle.show_core.specs.Links.{link_tree};
ghost use Rattle.show_core.specs.Network.{route_tree, target_fields, marked, rule_tree, dns_tree, running, whole_tree, named_tree, network_tree};

use crate::links::link_tree;
use crate::pairs::Pairs;
use crate::values::{Shown, each, subnet_tree};
use doc_tree::Tree;
use net_core::Net;
use net_model::{Dns, Link, OutOfMemory, Route, Rule, Target};
use net_text::family_word;
use std::alloc::Global;

fn route_tree(alloc: Global, route: &Route) -> Result<Tree, OutOfMemory>
    ensures { IfOk result (λ tree. shape tree ≡ route_tree route.now) }
{
    Pairs::new(alloc)
        .put("destination", subnet_tree(alloc, route.dest))
        .put_name("next-hop-interface", &route.dev)
        .put_some_address("next-hop-address", route.gateway)
        .put_number("metric", route.metric)
        .put_number("table-id", route.table.id())
        .into_tree()
}

impl Shown for Route {
    ghost use Rattle.show_core.specs.Network.{route_tree};

    ghost tree = { route_tree };

    fn show(&self, alloc: Global) -> Result<Tree, OutOfMemory> {
        route_tree(alloc, self)
    }
}

fn is_marked(mark: u32, mask: u32) -> bool
    ensures { result ≡ not ((mark == 0) && (mask == 0)) }
{
    mark != 0 || mask != 0
}

// Mark and mask, unless both are 0.
fn put_mark(mark: u32, mask: u32, pairs: Pairs) -> Pairs
    ensures { (held : Fields) → Holds held pairs → Holds (held ++ marked mark mask) result }
{
    if is_marked(mark, mask) {
        pairs.put_number("fwmark", mark).put_number("fwmask", mask)
    } else {
        pairs
    }
}

fn put_target(target: Target, pairs: Pairs) -> Pairs
    ensures { (held : Fields) → Holds held pairs → Holds (held ++ target_fields target) result }
{
    match target {
        Target::Table(table) => pairs.put_number("route-table", table.id()),
        Target::Blackhole => pairs.put_word("action", "blackhole"),
        Target::Unreachable => pairs.put_word("action", "unreachable"),
        Target::Prohibit => pairs.put_word("action", "prohibit"),
    }
}

fn rule_tree(alloc: Global, rule: &Rule) -> Result<Tree, OutOfMemory>
    ensures { IfOk result (λ tree. shape tree ≡ rule_tree rule.now) }
{
    let pairs = Pairs::new(alloc)
        .put_number("priority", rule.priority)
        .put_word("family", family_word(rule.v6))
        .put_some_subnet("ip-from", rule.src)
        .put_some_subnet("ip-to", rule.dst)
        .put_some_name("iif", &rule.iif);
    let pairs = put_mark(rule.mark, rule.mask, pairs);
    put_target(rule.target, pairs).into_tree()
}

impl Shown for Rule {
    ghost use Rattle.show_core.specs.Network.{rule_tree};

    ghost tree = { rule_tree };

    fn show(&self, alloc: Global) -> Result<Tree, OutOfMemory> {
        rule_tree(alloc, self)
    }
}

fn dns_tree(alloc: Global, dns: &Dns) -> Result<Tree, OutOfMemory>
    ensures { IfOk result (λ tree. shape tree ≡ dns_tree dns.now) }
{
    Pairs::new(alloc)
        .put("server", each(alloc, dns.servers.items()))
        .put("search", each(alloc, dns.search.items()))
        .into_tree()
}

// What is running, and what is configured.
fn running(
    alloc: Global,
    first: Result<Tree, OutOfMemory>,
    second: Result<Tree, OutOfMemory>,
) -> Result<Tree, OutOfMemory>
    ensures { (form : Shape) → IsTree form first → IsTree form second → IsTree (running form) result }
{
    Pairs::new(alloc)
        .put("running", first)
        .put("config", second)
        .into_tree()
}

fn dns_section(alloc: Global, dns: &Dns) -> Result<Tree, OutOfMemory>
    ensures { IfOk result (λ tree. shape tree ≡ running (dns_tree dns.now)) }
{
    running(alloc, dns_tree(alloc, dns), dns_tree(alloc, dns))
}

fn rules_section(alloc: Global, rules: &[Rule]) -> Result<Tree, OutOfMemory>
    ensures { IfOk result (λ tree. shape tree ≡ fields (field (codes "config") (each rule_tree rules.now))) }
{
    Pairs::new(alloc)
        .put("config", each(alloc, rules))
        .into_tree()
}

fn routes_section(alloc: Global, routes: &[Route]) -> Result<Tree, OutOfMemory>
    ensures { IfOk result (λ tree. shape tree ≡ running (each route_tree routes.now)) }
{
    running(alloc, each(alloc, routes), each(alloc, routes))
}

fn all_links(alloc: Global, links: &[Link]) -> Result<Tree, OutOfMemory>
    ensures { IfOk result (λ tree. shape tree ≡ each (link_tree links.now) links.now) }
{
    let mut trees = Vec::new(alloc);
    for link in links {
        let tree = link_tree(alloc, links, link)?;
        trees.push(tree)?;
    }
    Ok(Tree::List(trees))
}

fn has_name(link: &Link, name: &[u8]) -> bool
    ensures { result ≡ is_named name.now link.now }
{
    link.name.as_bytes() == name
}

fn named_links(alloc: Global, links: &[Link], name: &[u8]) -> Result<Tree, OutOfMemory>
    ensures { IfOk result (λ tree. shape tree ≡ each (link_tree links.now) (filter (is_named name.now) links.now)) }
{
    let mut trees = Vec::new(alloc);
    for link in links {
        if has_name(link, name) {
            let tree = link_tree(alloc, links, link)?;
            trees.push(tree)?;
        }
    }
    Ok(Tree::List(trees))
}

fn whole_tree(alloc: Global, net: &Net) -> Result<Tree, OutOfMemory>
    ensures { IfOk result (λ tree. shape tree ≡ whole_tree net.now) }
{
    Pairs::new(alloc)
        .put("dns-resolver", dns_section(alloc, net.dns()))
        .put("route-rules", rules_section(alloc, net.rules()))
        .put("routes", routes_section(alloc, net.routes()))
        .put("interfaces", all_links(alloc, net.links()))
        .into_tree()
}

fn named_tree(alloc: Global, net: &Net, name: &[u8]) -> Result<Tree, OutOfMemory>
    ensures { IfOk result (λ tree. shape tree ≡ named_tree net.now name.now) }
{
    Pairs::new(alloc)
        .put("interfaces", named_links(alloc, net.links(), name))
        .into_tree()
}

/// The tree of a network as its state is printed, or of the link of this name alone, whose list is empty where no link
/// has the name. Writers of JSON and YAML take it: the keys of each map differ, each list is short, and there are no more
/// than [`MAX_LEVELS`](doc_tree::MAX_LEVELS) levels.
pub fn tree_of_net(alloc: Global, net: &Net, only: Option<&[u8]>) -> Result<Tree, OutOfMemory>
    ensures tree { IfOk result (λ tree. shape tree ≡ network_tree net.now (option_map (λ name. name.now) only.entry)) }
    ensures distinct { IfOk result (λ tree. is_distinct (shape tree) ≡ true) }
    ensures short { IfOk result (λ tree. has_short_lists (shape tree) ≡ true) }
    ensures depth { IfOk result (λ tree. levels (shape tree) ≤ MAX_LEVELS) }
{
    net.laws();
    match only {
        None => whole_tree(alloc, net),
        Some(name) => named_tree(alloc, net, name),
    }
}
