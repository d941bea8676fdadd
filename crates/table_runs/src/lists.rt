//! Lists of links, routes, rules, servers and search domains from words, parted by `; `: `link ..`, `route ..`,
//! `rule PRIORITY`, `server`, `domain NAME`. `N x ..` is N of them, each with its number for `#`.

use crate::links::link_of;
use crate::reading::{addr, name, number, prefix};
use case_table::{Text, first_word, parted, push_numbered};
use net_core::{Net, Parts};
use net_model::{Addr, Dns, Domain, Items, Link, NetFault, Route, Rule, Subnet, TableId, Target};
use std::alloc::Global;

/// The lists of a network.
pub struct Lists {
    links: Vec<Link>,
    routes: Vec<Route>,
    rules: Vec<Rule>,
    servers: Vec<Addr>,
    domains: Vec<Domain>,
}

// By hand, so that a proof sees one call where they are dropped, and not a step for each of them.
impl Drop for Lists {
    fn drop(self) {
        let Lists {
            links: _,
            routes: _,
            rules: _,
            servers: _,
            domains: _,
        } = self;
    }
}

fn set(route: &mut Route, key: &str, value: &str) -> Option<()> {
    match key {
        "dest" => route.dest = Subnet::of(prefix(value)?),
        "table" => route.table = TableId::of(number(value)?),
        "metric" => route.metric = number(value)?,
        "via" => route.gateway = Some(addr(value)?),
        "dev" => route.dev = name(value)?,
        _ => return None,
    }
    Some(())
}

// `dest=PREFIX table=N metric=N via=ADDRESS dev=NAME`, each where it isn't that of the default route by `eth1`.
fn route(words: &str) -> Option<Route> {
    let mut route = Route {
        dest: Subnet::of(prefix("0.0.0.0/0")?),
        table: TableId::of(0),
        metric: 0,
        gateway: None,
        dev: name("eth1")?,
    };
    for word in words.split_ascii_whitespace() {
        let (key, value) = parted(word, "=");
        set(&mut route, key, value)?;
    }
    Some(route)
}

/// A rule of this priority.
pub fn rule(priority: u32) -> Rule {
    Rule {
        priority,
        v6: false,
        src: None,
        dst: None,
        iif: None,
        mark: 0,
        mask: 0,
        target: Target::Blackhole,
    }
}

fn domain(alloc: Global, word: &str) -> Option<Domain> {
    Domain::of(Vec::from_slice(alloc, word.as_bytes()).ok()?)
}

impl Lists {
    fn none(alloc: Global) -> Lists {
        Lists {
            links: Vec::new(alloc),
            routes: Vec::new(alloc),
            rules: Vec::new(alloc),
            servers: Vec::new(alloc),
            domains: Vec::new(alloc),
        }
    }

    fn push(&mut self, alloc: Global, words: &str, number_of: u32) -> Option<()> {
        let (word, rest) = first_word(words);
        match word {
            "link" => self.links.push(link_of(alloc, rest)?).ok(),
            "route" => self.routes.push(route(rest)?).ok(),
            "rule" => self.rules.push(rule(number(rest)?)).ok(),
            "server" => self.servers.push(Addr::v4(number_of)).ok(),
            "domain" => self.domains.push(domain(alloc, rest)?).ok(),
            _ => None,
        }
    }

    fn push_times(&mut self, alloc: Global, times: u32, words: &str) -> Option<()> {
        for at in 0..times {
            let mut text = Text::new(alloc);
            push_numbered(words, b'#', u64::from(at), &mut text);
            self.push(alloc, text.as_str(), at)?;
        }
        Some(())
    }

    // `ITEM`, or `N x ITEM`.
    fn push_item(&mut self, alloc: Global, item: &str) -> Option<()> {
        match item.split_once(" x ") {
            Some((times, item)) => self.push_times(alloc, number(times)?, item),
            None => self.push(alloc, item, 0),
        }
    }

    fn push_items(&mut self, alloc: Global, items: &str) -> Option<()> {
        for item in items.split("; ") {
            self.push_item(alloc, item)?;
        }
        Some(())
    }

    /// The lists of words.
    pub fn of(alloc: Global, words: &str) -> Option<Lists> {
        let mut lists = Lists::none(alloc);
        if !words.is_empty() {
            lists.push_items(alloc, words)?;
        }
        Some(lists)
    }

    fn made(self, alloc: Global) -> Result<Net, NetFault> {
        let Lists {
            links,
            routes,
            rules,
            servers,
            domains,
        } = self;
        let dns = Dns {
            servers: Items::of(servers),
            search: Items::of(domains),
        };
        Net::new(alloc, links, routes, rules, dns)
    }

    /// The network of the lists.
    pub fn into_net(self, alloc: Global) -> Option<Net> {
        self.made(alloc).ok()
    }

    /// Pushes the part of validity that the lists break, or 0.
    pub fn push_part(self, alloc: Global, out: &mut Text) -> Option<()> {
        match self.made(alloc) {
            Ok(_) => out.push_number(0),
            Err(NetFault::Broken(part)) => out.push_number(u64::from(part)),
            Err(NetFault::OutOfMemory) => return None,
        }
        Some(())
    }

    fn parts(self, alloc: Global) -> Option<Parts> {
        let Lists {
            links,
            routes,
            rules,
            servers,
            domains,
        } = self;
        let dns = Dns {
            servers: Items::of(servers),
            search: Items::of(domains),
        };
        Parts::of(alloc, links, routes, rules, dns).ok()
    }

    /// Pushes whether the lists, taken as they stand, are a network.
    pub fn push_stored(self, alloc: Global, out: &mut Text) -> Option<()> {
        let net = Net::of_parts(alloc, self.parts(alloc)?).ok()?;
        out.push_str(if net.is_some() { "a network" } else { "none" });
        Some(())
    }
}
