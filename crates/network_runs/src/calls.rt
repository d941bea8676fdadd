//! Kernel calls from words, as a plan prints them. What isn't named has its default, and an Ethernet link, which no plan
//! makes, is written `add-link NAME ethernet ADDRESS`.
ghost use Rattle.std.specs.Prelude.{◌≡◌, IfSome};

use crate::networks::of_family;
use crate::options::{bond, bridge, port};
use crate::reading::{
    behind, given, mac_at, maybe_name, name_at, number, number_at, number_behind, prefix_at,
    table_at, word, words,
};
use net_model::{
    Addr, Call, Dns, Domain, Items, Kind, Name, Proto, Route, Rule, Subnet, TableId, Target, VlanId,
};
use net_text::{read_addr, read_family, read_mode, read_prefix, read_proto};
use std::alloc::Global;

fn vlan_id_at(words: &[&str], at: usize) -> Option<VlanId> {
    VlanId::of(word(words, at)?.parse::<u16>().ok()?)
}

fn proto_at(words: &[&str], at: usize) -> Option<Proto> {
    read_proto(word(words, at)?)
}

// `bond MODE`.
fn bond_kind(words: &[&str]) -> Option<Kind> {
    let mode = read_mode(word(words, 3)?)?;
    Some(Kind::Bond { mode })
}

// `vlan BASE ID PROTOCOL`.
fn vlan_kind(words: &[&str]) -> Option<Kind> {
    Some(Kind::Vlan {
        base: name_at(words, 3)?,
        id: vlan_id_at(words, 4)?,
        proto: proto_at(words, 5)?,
    })
}

// `bond MODE`, `bridge`, `vlan BASE ID PROTOCOL`, `vrf TABLE`, `dummy`, `veth PEER`, `ethernet ADDRESS`.
fn kind(words: &[&str]) -> Option<Kind> {
    match word(words, 2)? {
        "bond" => bond_kind(words),
        "bridge" => Some(Kind::Bridge),
        "vlan" => vlan_kind(words),
        "vrf" => Some(Kind::Vrf {
            table: table_at(words, 3)?,
        }),
        "dummy" => Some(Kind::Dummy),
        "veth" => Some(Kind::Veth {
            peer: name_at(words, 3)?,
        }),
        "ethernet" => Some(Kind::Ethernet {
            permanent: mac_at(words, 3)?,
        }),
        _ => None,
    }
}

// The gateway of a route, or none.
fn gateway(words: &[&str]) -> Option<Option<Addr>> {
    if word(words, 6)? != "via" {
        return Some(None);
    }
    Some(Some(read_addr(word(words, 7)?.as_bytes())?))
}

// `DESTINATION table TABLE metric METRIC via GATEWAY dev NAME`, or without a gateway.
fn route(words: &[&str]) -> Option<Route> {
    let gateway = gateway(words)?;
    let dev = if gateway.is_some() { 9 } else { 7 };
    Some(Route {
        dest: Subnet::of(prefix_at(words, 1)?),
        table: table_at(words, 3)?,
        metric: number_at(words, 5)?,
        gateway,
        dev: name_at(words, dev)?,
    })
}

// What `target=` names.
fn target(words: &[&str]) -> Option<Target> {
    Some(match behind(words, 8, "target=")? {
        "blackhole" => Target::Blackhole,
        "unreachable" => Target::Unreachable,
        "prohibit" => Target::Prohibit,
        table => Target::Table(TableId::of(number(table)?)),
    })
}

// The subnet behind a key, of the family of its rule, or none where a dash stands in its place.
fn subnet_behind(words: &[&str], at: usize, key: &str, v6: bool) -> Option<Option<Subnet>>
    ensures { IfSome result (λ subnet. IfSome subnet (λ b. b.addr.v6 ≡ v6)) }
{
    match given(behind(words, at, key)?) {
        Some(word) => {
            let prefix = read_prefix(word.as_bytes())?;
            Some(Some(of_family(Subnet::of(prefix), v6)?))
        }
        None => Some(None),
    }
}

// `PRIORITY FAMILY from=SUBNET to=SUBNET iif=NAME mark=MARK mask=MASK target=TARGET`.
fn rule(words: &[&str]) -> Option<Rule> {
    let v6 = read_family(word(words, 2)?)?;
    Some(Rule {
        priority: number_at(words, 1)?,
        v6,
        src: subnet_behind(words, 3, "from=", v6)?,
        dst: subnet_behind(words, 4, "to=", v6)?,
        iif: maybe_name(behind(words, 5, "iif=")?)?,
        mark: number_behind(words, 6, "mark=")?,
        mask: number_behind(words, 7, "mask=")?,
        target: target(words)?,
    })
}

fn servers(alloc: Global, list: &str) -> Option<Vec<Addr>> {
    let mut all = Vec::new(alloc);
    if list.is_empty() {
        return Some(all);
    }
    for word in list.split(',') {
        all.push(read_addr(word.as_bytes())?).ok()?;
    }
    Some(all)
}

fn domain(alloc: Global, word: &str) -> Option<Domain> {
    Domain::of(Vec::from_slice(alloc, word.as_bytes()).ok()?)
}

fn search(alloc: Global, list: &str) -> Option<Vec<Domain>> {
    let mut all = Vec::new(alloc);
    if list.is_empty() {
        return Some(all);
    }
    for word in list.split(',') {
        all.push(domain(alloc, word)?).ok()?;
    }
    Some(all)
}

// `servers=ADDRESS,.. search=DOMAIN,..`.
fn dns(alloc: Global, words: &[&str]) -> Option<Dns> {
    let servers = servers(alloc, behind(words, 1, "servers=")?)?;
    let search = search(alloc, behind(words, 2, "search=")?)?;
    Some(Dns {
        servers: Items::of(servers),
        search: Items::of(search),
    })
}

// The calls that set the options of a link.
fn on_options(verb: &str, name: Name, words: &[&str]) -> Option<Call> {
    match verb {
        "set-bond" => Some(Call::SetBond {
            name,
            opts: bond(words)?,
        }),
        "set-bridge" => Some(Call::SetBridge {
            name,
            opts: bridge(words)?,
        }),
        "set-port" => Some(Call::SetPort {
            port: name,
            opts: port(words)?,
        }),
        _ => None,
    }
}

// The calls on a link.
fn on_link(verb: &str, name: Name, words: &[&str]) -> Option<Call> {
    match verb {
        "add-link" => Some(Call::AddLink {
            name,
            kind: kind(words)?,
        }),
        "del-link" => Some(Call::DelLink { name }),
        "up" => Some(Call::Up { name }),
        "down" => Some(Call::Down { name }),
        "set-mtu" => Some(Call::SetMtu {
            name,
            mtu: number_at(words, 2)?,
        }),
        "set-mac" => Some(Call::SetMac {
            name,
            mac: mac_at(words, 2)?,
        }),
        "attach" => Some(Call::Attach {
            port: name,
            controller: name_at(words, 2)?,
        }),
        "detach" => Some(Call::Detach { port: name }),
        "add-address" => Some(Call::AddAddress {
            name,
            addr: prefix_at(words, 2)?,
        }),
        "del-address" => Some(Call::DelAddress {
            name,
            addr: prefix_at(words, 2)?,
        }),
        verb => on_options(verb, name, words),
    }
}

// Any call.
fn on_words(alloc: Global, words: &[&str]) -> Option<Call> {
    match word(words, 0)? {
        "add-route" => Some(Call::AddRoute {
            route: route(words)?,
        }),
        "del-route" => Some(Call::DelRoute {
            route: route(words)?,
        }),
        "add-rule" => Some(Call::AddRule { rule: rule(words)? }),
        "del-rule" => Some(Call::DelRule { rule: rule(words)? }),
        "set-dns" => Some(Call::SetDns {
            dns: dns(alloc, words)?,
        }),
        verb => on_link(verb, name_at(words, 1)?, words),
    }
}

/// The call of a line.
pub fn call(alloc: Global, line: &str) -> Option<Call> {
    let words = words(alloc, line)?;
    on_words(alloc, &words)
}
