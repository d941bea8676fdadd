//! The entries of a document, each with what it states.

use crate::fields::{
    push_bool, push_bytes, push_claim, push_name, push_names, push_number, push_prefixes, push_word,
};
use base_model::{OutOfMemory, push_decimal};
use document_model::{
    BondEntry, BridgeEntry, DnsEntry, Doc, IpEntry, KindWord, LinkEntry, PortEntry, RouteEntry,
    RuleEntry, VlanEntry, VrfEntry, Wish,
};
use net_model::{Addr, Domain, Items, Mac, Subnet, Target};
use net_text::{
    family_word, mode_word, policy_word, proto_word, rate_word, write_addr, write_mac, write_prefix,
};

fn push_kind(word: Option<KindWord>, out: &mut Vec<u8>) -> Result<(), OutOfMemory> {
    match word {
        Some(KindWord::Ethernet) => push_word("type", Some("ethernet"), out),
        Some(KindWord::Bond) => push_word("type", Some("bond"), out),
        Some(KindWord::Bridge) => push_word("type", Some("bridge"), out),
        Some(KindWord::Vlan) => push_word("type", Some("vlan"), out),
        Some(KindWord::Vrf) => push_word("type", Some("vrf"), out),
        Some(KindWord::Dummy) => push_word("type", Some("dummy"), out),
        Some(KindWord::Veth) => push_word("type", Some("veth"), out),
        None => Ok(()),
    }
}

fn push_wish(wish: Option<Wish>, out: &mut Vec<u8>) -> Result<(), OutOfMemory> {
    match wish {
        Some(Wish::Up) => push_word("state", Some("up"), out),
        Some(Wish::Down) => push_word("state", Some("down"), out),
        Some(Wish::Absent) => push_word("state", Some("absent"), out),
        None => Ok(()),
    }
}

fn push_mac(mac: Option<Mac>, out: &mut Vec<u8>) -> Result<(), OutOfMemory> {
    match mac {
        Some(mac) => {
            out.extend_from_slice(b" mac=")?;
            write_mac(&mac, out)
        }
        None => Ok(()),
    }
}

// `ipv4`, `ipv4.enabled` and `ipv4.address`, and likewise of IPv6.
fn push_ip(
    keys: (&str, &str, &str),
    ip: &Option<IpEntry>,
    out: &mut Vec<u8>,
) -> Result<(), OutOfMemory> {
    match ip {
        Some(ip) => {
            if ip.enabled.is_none() && ip.addrs.is_none() {
                out.push(b' ')?;
                out.extend_from_slice(keys.0.as_bytes())?;
            }
            push_bool(keys.1, ip.enabled, out)?;
            push_prefixes(keys.2, &ip.addrs, out)
        }
        None => Ok(()),
    }
}

fn push_bond_words(bond: &BondEntry, out: &mut Vec<u8>) -> Result<(), OutOfMemory> {
    if let Some(mode) = bond.mode {
        push_word("mode", Some(mode_word(mode)), out)?;
    }
    push_claim("primary", &bond.primary, out)?;
    if let Some(rate) = bond.lacp_rate {
        push_word("lacp_rate", Some(rate_word(rate)), out)?;
    }
    if let Some(policy) = bond.hash_policy {
        push_word("xmit_hash_policy", Some(policy_word(policy)), out)?;
    }
    Ok(())
}

fn push_bond(bond: &BondEntry, out: &mut Vec<u8>) -> Result<(), OutOfMemory> {
    push_bond_words(bond, out)?;
    push_number("miimon", bond.miimon, out)?;
    push_number("updelay", bond.updelay, out)?;
    push_number("downdelay", bond.downdelay, out)?;
    push_names("ports", &bond.ports, out)
}

fn wide_u8(number: Option<u8>) -> Option<u32> {
    match number {
        Some(number) => Some(u32::from(number)),
        None => None,
    }
}

fn wide_u16(number: Option<u16>) -> Option<u32> {
    match number {
        Some(number) => Some(u32::from(number)),
        None => None,
    }
}

// A part of a port, behind a colon.
fn push_port_number(key: &str, number: Option<u32>, out: &mut Vec<u8>) -> Result<(), OutOfMemory> {
    match number {
        Some(number) => {
            out.extend_from_slice(key.as_bytes())?;
            push_decimal(number, out)
        }
        None => Ok(()),
    }
}

fn push_port(port: &PortEntry, out: &mut Vec<u8>) -> Result<(), OutOfMemory> {
    out.extend_from_slice(port.name.as_bytes())?;
    push_port_number(":cost=", wide_u16(port.cost), out)?;
    push_port_number(":priority=", wide_u8(port.priority), out)?;
    match port.hairpin {
        Some(true) => Ok(out.extend_from_slice(b":hairpin=true")?),
        Some(false) => Ok(out.extend_from_slice(b":hairpin=false")?),
        None => Ok(()),
    }
}

fn push_list_of_ports(ports: &Vec<PortEntry>, out: &mut Vec<u8>) -> Result<(), OutOfMemory> {
    for (i, port) in ports.iter().enumerate() {
        if i > 0 {
            out.push(b',')?;
        }
        push_port(port, out)?;
    }
    Ok(())
}

fn push_ports(ports: &Option<Items<PortEntry>>, out: &mut Vec<u8>) -> Result<(), OutOfMemory> {
    match ports {
        Some(ports) => {
            out.extend_from_slice(b" bridge-ports=")?;
            push_list_of_ports(ports.items(), out)
        }
        None => Ok(()),
    }
}

fn push_bridge(bridge: &BridgeEntry, out: &mut Vec<u8>) -> Result<(), OutOfMemory> {
    push_bool("stp", bridge.stp, out)?;
    push_number("priority", wide_u16(bridge.priority), out)?;
    push_number("forward-delay", wide_u8(bridge.forward_delay), out)?;
    push_number("hello-time", wide_u8(bridge.hello_time), out)?;
    push_number("max-age", wide_u8(bridge.max_age), out)?;
    push_number("mac-ageing-time", bridge.mac_ageing, out)?;
    push_ports(&bridge.ports, out)
}

fn push_vlan(vlan: VlanEntry, out: &mut Vec<u8>) -> Result<(), OutOfMemory> {
    push_name("base", vlan.base, out)?;
    if let Some(id) = vlan.id {
        push_number("id", Some(u32::from(id.id())), out)?;
    }
    if let Some(proto) = vlan.proto {
        push_word("protocol", Some(proto_word(proto)), out)?;
    }
    Ok(())
}

fn push_vrf(vrf: &VrfEntry, out: &mut Vec<u8>) -> Result<(), OutOfMemory> {
    if let Some(table) = vrf.table {
        push_number("table", Some(table.id()), out)?;
    }
    push_names("vrf-ports", &vrf.ports, out)
}

fn push_link(link: &LinkEntry, out: &mut Vec<u8>) -> Result<(), OutOfMemory> {
    out.extend_from_slice(link.name.as_bytes())?;
    push_kind(link.word, out)?;
    push_wish(link.wish, out)?;
    push_mac(link.mac, out)?;
    push_number("mtu", link.mtu, out)?;
    push_claim("controller", &link.controller, out)?;
    push_ip(("ipv4", "ipv4.enabled", "ipv4.address"), &link.v4, out)?;
    push_ip(("ipv6", "ipv6.enabled", "ipv6.address"), &link.v6, out)?;
    push_bond(&link.bond, out)?;
    push_bridge(&link.bridge, out)?;
    push_vlan(link.vlan, out)?;
    push_vrf(&link.vrf, out)?;
    push_name("peer", link.veth.peer, out)
}

fn push_subnet(key: &[u8], subnet: Option<Subnet>, out: &mut Vec<u8>) -> Result<(), OutOfMemory> {
    match subnet {
        Some(subnet) => {
            out.extend_from_slice(key)?;
            write_prefix(&subnet.prefix(), out)
        }
        None => Ok(()),
    }
}

fn push_absent(absent: bool, out: &mut Vec<u8>) -> Result<(), OutOfMemory> {
    if absent {
        out.extend_from_slice(b" absent")?;
    }
    Ok(())
}

fn push_gateway(gateway: Option<Addr>, out: &mut Vec<u8>) -> Result<(), OutOfMemory> {
    match gateway {
        Some(gateway) => {
            out.extend_from_slice(b" via=")?;
            write_addr(&gateway, out)
        }
        None => Ok(()),
    }
}

fn push_route(route: &RouteEntry, out: &mut Vec<u8>) -> Result<(), OutOfMemory> {
    out.extend_from_slice(b"route")?;
    push_absent(route.absent, out)?;
    push_subnet(b" dest=", route.dest, out)?;
    push_name("dev", route.dev, out)?;
    push_gateway(route.gateway, out)?;
    push_number("metric", route.metric, out)?;
    if let Some(table) = route.table {
        push_number("table", Some(table.id()), out)?;
    }
    Ok(())
}

fn push_target(target: &Target, out: &mut Vec<u8>) -> Result<(), OutOfMemory> {
    match target {
        Target::Table(table) => push_number("target", Some(table.id()), out),
        Target::Blackhole => push_word("target", Some("blackhole"), out),
        Target::Unreachable => push_word("target", Some("unreachable"), out),
        Target::Prohibit => push_word("target", Some("prohibit"), out),
    }
}

fn push_rule(rule: &RuleEntry, out: &mut Vec<u8>) -> Result<(), OutOfMemory> {
    out.extend_from_slice(b"rule")?;
    push_absent(rule.absent, out)?;
    push_number("priority", rule.priority, out)?;
    if let Some(v6) = rule.v6 {
        push_word("family", Some(family_word(v6)), out)?;
    }
    push_subnet(b" from=", rule.src, out)?;
    push_subnet(b" to=", rule.dst, out)?;
    push_name("iif", rule.iif, out)?;
    push_number("mark", rule.mark, out)?;
    push_number("mask", rule.mask, out)?;
    if let Some(target) = &rule.target {
        push_target(target, out)?;
    }
    Ok(())
}

fn push_list_of_servers(servers: &Vec<Addr>, out: &mut Vec<u8>) -> Result<(), OutOfMemory> {
    for (i, server) in servers.iter().enumerate() {
        if i > 0 {
            out.push(b',')?;
        }
        write_addr(server, out)?;
    }
    Ok(())
}

fn push_list_of_domains(domains: &Vec<Domain>, out: &mut Vec<u8>) -> Result<(), OutOfMemory> {
    for (i, domain) in domains.iter().enumerate() {
        if i > 0 {
            out.push(b',')?;
        }
        out.extend_from_slice(domain.as_bytes())?;
    }
    Ok(())
}

fn push_dns(dns: &DnsEntry, out: &mut Vec<u8>) -> Result<(), OutOfMemory> {
    out.extend_from_slice(b"dns")?;
    if let Some(servers) = &dns.servers {
        push_bytes("servers", Some(b""), out)?;
        push_list_of_servers(servers.items(), out)?;
    }
    if let Some(search) = &dns.search {
        push_bytes("search", Some(b""), out)?;
        push_list_of_domains(search.items(), out)?;
    }
    Ok(())
}

// A semicolon behind each entry but the last.
fn push_between(out: &mut Vec<u8>) -> Result<(), OutOfMemory> {
    if !out.is_empty() {
        out.extend_from_slice(b"; ")?;
    }
    Ok(())
}

/// The entries of interfaces, with a semicolon between each two.
pub fn push_links(links: &Vec<LinkEntry>, out: &mut Vec<u8>) -> Result<(), OutOfMemory> {
    for link in links {
        push_between(out)?;
        push_link(link, out)?;
    }
    Ok(())
}

fn push_routes(routes: &Vec<RouteEntry>, out: &mut Vec<u8>) -> Result<(), OutOfMemory> {
    for route in routes {
        push_between(out)?;
        push_route(route, out)?;
    }
    Ok(())
}

fn push_rules(rules: &Vec<RuleEntry>, out: &mut Vec<u8>) -> Result<(), OutOfMemory> {
    for rule in rules {
        push_between(out)?;
        push_rule(rule, out)?;
    }
    Ok(())
}

/// The entries, each with what it states, with a semicolon between each two.
pub fn push_entries(doc: &Doc, out: &mut Vec<u8>) -> Result<(), OutOfMemory> {
    push_links(doc.links.items(), out)?;
    push_routes(doc.routes.items(), out)?;
    push_rules(doc.rules.items(), out)?;
    if let Some(dns) = &doc.dns {
        push_between(out)?;
        push_dns(dns, out)?;
    }
    Ok(())
}
