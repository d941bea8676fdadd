//! What is asked of a network.

use crate::addresses::{push_addr, push_mac, push_prefix};
use crate::lists::rule;
use crate::reading::{addr, name, number, prefix};
use case_table::{Text, first_word};
use net_core::Net;
use net_lists::{can_be_base, is_bond, is_bridge, is_ethernet, is_on_link, takes};
use net_model::{Link, Mac, Name, Position, RouteKey, Rule, Subnet, TableId};
use net_search::{find_address, find_route};
use net_valid::{
    bridge_in_range, is_default_bond, is_default_bridge, is_default_port, mtu_in_range,
    port_in_range,
};

const NONE: &str = "none";

fn push_flag(is: bool, out: &mut Text) {
    out.push_str(if is { "true" } else { "false" });
}

fn push_position(position: Position, out: &mut Text) {
    let (word, index) = match position {
        Position::At(index) => ("at ", index),
        Position::Gap(index) => ("gap ", index),
    };
    out.push_str(word);
    out.push_number(index as u64);
}

// `DESTINATION TABLE METRIC`: the gateway of the route that is found.
fn push_route(net: &Net, words: &str, out: &mut Text) -> Option<()> {
    let (dest, rest) = first_word(words);
    let (table, metric) = first_word(rest);
    let dest = Subnet::of(prefix(dest)?);
    match find_route(net, dest, TableId::of(number(table)?), number(metric)?) {
        Some(found) => push_addr(&found.gateway?, out),
        None => out.push_str(NONE),
    }
    Some(())
}

// `LINK ADDRESS`: the prefix that is found.
fn push_address(net: &Net, words: &str, out: &mut Text) -> Option<()> {
    let (link, rest) = first_word(words);
    match find_address(net, &name(link)?, addr(rest)?) {
        Some(found) => push_prefix(&found, out),
        None => out.push_str(NONE),
    }
    Some(())
}

fn push_priorities(rules: &[Rule], out: &mut Text) {
    for rule in rules {
        out.push_count(u64::from(rule.priority), " ");
    }
}

// The names, or `none` where there are none.
fn push_names(names: &[Name], out: &mut Text) {
    let mut between = b"".as_slice();
    for name in names {
        out.push_bytes(between);
        out.push_bytes(name.as_bytes());
        between = b" ";
    }
    if names.is_empty() {
        out.push_str(NONE);
    }
}

// Destination, table and metric of each key, or `none` where there are none.
fn push_keys(keys: &[RouteKey], out: &mut Text) {
    let mut between = b"".as_slice();
    for key in keys {
        out.push_bytes(between);
        push_prefix(&key.dest.prefix(), out);
        out.push_byte(b' ');
        out.push_count(u64::from(key.table.id()), " ");
        out.push_number(u64::from(key.metric));
        between = b"; ";
    }
    if keys.is_empty() {
        out.push_str(NONE);
    }
}

// Whether a word holds of a link.
fn holds(word: &str, link: &Link) -> Option<bool> {
    match word {
        "ethernet" => Some(is_ethernet(&link.kind)),
        "bond" => Some(is_bond(&link.kind)),
        "bridge" => Some(is_bridge(&link.kind)),
        "base" => Some(can_be_base(&link.kind)),
        "default-bond" => Some(is_default_bond(&link.bond)),
        "default-bridge" => Some(is_default_bridge(&link.bridge)),
        "default-port" => Some(is_default_port(&link.port)),
        "bridge-in-range" => Some(bridge_in_range(&link.bridge)),
        "port-in-range" => Some(port_in_range(&link.port)),
        _ => None,
    }
}

fn link_of<'a>(net: &'a Net, word: &str) -> Option<&'a Link> {
    net.link(&name(word)?)
}

// `LINK WORD`, or `LINK WORD OTHER`.
fn push_of_link(net: &Net, words: &str, out: &mut Text) -> Option<()> {
    let (first, rest) = first_word(words);
    let (word, other) = first_word(rest);
    let link = link_of(net, first)?;
    match word {
        "takes" => push_flag(takes(&link.kind, &link_of(net, other)?.kind), out),
        "on-link" => {
            let gateway = addr(other)?;
            push_flag(
                is_on_link(link.addrs.items(), gateway.is_v6(), gateway),
                out,
            );
        }
        word => push_flag(holds(word, link)?, out),
    }
    Some(())
}

// What is asked of the name of a link.
fn push_of_name(net: &Net, word: &str, name: &Name, out: &mut Text) -> Option<()> {
    match word {
        "has-link" => push_flag(net.has_link(name), out),
        "link-position" => push_position(net.link_position(name), out),
        "over" => push_names(net.over(name), out),
        "ports-of" => push_names(net.ports_of(name), out),
        "routes-of" => push_keys(net.routes_of(name), out),
        "mac" => push_mac(&Mac::of_virtual(name), out),
        _ => return None,
    }
    Some(())
}

/// Pushes the answer to a question.
pub fn push_asked(net: &Net, question: &str, out: &mut Text) -> Option<()> {
    let (word, rest) = first_word(question);
    match word {
        "priorities" => push_priorities(net.copy().ok()?.rules(), out),
        "same-hardware" => push_flag(net.same_hardware(&net.copy().ok()?), out),
        "rule-position" => push_position(net.rule_position(&rule(number(rest)?)), out),
        "mtu" => push_flag(mtu_in_range(number(rest)?), out),
        "route" => return push_route(net, rest, out),
        "address" => return push_address(net, rest, out),
        "link" => return push_of_link(net, rest, out),
        word => return push_of_name(net, word, &name(rest)?, out),
    }
    Some(())
}
