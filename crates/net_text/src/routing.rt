//! What stands in the lines of calls on routes, rules and the settings of DNS.
ghost use Rattle.std.specs.Prelude.{◌≡◌, ◌++◌, OnOk, map};
ghost use Rattle.addr_text.specs.Parts.{joined};
ghost use Rattle.net_text.specs.AddrText.{addr_text};
ghost use Rattle.net_text.specs.Line.{gateway_words, key_words, route_words, target_word, selector_words, rule_words, dns_words};

use crate::pieces::{push_addr, push_name, push_name_or_dash, push_prefix, push_prefix_or_dash};
use crate::words::family_word;
use base_model::push_decimal;
use net_model::{Addr, Dns, Domain, OutOfMemory, Route, Rule, Target};

fn push_gateway(gateway: Option<Addr>, line: &mut Vec<u8>) -> Result<(), OutOfMemory>
    ensures { OnOk result (line.new.items ≡ line.old.items ++ gateway_words gateway) }
{
    match gateway {
        None => Ok(()),
        Some(addr) => {
            line.extend_from_slice(b" via ")?;
            push_addr(addr, line)
        }
    }
}

// What no two routes have in common.
fn push_key(route: &Route, line: &mut Vec<u8>) -> Result<(), OutOfMemory>
    ensures { OnOk result (line.new.items ≡ line.old.items ++ key_words route.now) }
{
    push_prefix(route.dest.prefix(), line)?;
    line.extend_from_slice(b" table ")?;
    push_decimal(route.table.id(), line)?;
    line.extend_from_slice(b" metric ")?;
    push_decimal(route.metric, line)
}

pub(crate) fn push_route(route: &Route, line: &mut Vec<u8>) -> Result<(), OutOfMemory>
    ensures { OnOk result (line.new.items ≡ line.old.items ++ route_words route.now) }
{
    push_key(route, line)?;
    push_gateway(route.gateway, line)?;
    line.extend_from_slice(b" dev ")?;
    push_name(&route.dev, line)
}

fn push_target(target: Target, line: &mut Vec<u8>) -> Result<(), OutOfMemory>
    ensures { OnOk result (line.new.items ≡ line.old.items ++ target_word target) }
{
    match target {
        Target::Table(table) => push_decimal(table.id(), line),
        Target::Blackhole => push_bytes(b"blackhole", line),
        Target::Unreachable => push_bytes(b"unreachable", line),
        Target::Prohibit => push_bytes(b"prohibit", line),
    }
}

fn push_bytes(bytes: &[u8], line: &mut Vec<u8>) -> Result<(), OutOfMemory>
    ensures { OnOk result (line.new.items ≡ line.old.items ++ bytes.now) }
{
    line.extend_from_slice(bytes)?;
    Ok(())
}

// The priority of a rule, and what it looks at but for the mark.
fn push_selector(rule: &Rule, line: &mut Vec<u8>) -> Result<(), OutOfMemory>
    ensures { OnOk result (line.new.items ≡ line.old.items ++ selector_words rule.now) }
{
    push_decimal(rule.priority, line)?;
    line.extend_from_slice(b" ")?;
    line.extend_from_slice(family_word(rule.v6).as_bytes())?;
    line.extend_from_slice(b" from=")?;
    push_prefix_or_dash(rule.src, line)?;
    line.extend_from_slice(b" to=")?;
    push_prefix_or_dash(rule.dst, line)?;
    line.extend_from_slice(b" iif=")?;
    push_name_or_dash(&rule.iif, line)
}

pub(crate) fn push_rule(rule: &Rule, line: &mut Vec<u8>) -> Result<(), OutOfMemory>
    ensures { OnOk result (line.new.items ≡ line.old.items ++ rule_words rule.now) }
{
    push_selector(rule, line)?;
    line.extend_from_slice(b" mark=")?;
    push_decimal(rule.mark, line)?;
    line.extend_from_slice(b" mask=")?;
    push_decimal(rule.mask, line)?;
    line.extend_from_slice(b" target=")?;
    push_target(rule.target, line)
}

fn append_servers(servers: &[Addr], line: &mut Vec<u8>) -> Result<(), OutOfMemory>
    ensures { OnOk result (line.new.items ≡ line.old.items ++ joined 44 (map addr_text servers.now)) }
{
    match servers {
        [] => Ok(()),
        [only] => push_addr(*only, line),
        [first, rest @ ..] => {
            push_addr(*first, line)?;
            line.push(b',')?;
            append_servers(rest, line)
        }
    }
}

fn append_search(search: &[Domain], line: &mut Vec<u8>) -> Result<(), OutOfMemory>
    ensures { OnOk result (line.new.items ≡ line.old.items ++ joined 44 search.now) }
{
    match search {
        [] => Ok(()),
        [only] => push_bytes(only.as_bytes(), line),
        [first, rest @ ..] => {
            line.extend_from_slice(first.as_bytes())?;
            line.push(b',')?;
            append_search(rest, line)
        }
    }
}

pub(crate) fn push_dns(dns: &Dns, line: &mut Vec<u8>) -> Result<(), OutOfMemory>
    ensures { OnOk result (line.new.items ≡ line.old.items ++ dns_words dns.now) }
{
    line.extend_from_slice(b" servers=")?;
    append_servers(dns.servers.items(), line)?;
    line.extend_from_slice(b" search=")?;
    append_search(dns.search.items(), line)
}
