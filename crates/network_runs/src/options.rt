//! Options of bonds, bridges and ports from words, each `KEY=VALUE`. What isn't named has its default.

use crate::reading::{maybe_name, number};
use net_model::{BondOpts, BridgeOpts, PortOpts};
use net_text::{read_bool, read_policy, read_rate};

fn small(word: &str) -> Option<u8> {
    word.parse::<u8>().ok()
}

fn middle(word: &str) -> Option<u16> {
    word.parse::<u16>().ok()
}

fn set_bond(opts: &mut BondOpts, key: &str, value: &str) -> Option<()> {
    match key {
        "primary" => opts.primary = maybe_name(value)?,
        "lacp_rate" => opts.lacp_rate = read_rate(value)?,
        "xmit_hash_policy" => opts.hash_policy = read_policy(value)?,
        "miimon" => opts.miimon = number(value)?,
        "updelay" => opts.updelay = number(value)?,
        "downdelay" => opts.downdelay = number(value)?,
        _ => return None,
    }
    Some(())
}

fn set_bridge(opts: &mut BridgeOpts, key: &str, value: &str) -> Option<()> {
    match key {
        "stp" => opts.stp = read_bool(value)?,
        "priority" => opts.priority = middle(value)?,
        "forward-delay" => opts.forward_delay = small(value)?,
        "hello-time" => opts.hello_time = small(value)?,
        "max-age" => opts.max_age = small(value)?,
        "mac-ageing-time" => opts.mac_ageing = number(value)?,
        _ => return None,
    }
    Some(())
}

fn set_port(opts: &mut PortOpts, key: &str, value: &str) -> Option<()> {
    match key {
        "cost" => opts.cost = middle(value)?,
        "priority" => opts.priority = small(value)?,
        "hairpin" => opts.hairpin = read_bool(value)?,
        _ => return None,
    }
    Some(())
}

pub fn bond(words: &[&str]) -> Option<BondOpts> {
    let mut opts = BondOpts::defaults();
    for word in words {
        if let Some((key, value)) = word.split_once('=') {
            set_bond(&mut opts, key, value)?;
        }
    }
    Some(opts)
}

pub fn bridge(words: &[&str]) -> Option<BridgeOpts> {
    let mut opts = BridgeOpts::defaults();
    for word in words {
        if let Some((key, value)) = word.split_once('=') {
            set_bridge(&mut opts, key, value)?;
        }
    }
    Some(opts)
}

pub fn port(words: &[&str]) -> Option<PortOpts> {
    let mut opts = PortOpts::defaults();
    for word in words {
        if let Some((key, value)) = word.split_once('=') {
            set_port(&mut opts, key, value)?;
        }
    }
    Some(opts)
}
