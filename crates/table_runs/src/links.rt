//! Links from words: `NAME KIND`, and what isn't at its default: `down`, `id=N` of a VLAN, `mtu=N`, `controller=NAME`,
//! `address=PREFIX`, `addresses=N`, `updelay=N` with `miimon` 100, `hello-time=N`.

use crate::reading::{name, number, prefix};
use case_table::{first_word, parted};
use net_model::{
    Addr, BondMode, BondOpts, BridgeOpts, Items, Kind, Link, Mac, Name, PortOpts, Prefix, Proto,
    TableId, VlanId,
};
use std::alloc::Global;

// `ethernet`, `bond`, `bridge`, `vlan BASE`, `vrf`, `dummy`, `veth PEER`.
fn kind(word: &str, other: &str) -> Option<Kind> {
    let permanent = Mac { bytes: [2; 6] };
    let mode = BondMode::ActiveBackup;
    let table = TableId::of(10);
    match word {
        "ethernet" => Some(Kind::Ethernet { permanent }),
        "bond" => Some(Kind::Bond { mode }),
        "bridge" => Some(Kind::Bridge),
        "vrf" => Some(Kind::Vrf { table }),
        "dummy" => Some(Kind::Dummy),
        "veth" => Some(Kind::Veth { peer: name(other)? }),
        "vlan" => {
            let base = name(other)?;
            let id = VlanId::of(5)?;
            let proto = Proto::Dot1q;
            Some(Kind::Vlan { base, id, proto })
        }
        _ => None,
    }
}

// The VLAN with this number.
fn with_id(kind: &Kind, id: VlanId) -> Option<Kind> {
    match *kind {
        Kind::Vlan { base, proto, .. } => Some(Kind::Vlan { base, id, proto }),
        _ => None,
    }
}

// So many addresses, each with a number of its own.
fn addresses(alloc: Global, count: u32) -> Option<Vec<Prefix>> {
    let mut addrs = Vec::new(alloc);
    for number in 0..count {
        addrs.push(Prefix::of(Addr::v4(number), 24)?).ok()?;
    }
    Some(addrs)
}

// A link that is up, with everything at its default.
fn link(alloc: Global, name: Name, kind: Kind) -> Link {
    Link {
        name,
        kind,
        up: true,
        mtu: 1500,
        mac: Mac::of_virtual(&name),
        controller: None,
        bond: BondOpts::defaults(),
        bridge: BridgeOpts::defaults(),
        port: PortOpts::defaults(),
        addrs: Items::of(Vec::new(alloc)),
    }
}

fn set(alloc: Global, link: &mut Link, key: &str, value: &str) -> Option<()> {
    match key {
        "down" => link.up = false,
        "id" => link.kind = with_id(&link.kind, VlanId::of(number(value)?.try_into().ok()?)?)?,
        "mtu" => link.mtu = number(value)?,
        "controller" => link.controller = Some(name(value)?),
        "address" => link.addrs.push(prefix(value)?).ok()?,
        "addresses" => link.addrs = Items::of(addresses(alloc, number(value)?)?),
        "updelay" => {
            link.bond.miimon = 100;
            link.bond.updelay = number(value)?;
        }
        "hello-time" => link.bridge.hello_time = value.parse::<u8>().ok()?,
        _ => return None,
    }
    Some(())
}

// Whether a word says what isn't at its default.
fn is_option(word: &str) -> bool {
    word == "down" || word.contains('=')
}

/// The link of words.
pub fn link_of(alloc: Global, words: &str) -> Option<Link> {
    let (text, rest) = first_word(words);
    let (word, rest) = first_word(rest);
    let (other, _) = first_word(rest);
    let mut link = link(alloc, name(text)?, kind(word, other)?);
    for word in rest.split_ascii_whitespace() {
        if is_option(word) {
            let (key, value) = parted(word, "=");
            set(alloc, &mut link, key, value)?;
        }
    }
    Some(link)
}
