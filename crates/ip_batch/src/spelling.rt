//! The line of a call.
ghost use Rattle.std.specs.Prelude.{◌≡◌, ◌++◌, ◌∷◌, [], codes, OnOk, Some};
ghost use Rattle.std.specs.Fmt.{decimal};
ghost use Rattle.addr_text.specs.Mac.{mac_text};
ghost use Rattle.net_text.specs.AddrText.{addr_text, prefix_text};
ghost use Rattle.net_text.specs.Line.{has_line, gateway_words};
ghost use Rattle.std.specs.Prelude.{IsTrue};
ghost use Rattle.ip_batch.specs.Spelling.{spaced, making, own, routing, spelling, tag_word};

use base_model::push_decimal;
use net_model::{
    Addr, BondMode, Call, Kind, Mac, Name, OutOfMemory, Prefix, Proto, Route, TableId, VlanId,
};
use net_text::{mode_word, write_addr, write_call_line, write_mac, write_prefix};

fn push_bytes(bytes: &[u8], line: &mut Vec<u8>) -> Result<(), OutOfMemory>
    ensures { OnOk result (line.new.items ≡ line.old.items ++ bytes.now) }
{
    line.extend_from_slice(bytes)?;
    Ok(())
}

// Words and a name.
fn push_named(words: &[u8], name: &Name, line: &mut Vec<u8>) -> Result<(), OutOfMemory>
    ensures { OnOk result (line.new.items ≡ line.old.items ++ words.now ++ name.now) }
{
    line.extend_from_slice(words)?;
    push_bytes(name.as_bytes(), line)
}

// Words and a number.
fn push_number(words: &[u8], number: u32, line: &mut Vec<u8>) -> Result<(), OutOfMemory>
    ensures { OnOk result (line.new.items ≡ line.old.items ++ words.now ++ decimal number) }
{
    line.extend_from_slice(words)?;
    push_decimal(number, line)
}

// Words and a MAC address.
fn push_hardware(words: &[u8], mac: &Mac, line: &mut Vec<u8>) -> Result<(), OutOfMemory>
    ensures { OnOk result (line.new.items ≡ line.old.items ++ words.now ++ mac_text mac.now.bytes) }
{
    line.extend_from_slice(words)?;
    write_mac(mac, line)
}

// Words and a prefix.
fn push_prefix(words: &[u8], prefix: &Prefix, line: &mut Vec<u8>) -> Result<(), OutOfMemory>
    ensures { OnOk result (line.new.items ≡ line.old.items ++ words.now ++ prefix_text prefix.now) }
{
    line.extend_from_slice(words)?;
    write_prefix(prefix, line)
}

fn tag_word(proto: Proto) -> &'static str
    ensures { result.now ≡ tag_word proto }
{
    match proto {
        Proto::Dot1q => "802.1Q",
        Proto::Dot1ad => "802.1ad",
    }
}

fn push_vlan(
    name: &Name,
    base: &Name,
    id: VlanId,
    proto: Proto,
    line: &mut Vec<u8>,
) -> Result<(), OutOfMemory>
    ensures { OnOk result (line.new.items ≡ line.old.items ++ spaced (making name.now (Kind.Vlan base.now id proto))) }
{
    push_named(b"link add link ", base, line)?;
    push_named(b" name ", name, line)?;
    line.extend_from_slice(b" type vlan protocol ")?;
    line.extend_from_slice(tag_word(proto).as_bytes())?;
    push_number(b" id ", id.id() as u32, line)
}

fn push_bond(name: &Name, mode: BondMode, line: &mut Vec<u8>) -> Result<(), OutOfMemory>
    ensures { OnOk result (line.new.items ≡ line.old.items ++ spaced (making name.now (Kind.Bond mode))) }
{
    push_named(b"link add name ", name, line)?;
    line.extend_from_slice(b" type bond mode ")?;
    push_bytes(mode_word(mode).as_bytes(), line)
}

fn push_bridge(name: &Name, line: &mut Vec<u8>) -> Result<(), OutOfMemory>
    ensures { OnOk result (line.new.items ≡ line.old.items ++ spaced (making name.now Kind.Bridge)) }
{
    push_named(b"link add name ", name, line)?;
    push_bytes(b" type bridge", line)
}

fn push_vrf(name: &Name, table: TableId, line: &mut Vec<u8>) -> Result<(), OutOfMemory>
    ensures { OnOk result (line.new.items ≡ line.old.items ++ spaced (making name.now (Kind.Vrf table))) }
{
    push_named(b"link add name ", name, line)?;
    push_number(b" type vrf table ", table.id(), line)
}

fn push_ethernet(name: &Name, permanent: &Mac, line: &mut Vec<u8>) -> Result<(), OutOfMemory>
    ensures { OnOk result (line.new.items ≡ line.old.items ++ spaced (making name.now (Kind.Ethernet permanent.now))) }
{
    push_named(b"link add name ", name, line)?;
    push_hardware(b" type ethernet permanent ", permanent, line)
}

fn push_dummy(name: &Name, line: &mut Vec<u8>) -> Result<(), OutOfMemory>
    ensures { OnOk result (line.new.items ≡ line.old.items ++ spaced (making name.now Kind.Dummy)) }
{
    push_named(b"link add name ", name, line)?;
    push_bytes(b" type dummy", line)
}

fn push_veth(name: &Name, peer: &Name, line: &mut Vec<u8>) -> Result<(), OutOfMemory>
    ensures { OnOk result (line.new.items ≡ line.old.items ++ spaced (making name.now (Kind.Veth peer.now))) }
{
    push_named(b"link add name ", name, line)?;
    push_named(b" type veth peer name ", peer, line)
}

// How a link is made.
fn push_making(name: &Name, kind: &Kind, line: &mut Vec<u8>) -> Result<(), OutOfMemory>
    ensures { OnOk result (line.new.items ≡ line.old.items ++ spaced (making name.now kind.now)) }
{
    match kind {
        Kind::Ethernet { permanent } => push_ethernet(name, permanent, line),
        Kind::Bond { mode } => push_bond(name, *mode, line),
        Kind::Bridge => push_bridge(name, line),
        Kind::Vlan { base, id, proto } => push_vlan(name, base, *id, *proto, line),
        Kind::Vrf { table } => push_vrf(name, *table, line),
        Kind::Dummy => push_dummy(name, line),
        Kind::Veth { peer } => push_veth(name, peer, line),
    }
}

// A command on a link that is there, and what follows its name.
fn push_set(name: &Name, rest: &[u8], line: &mut Vec<u8>) -> Result<(), OutOfMemory>
    ensures { OnOk result (line.new.items ≡ line.old.items ++ (codes "link set dev " ++ name.now ++ rest.now)) }
{
    push_named(b"link set dev ", name, line)?;
    push_bytes(rest, line)
}

fn push_mtu(name: &Name, mtu: u32, line: &mut Vec<u8>) -> Result<(), OutOfMemory>
    ensures { OnOk result (line.new.items ≡ line.old.items ++ spelling (Call.SetMtu name.now mtu)) }
{
    push_named(b"link set dev ", name, line)?;
    push_number(b" mtu ", mtu, line)
}

fn push_mac(name: &Name, mac: &Mac, line: &mut Vec<u8>) -> Result<(), OutOfMemory>
    ensures { OnOk result (line.new.items ≡ line.old.items ++ spelling (Call.SetMac name.now mac.now)) }
{
    push_named(b"link set dev ", name, line)?;
    push_hardware(b" address ", mac, line)
}

fn push_attach(port: &Name, controller: &Name, line: &mut Vec<u8>) -> Result<(), OutOfMemory>
    ensures { OnOk result (line.new.items ≡ line.old.items ++ spelling (Call.Attach port.now controller.now)) }
{
    push_named(b"link set dev ", port, line)?;
    push_named(b" master ", controller, line)
}

fn push_address(
    command: &[u8],
    addr: &Prefix,
    name: &Name,
    line: &mut Vec<u8>,
) -> Result<(), OutOfMemory>
    ensures { OnOk result (line.new.items ≡ line.old.items ++ (command.now ++ prefix_text addr.now ++ codes " dev " ++ name.now)) }
{
    push_prefix(command, addr, line)?;
    push_named(b" dev ", name, line)
}

fn push_gateway(gateway: &Option<Addr>, line: &mut Vec<u8>) -> Result<(), OutOfMemory>
    ensures { OnOk result (line.new.items ≡ line.old.items ++ gateway_words gateway.now) }
{
    match gateway {
        None => Ok(()),
        Some(addr) => {
            line.extend_from_slice(b" via ")?;
            write_addr(addr, line)
        }
    }
}

fn push_route(command: &[u8], route: &Route, line: &mut Vec<u8>) -> Result<(), OutOfMemory>
    ensures { OnOk result (line.new.items ≡ line.old.items ++ spaced (routing command.now route.now)) }
{
    line.extend_from_slice(b"route ")?;
    line.extend_from_slice(command)?;
    push_prefix(b" ", &route.dest.prefix(), line)?;
    push_gateway(&route.gateway, line)?;
    push_named(b" dev ", &route.dev, line)?;
    push_number(b" table ", route.table.id(), line)?;
    push_number(b" metric ", route.metric, line)
}

// A comment with the line of plans.
fn push_own(call: &Call, line: &mut Vec<u8>) -> Result<(), OutOfMemory>
    requires { IsTrue (has_line call.now) }
    ensures { OnOk result (line.new.items ≡ line.old.items ++ spaced (own call.now)) }
{
    line.extend_from_slice(b"#! ")?;
    write_call_line(call, line)
}

/// Appends the spelling of a call, without a line's end. After a fault the line is of no use.
pub(crate) fn push_spelling(call: &Call, line: &mut Vec<u8>) -> Result<(), OutOfMemory>
    ensures { OnOk result (line.new.items ≡ line.old.items ++ spelling call.now) }
{
    match call {
        Call::AddLink { name, kind } => push_making(name, kind, line),
        Call::DelLink { name } => push_named(b"link del dev ", name, line),
        Call::Up { name } => push_set(name, b" up", line),
        Call::Down { name } => push_set(name, b" down", line),
        Call::SetMtu { name, mtu } => push_mtu(name, *mtu, line),
        Call::SetMac { name, mac } => push_mac(name, mac, line),
        Call::Attach { port, controller } => push_attach(port, controller, line),
        Call::Detach { port } => push_set(port, b" nomaster", line),
        Call::AddAddress { name, addr } => push_address(b"address add ", addr, name, line),
        Call::DelAddress { name, addr } => push_address(b"address del ", addr, name, line),
        Call::AddRoute { route } => push_route(b"add", route, line),
        Call::DelRoute { route } => push_route(b"del", route, line),
        Call::SetBond { .. } => push_own(call, line),
        Call::SetBridge { .. } => push_own(call, line),
        Call::SetPort { .. } => push_own(call, line),
        Call::AddRule { .. } => push_own(call, line),
        Call::DelRule { .. } => push_own(call, line),
        Call::SetDns { .. } => push_own(call, line),
    }
}
