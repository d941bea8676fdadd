//! The line of a call.
ghost use Rattle.std.specs.Prelude.{◌≡◌, ◌++◌, codes, OnOk, OnErr, IsTrue};
ghost use Rattle.net_text.specs.AddrText.{prefix_text};
ghost use Rattle.net_text.specs.Line.{call_line, has_line};

use crate::options::{push_bond, push_bridge, push_kind, push_port};
use crate::pieces::{push_mac, push_name, push_prefix};
use crate::routing::{push_dns, push_route, push_rule};
use base_model::push_decimal;
use net_model::{Call, Mac, Name, OutOfMemory, Prefix};

// A word and a name.
fn push_named(word: &[u8], name: &Name, line: &mut Vec<u8>) -> Result<(), OutOfMemory>
    ensures { OnOk result (line.new.items ≡ line.old.items ++ word.now ++ name.now) }
{
    line.extend_from_slice(word)?;
    push_name(name, line)
}

fn push_mtu(name: &Name, mtu: u32, line: &mut Vec<u8>) -> Result<(), OutOfMemory>
    ensures { OnOk result (line.new.items ≡ line.old.items ++ call_line (Call.SetMtu name.now mtu)) }
{
    push_named(b"set-mtu ", name, line)?;
    line.extend_from_slice(b" ")?;
    push_decimal(mtu, line)
}

fn push_hardware(name: &Name, mac: &Mac, line: &mut Vec<u8>) -> Result<(), OutOfMemory>
    ensures { OnOk result (line.new.items ≡ line.old.items ++ call_line (Call.SetMac name.now mac.now)) }
{
    push_named(b"set-mac ", name, line)?;
    line.extend_from_slice(b" ")?;
    push_mac(mac, line)
}

fn push_attach(port: &Name, controller: &Name, line: &mut Vec<u8>) -> Result<(), OutOfMemory>
    ensures { OnOk result (line.new.items ≡ line.old.items ++ call_line (Call.Attach port.now controller.now)) }
{
    push_named(b"attach ", port, line)?;
    push_named(b" ", controller, line)
}

// A word, a name and an address.
fn push_address(
    word: &[u8],
    name: &Name,
    addr: Prefix,
    line: &mut Vec<u8>,
) -> Result<(), OutOfMemory>
    ensures { OnOk result (line.new.items ≡ line.old.items ++ (word.now ++ name.now ++ codes " " ++ prefix_text addr)) }
{
    push_named(word, name, line)?;
    line.extend_from_slice(b" ")?;
    push_prefix(addr, line)
}

fn push_call(call: &Call, line: &mut Vec<u8>) -> Result<(), OutOfMemory>
    ensures { OnOk result (line.new.items ≡ line.old.items ++ call_line call.now) }
{
    match call {
        Call::AddLink { name, kind } => {
            push_named(b"add-link ", name, line)?;
            push_kind(kind, line)
        }
        Call::DelLink { name } => push_named(b"del-link ", name, line),
        Call::Up { name } => push_named(b"up ", name, line),
        Call::Down { name } => push_named(b"down ", name, line),
        Call::SetMtu { name, mtu } => push_mtu(name, *mtu, line),
        Call::SetMac { name, mac } => push_hardware(name, mac, line),
        Call::SetBond { name, opts } => {
            push_named(b"set-bond ", name, line)?;
            push_bond(opts, line)
        }
        Call::SetBridge { name, opts } => {
            push_named(b"set-bridge ", name, line)?;
            push_bridge(opts, line)
        }
        Call::Attach { port, controller } => push_attach(port, controller, line),
        Call::Detach { port } => push_named(b"detach ", port, line),
        Call::SetPort { port, opts } => {
            push_named(b"set-port ", port, line)?;
            push_port(opts, line)
        }
        Call::AddAddress { name, addr } => push_address(b"add-address ", name, *addr, line),
        Call::DelAddress { name, addr } => push_address(b"del-address ", name, *addr, line),
        Call::AddRoute { route } => {
            line.extend_from_slice(b"add-route ")?;
            push_route(route, line)
        }
        Call::DelRoute { route } => {
            line.extend_from_slice(b"del-route ")?;
            push_route(route, line)
        }
        Call::AddRule { rule } => {
            line.extend_from_slice(b"add-rule ")?;
            push_rule(rule, line)
        }
        Call::DelRule { rule } => {
            line.extend_from_slice(b"del-rule ")?;
            push_rule(rule, line)
        }
        Call::SetDns { dns } => {
            line.extend_from_slice(b"set-dns")?;
            push_dns(dns, line)
        }
    }
}

/// Appends the line of a call, without a line's end. The call isn't one that would make a link of
/// hardware, which has no line. Where memory runs out, `out` is as it was.
pub fn write_call_line(call: &Call, out: &mut Vec<u8>) -> Result<(), OutOfMemory>
    requires { IsTrue (has_line call.now) }
    ensures appends { OnOk result (out.new.items ≡ out.old.items ++ call_line call.now) }
    ensures unchanged { OnErr result (out.new.items ≡ out.old.items) }
{
    let mut line = Vec::new(*out.allocator());
    push_call(call, &mut line)?;
    out.extend_from_slice(&line)?;
    Ok(())
}
