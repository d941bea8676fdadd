//! Calls as bytes, appended to others. Where memory is refused, the bytes are as they were.
ghost use Rattle.std.specs.Prelude.{◌≡◌, ◌++◌, ◌∷◌, [], true, OnOk, OnErr};
ghost use Rattle.net_image.specs.Form.{number};
ghost use Rattle.net_image.specs.Fields.{name};
ghost use Rattle.call_journal.specs.Calls.{call_form, HasBytes};

use net_image::{
    OutOfMemory, put_bond, put_bridge, put_dns, put_kind, put_mac, put_name, put_port, put_prefix,
    put_route, put_rule,
};
use net_model::{Call, Name};

// A name that is there.
#[tactic(auto, using(net_image::proofs::lemmas::Fitting::maybe_named))]
fn push_name(of: &Name, out: &mut Vec<u8>) -> Result<(), OutOfMemory>
    ensures bytes { OnOk result (out.new.items ≡ out.old.items ++ name.write of.now) }
    ensures fits { OnOk result (name.fits of.now ≡ true) }
{
    of.laws();
    let there = Some(*of);
    put_name(&there, out)
}

fn push_u32(n: u32, out: &mut Vec<u8>) -> Result<(), OutOfMemory>
    ensures bytes { OnOk result (out.new.items ≡ out.old.items ++ (number 4).write n) }
    ensures fits { OnOk result ((number 4).fits n ≡ true) }
{
    out.extend_from_slice(&n.to_be_bytes())?;
    Ok(())
}

fn push_number(number: u8, out: &mut Vec<u8>) -> Result<(), OutOfMemory>
    ensures { OnOk result (out.new.items ≡ out.old.items ++ number ∷ []) }
{
    out.push(number)?;
    Ok(())
}

// The number of a call, and the name that comes first in it.
fn begin(number: u8, of: &Name, out: &mut Vec<u8>) -> Result<(), OutOfMemory>
    ensures bytes { OnOk result (out.new.items ≡ out.old.items ++ number ∷ name.write of.now) }
    ensures fits { OnOk result (name.fits of.now ≡ true) }
{
    push_number(number, out)?;
    push_name(of, out)
}

// The bytes of a call; where memory is refused, a part of them may stand after the old ones.
#[tactic(auto, unfolding(crate::specs::Calls::call_form))]
fn push_call(call: &Call, out: &mut Vec<u8>) -> Result<(), OutOfMemory>
    requires { HasBytes call.now }
    ensures bytes { OnOk result (out.new.items ≡ out.old.items ++ call_form.write call.now) }
    ensures fits { OnOk result (call_form.fits call.now ≡ true) }
{
    match call {
        Call::AddLink { name, kind } => {
            begin(1, name, out)?;
            put_kind(kind, out)
        }
        Call::DelLink { name } => begin(2, name, out),
        Call::Up { name } => begin(3, name, out),
        Call::Down { name } => begin(4, name, out),
        Call::SetMtu { name, mtu } => {
            begin(5, name, out)?;
            push_u32(*mtu, out)
        }
        Call::SetMac { name, mac } => {
            begin(6, name, out)?;
            put_mac(mac, out)
        }
        Call::SetBond { name, opts } => {
            begin(7, name, out)?;
            put_bond(opts, out)
        }
        Call::SetBridge { name, opts } => {
            begin(8, name, out)?;
            put_bridge(opts, out)
        }
        Call::Attach { port, controller } => {
            begin(9, port, out)?;
            push_name(controller, out)
        }
        Call::Detach { port } => begin(10, port, out),
        Call::SetPort { port, opts } => {
            begin(11, port, out)?;
            put_port(opts, out)
        }
        Call::AddAddress { name, addr } => {
            begin(12, name, out)?;
            put_prefix(addr, out)
        }
        Call::DelAddress { name, addr } => {
            begin(13, name, out)?;
            put_prefix(addr, out)
        }
        Call::AddRoute { route } => {
            push_number(14, out)?;
            put_route(route, out)
        }
        Call::DelRoute { route } => {
            push_number(15, out)?;
            put_route(route, out)
        }
        Call::AddRule { rule } => {
            push_number(16, out)?;
            put_rule(rule, out)
        }
        Call::DelRule { rule } => {
            push_number(17, out)?;
            put_rule(rule, out)
        }
        Call::SetDns { dns } => {
            push_number(18, out)?;
            put_dns(dns, out)
        }
    }
}

/// Appends the bytes of a call. Settings of DNS have them where they have no more servers and search domains than a
/// network may have, and every other call has them. Where memory runs out, `out` is as it was.
pub fn write_call(call: &Call, out: &mut Vec<u8>) -> Result<(), OutOfMemory>
    requires { HasBytes call.now }
    ensures bytes { OnOk result (out.new.items ≡ out.old.items ++ call_form.write call.now) }
    ensures fits { OnOk result (call_form.fits call.now ≡ true) }
    ensures unchanged { OnErr result (out.new.items ≡ out.old.items) }
{
    let mut bytes = Vec::new(*out.allocator());
    push_call(call, &mut bytes)?;
    out.extend_from_slice(&bytes)?;
    Ok(())
}
