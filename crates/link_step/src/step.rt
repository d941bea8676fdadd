//! One call on links.
ghost use Rattle.std.specs.Prelude.{◌≡◌, ℕ, true, Some, None, Ok, Err, OnOk, OnErr, IfOk};
ghost use Rattle.net_model.specs.Words.{rises};
ghost use Rattle.net_model.specs.Order.{link_cmp};
ghost use Rattle.net_model.specs.NetData.{IsNet};
ghost use Rattle.net_model.specs.Edits.{edit_link};
ghost use Rattle.kernel_model.specs.Outcome.{first_true};
ghost use Rattle.kernel_model.specs.Ports.{attach_refusals, after_attach, after_detach};
ghost use Rattle.kernel_model.specs.Kernel.{refusals, after, step};
ghost use Rattle.kernel_model.specs.declared.fault.StepFault.TheVariants.{Refused};
ghost use Rattle.link_step.specs.Calls.{is_on_links};
ghost use Rattle.link_step.specs.OneLink.{written};

use crate::lookup::controller_of;
use crate::lower::down;
use crate::made::{add_link, del_link};
use crate::mtu::set_mtu;
use crate::one_link::write_on;
use crate::{refuse, refuse_port};
use kernel_model::StepFault;
use net_core::{Net, Parts};
use net_model::{Call, Name, OutOfMemory};
use std::alloc::Global;

// The least number with which the call is refused.
fn refusal(net: &Net, call: &Call) -> Result<Option<u8>, OutOfMemory>
    requires { is_on_links call.now ≡ true }
    ensures { IfOk result (λ number. number ≡ first_true (refusals call.now net.now)) }
{
    match call {
        Call::AddLink { name, kind } => Ok(refuse::add_link(net, name, kind)),
        Call::DelLink { name } => Ok(refuse::del_link(net, name)),
        Call::Up { name } => Ok(refuse::up(net, name)),
        Call::Down { name } => Ok(refuse::down(net, name)),
        Call::SetMtu { name, mtu } => Ok(refuse::set_mtu(net, name, *mtu)),
        Call::SetMac { name, .. } => Ok(refuse::set_mac(net, name)),
        Call::SetBond { name, opts } => Ok(refuse::set_bond(net, name, opts)),
        Call::SetBridge { name, opts } => Ok(refuse::set_bridge(net, name, opts)),
        Call::Attach { port, controller } => refuse_port::attach(net, port, controller),
        Call::Detach { port } => Ok(refuse_port::detach(net, port)),
        Call::SetPort { port, opts } => Ok(refuse_port::set_port(net, port, opts)),
        _ => Ok(None),
    }
}

fn write_call(parts: &mut Parts, name: &Name, call: &Call) -> Result<(), OutOfMemory>
    requires { rises link_cmp parts.old.links ≡ true }
    ensures ok { OnOk result (parts.new ≡ record parts.old { links = edit_link name.now (written call.now) parts.old.links }) }
    ensures err { OnErr result (parts.new ≡ parts.old) }
{
    write_on(parts, name, call);
    Ok(())
}

// Attaches a port that has no controller.
fn attach(parts: &mut Parts, port: &Name, controller: &Name) -> Result<(), OutOfMemory>
    requires in_order { rises link_cmp parts.old.links ≡ true }
    requires accepted { first_true (attach_refusals port.now controller.now parts.old) ≡ None }
    ensures ok { OnOk result (parts.new ≡ after_attach port.now controller.now parts.old) }
    ensures err { OnErr result (parts.new ≡ parts.old) }
{
    parts.attach(port, controller)
}

// Detaches a port. A primary is one of the ports of its bond, so no link but the controller can have this one.
fn detach(parts: &mut Parts, port: &Name) -> Result<(), OutOfMemory>
    requires { IsNet parts.old }
    ensures ok { OnOk result (parts.new ≡ after_detach port.now parts.old) }
    ensures err { OnErr result (parts.new ≡ parts.old) }
{
    match controller_of(&parts.links, port) {
        Some(controller) => parts.detach_from(port, &controller),
        None => parts.detach(port),
    }
    Ok(())
}

// Does what a call that isn't refused does. What it needs memory for comes before its first change.
fn edit(alloc: Global, parts: &mut Parts, call: &Call) -> Result<(), OutOfMemory>
    requires on_links { is_on_links call.now ≡ true }
    requires net { IsNet parts.old }
    requires accepted { first_true (refusals call.now parts.old) ≡ None }
    ensures ok { OnOk result (parts.new ≡ after call.now parts.old) }
    ensures err { OnErr result (parts.new ≡ parts.old) }
{
    match call {
        Call::AddLink { name, kind } => add_link(alloc, parts, name, kind),
        Call::DelLink { name } => del_link(alloc, parts, name),
        Call::Up { name } => write_call(parts, name, call),
        Call::Down { name } => down(alloc, parts, name),
        Call::SetMtu { name, mtu } => set_mtu(alloc, parts, name, *mtu),
        Call::SetMac { name, .. } => write_call(parts, name, call),
        Call::SetBond { name, .. } => write_call(parts, name, call),
        Call::SetBridge { name, .. } => write_call(parts, name, call),
        Call::Attach { port, controller } => attach(parts, port, controller),
        Call::Detach { port } => detach(parts, port),
        Call::SetPort { port, .. } => write_call(parts, port, call),
        _ => Ok(()),
    }
}

// Carries out a call that isn't refused.
fn carry_out(net: &mut Net, call: &Call) -> Result<(), StepFault>
    requires on_links { is_on_links call.now ≡ true }
    requires accepted { first_true (refusals call.now net.old) ≡ None }
    ensures done { OnOk result (net.new ≡ after call.now net.old) }
    ensures fault { (k : ℕ) → result ≡ Err (Refused k) → ⊥ }
    ensures unchanged { OnErr result (net.new ≡ net.old) }
{
    let alloc = *net.links().allocator();
    let mut parts = net.take();
    let done = edit(alloc, &mut parts, call);
    *net = Net::from_parts(parts);
    match done {
        Ok(()) => Ok(()),
        Err(OutOfMemory) => Err(StepFault::OutOfMemory),
    }
}

/// Carries out a call on links, in place. What has to grow grows before the first change.
pub fn step_link(net: &mut Net, call: &Call) -> Result<(), StepFault>
    requires { is_on_links call.now ≡ true }
    // The network is the one after the call.
    ensures done { OnOk result (step call.now net.old ≡ Ok net.new) }
    // The number is that of the least refusal.
    ensures refused { (k : ℕ) → result ≡ Err (Refused k) → step call.now net.old ≡ Err k }
    // After either fault the network is as it was.
    ensures unchanged { OnErr result (net.new ≡ net.old) }
{
    match refusal(net, call)? {
        Some(number) => Err(StepFault::Refused(number)),
        None => carry_out(net, call),
    }
}
