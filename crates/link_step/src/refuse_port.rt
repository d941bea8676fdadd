//! The refusals of calls on ports.
ghost use Rattle.std.specs.Prelude.{◌≡◌, ◌&&◌, true, not, is_some, IfOk};
ghost use Rattle.net_model.specs.Words.{rises, is_empty};
ghost use Rattle.net_model.specs.Order.{link_cmp};
ghost use Rattle.net_model.specs.Links.{named_passes, takes, is_bond, is_bond_or_bridge};
ghost use Rattle.net_model.specs.Options.{port_in_range};
ghost use Rattle.net_model.specs.Valid.{is_bridge_port};
ghost use Rattle.kernel_model.specs.Words.{has_link};
ghost use Rattle.kernel_model.specs.Outcome.{first_true};
ghost use Rattle.kernel_model.specs.Ports.{pair_passes, attach_refusals, detach_refusals, set_port_refusals};
ghost use Rattle.link_step.specs.Pairs.{pair_refusals};

use crate::cycle::makes_cycle;
use crate::lookup::has_link;
use crate::refuse::is_named_bridge;
use kernel_model::refusal::{
    BAD_OPTIONS, CYCLE, HAS_CONTROLLER, NO_CONTROLLER, NO_LINK, PORT_ADDRESS, PORT_KIND, PORT_UP,
};
use net_core::Net;
use net_lists::{find_link, is_bond, is_bond_or_bridge, takes};
use net_model::{Kind, Link, Name, OutOfMemory, PortOpts};

#[tactic(auto, using(net_model::proofs::lemmas::Found::named_passes_found))]
fn has_controller(links: &[Link], port: &Name) -> bool
    requires { rises link_cmp links.now ≡ true }
    ensures { result ≡ named_passes (λ p. is_some p.controller) links.now port.now }
{
    find_link(links, port).is_some_and(|link| link.controller.is_some())
}

#[tactic(auto, using(net_model::proofs::lemmas::Found::named_passes_found))]
fn is_taken(links: &[Link], controller: &Kind, port: &Name) -> bool
    requires { rises link_cmp links.now ≡ true }
    ensures { result ≡ named_passes (λ p. takes controller.now p.kind) links.now port.now }
{
    find_link(links, port).is_some_and(|link| takes(controller, &link.kind))
}

#[tactic(auto, using(net_model::proofs::lemmas::Found::named_passes_found))]
fn takes_port(links: &[Link], controller: &Name, port: &Name) -> bool
    requires { rises link_cmp links.now ≡ true }
    ensures { result ≡ pair_passes (λ c p. takes c.kind p.kind) links.now controller.now port.now }
{
    find_link(links, controller).is_some_and(|link| is_taken(links, &link.kind, port))
}

#[tactic(auto, using(net_model::proofs::lemmas::Found::named_passes_found))]
fn is_up_below(links: &[Link], controller: &Kind, port: &Name) -> bool
    requires { rises link_cmp links.now ≡ true }
    ensures { result ≡ named_passes (λ p. is_bond controller.now && p.up) links.now port.now }
{
    find_link(links, port).is_some_and(|link| is_bond(controller) && link.up)
}

#[tactic(auto, using(net_model::proofs::lemmas::Found::named_passes_found))]
fn is_up_in_bond(links: &[Link], controller: &Name, port: &Name) -> bool
    requires { rises link_cmp links.now ≡ true }
    ensures { result ≡ pair_passes (λ c p. is_bond c.kind && p.up) links.now controller.now port.now }
{
    find_link(links, controller).is_some_and(|link| is_up_below(links, &link.kind, port))
}

fn is_bare(link: &Link) -> bool
    ensures { result ≡ is_empty link.now.addrs }
{
    link.addrs.items().is_empty()
}

#[tactic(auto, using(net_model::proofs::lemmas::Found::named_passes_found))]
fn has_address_below(links: &[Link], controller: &Kind, port: &Name) -> bool
    requires { rises link_cmp links.now ≡ true }
    ensures { result ≡ named_passes (λ p. is_bond_or_bridge controller.now && not (is_empty p.addrs)) links.now port.now }
{
    find_link(links, port).is_some_and(|link| is_bond_or_bridge(controller) && !is_bare(link))
}

#[tactic(auto, using(net_model::proofs::lemmas::Found::named_passes_found))]
fn has_address_in_one(links: &[Link], controller: &Name, port: &Name) -> bool
    requires { rises link_cmp links.now ≡ true }
    ensures { result ≡ pair_passes (λ c p. is_bond_or_bridge c.kind && not (is_empty p.addrs)) links.now controller.now port.now }
{
    find_link(links, controller).is_some_and(|link| has_address_below(links, &link.kind, port))
}

fn pair(links: &[Link], port: &Name, controller: &Name) -> Option<u8>
    requires { rises link_cmp links.now ≡ true }
    ensures { result ≡ first_true (pair_refusals port.now controller.now links.now) }
{
    if has_controller(links, port) {
        return Some(HAS_CONTROLLER);
    }
    if !takes_port(links, controller, port) {
        return Some(PORT_KIND);
    }
    if is_up_in_bond(links, controller, port) {
        return Some(PORT_UP);
    }
    if has_address_in_one(links, controller, port) {
        return Some(PORT_ADDRESS);
    }
    None
}

fn are_there(links: &[Link], port: &Name, controller: &Name) -> bool
    requires { rises link_cmp links.now ≡ true }
    ensures { result ≡ (has_link port.now links.now && has_link controller.now links.now) }
{
    has_link(links, port) && has_link(links, controller)
}

pub(crate) fn attach(net: &Net, port: &Name, controller: &Name) -> Result<Option<u8>, OutOfMemory>
    ensures { IfOk result (λ number. number ≡ first_true (attach_refusals port.now controller.now net.now)) }
{
    net.laws();
    let links = net.links();
    if !are_there(links, port, controller) {
        return Ok(Some(NO_LINK));
    }
    if makes_cycle(net, port, controller)? {
        return Ok(Some(CYCLE));
    }
    Ok(pair(links, port, controller))
}

pub(crate) fn detach(net: &Net, port: &Name) -> Option<u8>
    ensures { result ≡ first_true (detach_refusals port.now net.now) }
{
    net.laws();
    let links = net.links();
    if !has_link(links, port) {
        return Some(NO_LINK);
    }
    if !has_controller(links, port) {
        return Some(NO_CONTROLLER);
    }
    None
}

fn has_bridge(links: &[Link], link: &Link) -> bool
    requires { rises link_cmp links.now ≡ true }
    ensures { result ≡ is_bridge_port links.now link.now }
{
    match &link.controller {
        Some(controller) => is_named_bridge(links, controller),
        None => false,
    }
}

#[tactic(auto, using(net_model::proofs::lemmas::Found::named_passes_found))]
fn is_bridge_port(links: &[Link], port: &Name) -> bool
    requires { rises link_cmp links.now ≡ true }
    ensures { result ≡ named_passes (is_bridge_port links.now) links.now port.now }
{
    find_link(links, port).is_some_and(|link| has_bridge(links, link))
}

fn port_in_range(opts: &PortOpts) -> bool
    ensures { result ≡ port_in_range opts.now }
{
    opts.cost >= 1 && opts.priority <= 63
}

pub(crate) fn set_port(net: &Net, port: &Name, opts: &PortOpts) -> Option<u8>
    ensures { result ≡ first_true (set_port_refusals port.now opts.now net.now) }
{
    net.laws();
    let links = net.links();
    if !has_link(links, port) {
        return Some(NO_LINK);
    }
    if !has_controller(links, port) {
        return Some(NO_CONTROLLER);
    }
    if !(is_bridge_port(links, port) && port_in_range(opts)) {
        return Some(BAD_OPTIONS);
    }
    None
}
