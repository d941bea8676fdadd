//! The graph of dependence: for each link, the places of those that it depends on.
ghost use Rattle.std.specs.Prelude.{◌≡◌, ◌<◌, ◌+◌, ◌++◌, ◌∷◌, [], true, IfOk, OnOk, length, get_or, set, replicate};
ghost use Rattle.net_model.specs.Words.{rises};
ghost use Rattle.net_model.specs.Order.{link_cmp};
ghost use Rattle.net_model.specs.Links.{is_port_of};
ghost use Rattle.net_model.specs.Dependence.{has_base};
ghost use Rattle.net_model.specs.Arrows.{FindsOnly, Draws};

use base_model::{Items, OutOfMemory};
use net_lists::place_of;
use net_model::{Kind, Link};
use std::alloc::{AllocError, Global};

// The place of its base, where the link is a VLAN.
fn base_place(links: &[Link], link: &Link) -> Option<usize>
    requires { rises link_cmp links.now ≡ true }
    ensures { FindsOnly (λ b. has_base link.now.kind b.name) links.now result }
{
    match &link.kind {
        Kind::Vlan { base, .. } => place_of(links, base),
        _ => None,
    }
}

// The place of its controller, where the link has one.
fn controller_place(links: &[Link], link: &Link) -> Option<usize>
    requires { rises link_cmp links.now ≡ true }
    ensures { FindsOnly (λ c. is_port_of c.name link.now) links.now result }
{
    match &link.controller {
        Some(controller) => place_of(links, controller),
        None => None,
    }
}

// Adds an arrow from one place to another.
fn add_arrow(arrows: &mut [Items<usize>], from: usize, to: usize) -> Result<(), OutOfMemory>
    requires { from < length arrows.old }
    ensures { OnOk result (arrows.new ≡ set arrows.old from (get_or arrows.old from [] ++ to ∷ [])) }
{
    arrows[from].push(to)
}

// Adds the arrow from a VLAN to its base.
fn add_base(arrows: &mut [Items<usize>], links: &[Link], at: usize) -> Result<(), OutOfMemory>
    requires in_order { rises link_cmp links.now ≡ true }
    requires inside { at < length links.now }
    requires drawn { Draws links.now at at arrows.old }
    ensures { OnOk result (Draws links.now (at + 1) at arrows.new) }
{
    match base_place(links, &links[at]) {
        Some(base) => add_arrow(arrows, at, base),
        None => Ok(()),
    }
}

// Adds the arrow from a controller to its port.
fn add_port(arrows: &mut [Items<usize>], links: &[Link], at: usize) -> Result<(), OutOfMemory>
    requires in_order { rises link_cmp links.now ≡ true }
    requires inside { at < length links.now }
    requires drawn { Draws links.now (at + 1) at arrows.old }
    ensures { OnOk result (Draws links.now (at + 1) (at + 1) arrows.new) }
{
    match controller_place(links, &links[at]) {
        Some(controller) => add_arrow(arrows, controller, at),
        None => Ok(()),
    }
}

fn no_arrows(alloc: Global, len: usize) -> Result<Vec<Items<usize>>, AllocError>
    ensures { IfOk result (λ arrows. arrows.items ≡ replicate len []) }
{
    let mut arrows = Vec::new(alloc);
    for _ in 0..len {
        arrows.push(Items::of(Vec::new(alloc)))?;
    }
    Ok(arrows)
}

// Adds the arrows of all links.
fn add_arrows(arrows: &mut [Items<usize>], links: &[Link]) -> Result<(), OutOfMemory>
    requires in_order { rises link_cmp links.now ≡ true }
    requires none { arrows.old ≡ replicate (length links.now) [] }
    ensures { OnOk result (Draws links.now (length links.now) (length links.now) arrows.new) }
{
    for at in 0..links.len() {
        add_base(arrows, links, at)?;
        add_port(arrows, links, at)?;
    }
    Ok(())
}

/// For each link, the places of those that it depends on, each found by binary search: of a VLAN's base, and of a
/// controller's ports. The links are sorted by name.
pub fn arrows(alloc: Global, links: &[Link]) -> Result<Vec<Items<usize>>, OutOfMemory>
    requires { rises link_cmp links.now ≡ true }
    ensures { IfOk result (λ arrows. Draws links.now (length links.now) (length links.now) arrows.items) }
{
    let mut arrows = no_arrows(alloc, links.len())?;
    add_arrows(&mut arrows, links)?;
    Ok(arrows)
}
