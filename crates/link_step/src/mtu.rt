//! A new MTU, which the VLANs over the link don't pass.
ghost use Rattle.std.specs.Prelude.{◌≡◌, true, map, min, OnOk, OnErr};
ghost use Rattle.net_model.specs.Words.{rises};
ghost use Rattle.net_model.specs.Order.{link_cmp};
ghost use Rattle.net_model.specs.NetData.{IsNet};
ghost use Rattle.net_model.specs.Edits.{edit_link};
ghost use Rattle.kernel_model.specs.Settings.{with_mtu, after_set_mtu};
ghost use Rattle.link_step.specs.Clamped.{clamped};

use crate::hanging::{Affected, affected_on};
use net_core::Parts;
use net_lists::place_of;
use net_model::{Link, Name, OutOfMemory};
use std::alloc::Global;

fn lesser(a: u32, b: u32) -> u32
    ensures { result ≡ min a b }
{
    if b < a { b } else { a }
}

// What hangs on the named link gets its new MTU: the link itself in any case, the VLANs over it where theirs is larger.
fn clamp(link: &mut Link, name: &Name, mtu: u32)
    ensures { link.new ≡ with_mtu name.now mtu true link.old }
{
    if link.name == *name {
        link.mtu = mtu;
    } else {
        link.mtu = lesser(link.mtu, mtu);
    }
}

fn clamp_named(links: &mut [Link], name: &Name, mtu: u32, over: &Name)
    requires { rises link_cmp links.old ≡ true }
    ensures { links.new ≡ edit_link over.now (with_mtu name.now mtu true) links.old }
{
    match place_of(links, over) {
        Some(i) => clamp(&mut links[i], name, mtu),
        None => {}
    }
}

// The same of each of these links, each found by binary search.
fn clamp_links(links: &mut [Link], name: &Name, mtu: u32, over: &[Name])
    requires { rises link_cmp links.old ≡ true }
    ensures { links.new ≡ map (clamped name.now mtu over.now) links.old }
{
    for link in over {
        clamp_named(links, name, mtu, link);
    }
}

// The same on the vector.
fn clamp_each(links: &mut Vec<Link>, name: &Name, mtu: u32, over: &[Name])
    requires { rises link_cmp links.old.items ≡ true }
    ensures { links.new.items ≡ map (clamped name.now mtu over.now) links.old.items }
{
    clamp_links(links, name, mtu, over);
}

fn clamp_all(parts: &mut Parts, name: &Name, mtu: u32, over: &[Name])
    requires { rises link_cmp parts.old.links ≡ true }
    ensures { parts.new ≡ record parts.old { links = map (clamped name.now mtu over.now) parts.old.links } }
{
    clamp_each(&mut parts.links, name, mtu, over);
}

// Sets the MTU of the link, and lowers those of the VLANs over it. Only those that are above it are gone over, and the
// link itself, which gets it in any case. The memory for their names is taken first.
pub(crate) fn set_mtu(
    alloc: Global,
    parts: &mut Parts,
    name: &Name,
    mtu: u32,
) -> Result<(), OutOfMemory>
    requires { IsNet parts.old }
    ensures ok { OnOk result (parts.new ≡ after_set_mtu name.now mtu parts.old) }
    ensures err { OnErr result (parts.new ≡ parts.old) }
{
    let mut over = affected_on(alloc, parts, name, Affected::Above(mtu))?;
    over.push(*name)?;
    clamp_all(parts, name, mtu, &over);
    Ok(())
}
