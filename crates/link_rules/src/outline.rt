//! The merged links before their fields: as much of them as the rules 9 to 11 look at.
ghost use Rattle.std.specs.Prelude.{◌≡◌, map, IfOk};
ghost use Rattle.merge_model.specs.Merged.{merged_link};
ghost use Rattle.link_rules.specs.Outline.{outline};

use link_members::Members;
use link_order::Member;
use net_model::{BondOpts, BridgeOpts, DEFAULT_MTU, Items, Link, Mac, PortOpts};
use std::alloc::{AllocError, Global};

fn outline(alloc: Global, members: &Members, member: &Member) -> Link
    ensures { result ≡ outline (merged_link members.now member.now) }
{
    let _ = members;
    let name = member.name();
    Link {
        name,
        kind: member.kind(),
        up: false,
        mtu: DEFAULT_MTU,
        mac: Mac::of_virtual(&name),
        controller: member.controller(),
        bond: BondOpts::defaults(),
        bridge: BridgeOpts::defaults(),
        port: PortOpts::defaults(),
        addrs: Items::of(Vec::new(alloc)),
    }
}

/// The merged links by rank, with the defaults in place of their fields. The error is that memory is out.
pub(crate) fn outlines(alloc: Global, members: &Members) -> Result<Vec<Link>, AllocError>
    ensures { IfOk result (λ links. links.items ≡ map (λ m. outline (merged_link members.now m)) members.now) }
{
    let list = members.list();
    let mut links = Vec::new(alloc);
    for at in 0..list.len() {
        links.push(outline(alloc, members, &list[at]))?;
    }
    Ok(links)
}
