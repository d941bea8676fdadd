//! The merged links: one rule for each field.
ghost use Rattle.std.specs.Prelude.{◌≡◌, IfOk, length};
ghost use Rattle.merge_model.specs.Merged.{merged_link, merged_links};
ghost use Rattle.link_fields.specs.Bases.{SuitsWithin};

use crate::addresses::addrs_of;
use crate::bases::{Fields, all_fields};
use crate::options::{bond_of, bridge_of, port_of};
use link_members::Members;
use link_order::Member;
use net_model::Link;
use std::alloc::{AllocError, Global};

fn merged_link(
    alloc: Global,
    members: &Members,
    member: &Member,
    fields: Fields,
) -> Result<Link, AllocError>
    requires { SuitsWithin members.now (length members.now) member.now fields }
    ensures { IfOk result (λ link. link ≡ merged_link members.now member.now) }
{
    let addrs = addrs_of(alloc, members, member, fields.up)?;
    Ok(Link {
        name: member.name(),
        kind: member.kind(),
        up: fields.up,
        mtu: fields.mtu,
        mac: fields.mac,
        controller: member.controller(),
        bond: bond_of(alloc, members, member),
        bridge: bridge_of(member),
        port: port_of(members, member),
        addrs,
    })
}

/// The merged links, by rank. The error is that memory is out.
pub fn merged_links(alloc: Global, members: &Members) -> Result<Vec<Link>, AllocError>
    ensures { IfOk result (λ links. links.items ≡ merged_links members.now) }
{
    let list = members.list();
    let fields = all_fields(alloc, members)?;
    let mut links = Vec::new(alloc);
    for at in 0..list.len() {
        links.push(merged_link(alloc, members, &list[at], fields[at])?)?;
    }
    Ok(links)
}
