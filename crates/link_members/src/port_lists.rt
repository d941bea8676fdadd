//! The stated lists of ports.
ghost use Rattle.std.specs.Prelude.{◌≡◌, [], map, IfOk};
ghost use Rattle.std.specs.Option.{option_map, unwrap_or};
ghost use Rattle.document_model.specs.declared.PortEntry.{PortEntry};
ghost use Rattle.merge_model.specs.Controllers.{ports_by, stated_ports};
ghost use Rattle.link_members.specs.Listers.{port_names};

use document_model::{LinkEntry, PortEntry};
use link_order::{Index, Member};
use net_model::{Items, Kind, Name};
use std::alloc::{AllocError, Global};

fn name_list(alloc: Global, names: &Option<Items<Name>>) -> Result<Vec<Name>, AllocError>
    ensures { IfOk result (λ list. list.items ≡ unwrap_or names.now []) }
{
    match names {
        Some(names) => names.items().iter().copied().collect(alloc),
        None => Ok(Vec::new(alloc)),
    }
}

fn port_names(alloc: Global, ports: &[PortEntry]) -> Result<Vec<Name>, AllocError>
    ensures { IfOk result (λ list. list.items ≡ map (λ (p : PortEntry). p.name) ports.now) }
{
    ports.iter().map(|port| port.name).collect(alloc)
}

fn entry_list(alloc: Global, ports: &Option<Items<PortEntry>>) -> Result<Vec<Name>, AllocError>
    ensures { IfOk result (λ list. list.items ≡ unwrap_or (option_map (map (λ (p : PortEntry). p.name)) ports.now) []) }
{
    match ports {
        Some(ports) => port_names(alloc, ports.items()),
        None => Ok(Vec::new(alloc)),
    }
}

fn list_by(alloc: Global, kind: &Kind, entry: &LinkEntry) -> Result<Vec<Name>, AllocError>
    ensures { IfOk result (λ list. list.items ≡ unwrap_or (ports_by kind.now entry.now) []) }
{
    match kind {
        Kind::Bond { .. } => name_list(alloc, &entry.bond.ports),
        Kind::Bridge => entry_list(alloc, &entry.bridge.ports),
        Kind::Vrf { .. } => name_list(alloc, &entry.vrf.ports),
        _ => Ok(Vec::new(alloc)),
    }
}

/// The stated list of ports, empty where none is stated. The error is that memory is out.
pub fn stated_ports(alloc: Global, member: &Member) -> Result<Vec<Name>, AllocError>
    ensures { IfOk result (λ list. list.items ≡ unwrap_or (stated_ports member.now) []) }
{
    let kind = member.kind();
    match member.entry() {
        Some(entry) => list_by(alloc, &kind, entry),
        None => Ok(Vec::new(alloc)),
    }
}

/// The stated lists of ports, each with an index of its names.
pub(crate) fn port_indexes(alloc: Global, members: &[Member]) -> Result<Vec<Index>, AllocError>
    ensures { IfOk result (λ indexes. indexes.items ≡ map port_names members.now) }
{
    let mut indexes = Vec::new(alloc);
    for member in members {
        let ports = stated_ports(alloc, member)?;
        let index = Index::of(alloc, ports)?;
        indexes.push(index)?;
    }
    Ok(indexes)
}
