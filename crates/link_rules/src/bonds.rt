//! The rule 15 of the merge: a bond's options aren't right for its mode and its ports.
ghost use Rattle.std.specs.Prelude.{◌≡◌, true, filter, IfOk};
ghost use Rattle.std.specs.Option.{option_to_list};
ghost use Rattle.net_model.specs.Words.{is_among};
ghost use Rattle.net_model.specs.Links.{is_port_of, ports_of, named_passes};
ghost use Rattle.net_model.specs.Options.{bond_ok, bond_fits};
ghost use Rattle.merge_model.specs.BrokenLinks.{bond_options};

use crate::merged::Merged;
use document_model::Place;
use net_lists::is_port_of;
use net_model::{BondMode, Kind, Link, Name};
use net_valid::bond_ok;
use std::alloc::{AllocError, Global};

#[tactic(auto, using(net_model::proofs::lemmas::ByName::passes_where_found))]
fn has_port(merged: &Merged, controller: &Name, port: &Name) -> bool
    ensures { result ≡ named_passes (is_port_of controller.now) merged.now port.now }
{
    merged
        .find(port)
        .is_some_and(|link| is_port_of(link, controller))
}

fn is_among_ports(merged: &Merged, controller: &Name, port: &Name) -> bool
    ensures { result ≡ is_among (ports_of merged.now controller.now) port.now }
{
    has_port(merged, controller, port)
}

// The primary, where it is a port of the bond.
fn primary_port(alloc: Global, merged: &Merged, link: &Link) -> Result<Vec<Name>, AllocError>
    ensures { IfOk result (λ ports. ports.items ≡ filter (is_among (ports_of merged.now link.now.name)) (option_to_list link.now.bond.primary)) }
{
    let mut ports = Vec::new(alloc);
    if let Some(primary) = link.bond.primary {
        if is_among_ports(merged, &link.name, &primary) {
            ports.push(primary)?;
        }
    }
    Ok(ports)
}

#[tactic(auto, using(crate::proofs::Primaries::bond_ok_primary))]
fn bond_fits_mode(
    alloc: Global,
    merged: &Merged,
    link: &Link,
    mode: BondMode,
) -> Result<bool, AllocError>
    ensures { IfOk result (λ fits. fits ≡ bond_ok mode link.now.bond (ports_of merged.now link.now.name)) }
{
    let ports = primary_port(alloc, merged, link)?;
    Ok(bond_ok(mode, &link.bond, &ports))
}

fn bond_fits(alloc: Global, merged: &Merged, link: &Link) -> Result<bool, AllocError>
    ensures { IfOk result (λ fits. fits ≡ bond_fits merged.now link.now link.now.kind) }
{
    match link.kind {
        Kind::Bond { mode } => bond_fits_mode(alloc, merged, link, mode),
        _ => Ok(true),
    }
}

/// The place of rule 15.
pub(crate) fn bond_options(alloc: Global, merged: &Merged) -> Result<Option<Place>, AllocError>
    ensures { IfOk result (λ place. place ≡ bond_options merged.now) }
{
    let links = merged.links().as_slice();
    for at in 0..links.len() {
        if !bond_fits(alloc, merged, &links[at])? {
            return Ok(Some(Place::Link(links[at].name)));
        }
    }
    Ok(None)
}
