//! Indexes of lists as they stand, in whatever order.
ghost use Rattle.std.specs.Prelude.{◌≡◌, ℕ, List, [], ◌∷◌, ◌++◌, OnOk};
ghost use Rattle.net_model.specs.Links.{ports_of};
ghost use Rattle.net_index.specs.InIndex.{listed};
ghost use Rattle.net_model.specs.OfName.{over, routes_of};

use crate::index::Index;
use base_model::OutOfMemory;
use net_model::{Kind, Link, Name, Route, RouteKey};

fn add_base(index: &mut Index<Name>, link: &Link) -> Result<(), OutOfMemory>
    ensures { OnOk result ((k : List ℕ) → listed index.new k ≡ listed index.old k ++ over (link.now ∷ []) k) }
{
    match &link.kind {
        Kind::Vlan { base, .. } => index.push(base, link.name),
        _ => Ok(()),
    }
}

/// Fills an empty index with the VLANs over each base.
pub(crate) fn add_bases(index: &mut Index<Name>, links: &[Link]) -> Result<(), OutOfMemory>
    requires { (k : List ℕ) → listed index.old k ≡ [] }
    ensures { OnOk result ((k : List ℕ) → listed index.new k ≡ over links.now k) }
{
    for at in 0..links.len() {
        add_base(index, &links[at])?;
    }
    Ok(())
}

fn add_port(index: &mut Index<Name>, link: &Link) -> Result<(), OutOfMemory>
    ensures { OnOk result ((k : List ℕ) → listed index.new k ≡ listed index.old k ++ ports_of (link.now ∷ []) k) }
{
    match &link.controller {
        Some(controller) => index.push(controller, link.name),
        None => Ok(()),
    }
}

/// Fills an empty index with the ports of each controller.
pub(crate) fn add_ports(index: &mut Index<Name>, links: &[Link]) -> Result<(), OutOfMemory>
    requires { (k : List ℕ) → listed index.old k ≡ [] }
    ensures { OnOk result ((k : List ℕ) → listed index.new k ≡ ports_of links.now k) }
{
    for at in 0..links.len() {
        add_port(index, &links[at])?;
    }
    Ok(())
}

fn add_key(index: &mut Index<RouteKey>, route: &Route) -> Result<(), OutOfMemory>
    ensures { OnOk result ((k : List ℕ) → listed index.new k ≡ listed index.old k ++ routes_of (route.now ∷ []) k) }
{
    index.push(&route.dev, RouteKey::of(route))
}

/// Fills an empty index with the routes of each device.
pub(crate) fn add_keys(index: &mut Index<RouteKey>, routes: &[Route]) -> Result<(), OutOfMemory>
    requires { (k : List ℕ) → listed index.old k ≡ [] }
    ensures { OnOk result ((k : List ℕ) → listed index.new k ≡ routes_of routes.now k) }
{
    for at in 0..routes.len() {
        add_key(index, &routes[at])?;
    }
    Ok(())
}
