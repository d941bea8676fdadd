//! The merged ports of each controller.
ghost use Rattle.std.specs.Prelude.{◌≡◌, ◌++◌, ◌∷◌, ℕ, [], false, List, if◌then◌else◌, IfOk, OnOk};
ghost use Rattle.std.specs.Option.{option_map_or, unwrap_or};
ghost use Rattle.std.specs.BTreeMap.{get};
ghost use Rattle.net_model.specs.Name.{same_bytes};
ghost use Rattle.net_model.specs.Order.{name_cmp};
ghost use Rattle.link_members.specs.Controlled.{HasPorts};

use link_order::Member;
use net_model::{Items, Name};
use std::alloc::{AllocError, Global};
use std::collections::BTreeMap;

fn items_or_empty(alloc: Global, names: Option<Items<Name>>) -> Vec<Name>
    ensures { result.items ≡ unwrap_or names [] }
{
    match names {
        Some(names) => names.into_vec(),
        None => Vec::new(alloc),
    }
}

// Puts the port last among those of its controller.
fn put_port(
    alloc: Global,
    ports: &mut BTreeMap<Name, Items<Name>>,
    controller: Name,
    port: Name,
) -> Result<(), AllocError>
    ensures { OnOk result ((q : List ℕ) → unwrap_or (get name_cmp ports.new q) [] ≡
        unwrap_or (get name_cmp ports.old q) [] ++ (if same_bytes controller q then port ∷ [] else [])) }
{
    let taken = ports.remove(&controller);
    let mut names = items_or_empty(alloc, taken);
    names.push(port)?;
    ports.insert(controller, Items::of(names))?;
    Ok(())
}

// Puts the link last among the ports of its controller, where it has one.
fn put_member(
    alloc: Global,
    ports: &mut BTreeMap<Name, Items<Name>>,
    member: &Member,
) -> Result<(), AllocError>
    ensures { OnOk result ((q : List ℕ) → unwrap_or (get name_cmp ports.new q) [] ≡
        unwrap_or (get name_cmp ports.old q) []
        ++ (if option_map_or (λ c. same_bytes c q) member.now.controller false then member.now.name ∷ [] else [])) }
{
    match member.controller() {
        Some(controller) => put_port(alloc, ports, controller, member.name()),
        None => Ok(()),
    }
}

/// The names of the merged ports of each controller, in one pass over the links.
pub(crate) fn ports_by_controller(
    alloc: Global,
    members: &[Member],
) -> Result<BTreeMap<Name, Items<Name>>, AllocError>
    ensures { IfOk result (λ ports. HasPorts members.now ports) }
{
    let mut ports = BTreeMap::new(alloc);
    for member in members {
        put_member(alloc, &mut ports, member)?;
    }
    Ok(ports)
}
