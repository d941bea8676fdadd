//! The tree of the second document.
ghost use Rattle.std.specs.Prelude.{◌≡◌, ◌++◌, map, IfOk, OnOk};
ghost use Rattle.std.specs.List.{flat_map};
ghost use Rattle.doc_tree.specs.Shape.{shape};
ghost use Rattle.scenario_model.specs.Trees.{raised_tree, renumbered_tree, changes, second_tree};

use crate::names::{base_name, routed_name};
use crate::pairs::Pairs;
use base_model::OutOfMemory;
use doc_tree::Tree;
use scenario_model::{Device, RAISED_MTU, VLAN_IDS};
use std::alloc::Global;

fn raised_tree(alloc: Global, device: Device) -> Result<Tree, OutOfMemory>
    ensures { IfOk result (λ tree. shape tree ≡ raised_tree device) }
{
    let mut pairs = Pairs::new(alloc);
    let name = base_name(alloc, device)?;
    pairs.put_text("name", name)?;
    pairs.put_number("mtu", RAISED_MTU)?;
    Ok(pairs.into_tree())
}

fn renumbered_tree(alloc: Global, device: Device) -> Result<Tree, OutOfMemory>
    ensures { IfOk result (λ tree. shape tree ≡ renumbered_tree device) }
{
    let mut section = Pairs::new(alloc);
    section.put_number("id", (u32::from(device.id) + 2) % VLAN_IDS)?;
    let mut pairs = Pairs::new(alloc);
    let name = routed_name(alloc, device)?;
    pairs.put_text("name", name)?;
    pairs.put("vlan", section.into_tree())?;
    Ok(pairs.into_tree())
}

fn push_changes(alloc: Global, device: Device, trees: &mut Vec<Tree>) -> Result<(), OutOfMemory>
    ensures { OnOk result (map shape trees.new.items ≡ map shape trees.old.items ++ changes device) }
{
    let raised = raised_tree(alloc, device)?;
    trees.push(raised)?;
    let renumbered = renumbered_tree(alloc, device)?;
    trees.push(renumbered)?;
    Ok(())
}

// The two changes for each device.
fn all_changes(alloc: Global, devices: &[Device]) -> Result<Vec<Tree>, OutOfMemory>
    ensures { IfOk result (λ trees. map shape trees.items ≡ flat_map changes devices.now) }
{
    let mut trees = Vec::new(alloc);
    for device in devices {
        push_changes(alloc, *device, &mut trees)?;
    }
    Ok(trees)
}

/// The document that changes the MTU of each device, and the id of the first VLAN over it.
pub fn second_tree(alloc: Global, devices: &[Device]) -> Result<Tree, OutOfMemory>
    ensures { IfOk result (λ tree. shape tree ≡ second_tree devices.now) }
{
    let mut pairs = Pairs::new(alloc);
    let trees = all_changes(alloc, devices)?;
    pairs.put("interfaces", Tree::List(trees))?;
    Ok(pairs.into_tree())
}
