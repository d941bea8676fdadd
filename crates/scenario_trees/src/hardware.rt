//! The tree of the hardware list.
ghost use Rattle.std.specs.Prelude.{◌≡◌, IfOk};
ghost use Rattle.doc_tree.specs.Shape.{shape};
ghost use Rattle.scenario_model.specs.Trees.{device_tree, hardware_tree};

use crate::lists::{Entry, each};
use crate::names::{base_name, mac_tree};
use crate::pairs::Pairs;
use base_model::OutOfMemory;
use doc_tree::Tree;
use scenario_model::Device;
use std::alloc::Global;

fn device_tree(alloc: Global, device: Device) -> Result<Tree, OutOfMemory>
    ensures { IfOk result (λ tree. shape tree ≡ device_tree device) }
{
    let mut pairs = Pairs::new(alloc);
    let name = base_name(alloc, device)?;
    pairs.put_text("name", name)?;
    let mac = mac_tree(alloc, device)?;
    pairs.put("mac-address", mac)?;
    Ok(pairs.into_tree())
}

/// The devices themselves.
struct BuiltIn;

impl Entry for BuiltIn {
    ghost use Rattle.scenario_model.specs.Trees.{device_tree};

    ghost tree = { device_tree };

    fn entry(&self, alloc: Global, device: Device) -> Result<Tree, OutOfMemory> {
        device_tree(alloc, device)
    }
}

/// The hardware list of the devices.
pub fn hardware_tree(alloc: Global, devices: &[Device]) -> Result<Tree, OutOfMemory>
    ensures { IfOk result (λ tree. shape tree ≡ hardware_tree devices.now) }
{
    let mut pairs = Pairs::new(alloc);
    let list = each(alloc, &BuiltIn, devices)?;
    pairs.put("hardware", list)?;
    Ok(pairs.into_tree())
}
