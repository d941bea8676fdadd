//! Lists of trees, one for each device.
ghost use Rattle.std.specs.Prelude.{◌≡◌, IfOk};
ghost use Rattle.doc_tree.specs.Shape.{shape};
ghost use Rattle.show_core.specs.Fields.{each};

use base_model::OutOfMemory;
use doc_tree::Tree;
use scenario_model::Device;
use std::alloc::Global;

/// What stands in a list for each device.
pub trait Entry {
    ghost use Rattle.doc_tree.specs.Shape.{Shape};
    ghost use Rattle.scenario_model.specs.declared.device.Device.{Device};

    ghost tree: { Device → Shape };

    fn entry(&self, alloc: Global, device: Device) -> Result<Tree, OutOfMemory>
        ensures { IfOk result (λ done. shape done ≡ tree device) };
}

/// The list of the trees of the devices.
pub fn each<E: Entry>(alloc: Global, kind: &E, devices: &[Device]) -> Result<Tree, OutOfMemory>
    ensures { IfOk result (λ done. shape done ≡ each E.tree devices.now) }
{
    let mut trees = Vec::new(alloc);
    for device in devices {
        let tree = kind.entry(alloc, *device)?;
        trees.push(tree)?;
    }
    Ok(Tree::List(trees))
}
