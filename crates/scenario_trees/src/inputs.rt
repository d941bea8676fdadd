//! The trees of a workload.
ghost use Rattle.std.specs.Prelude.{◌≡◌, ◌≤◌, IfOk};
ghost use Rattle.doc_tree.specs.Shape.{shape};
ghost use Rattle.scenario_model.specs.declared.device.TheConstants.{MAX_DEVICES};
ghost use Rattle.scenario_model.specs.Draws.{devices};
ghost use Rattle.scenario_model.specs.Trees.{hardware_tree, first_tree, second_tree, IsPlain};

use crate::devices::devices;
use crate::first::first_tree;
use crate::hardware::hardware_tree;
use crate::second::second_tree;
use base_model::OutOfMemory;
use scenario_model::Inputs;
use std::alloc::Global;

/// The hardware list and the two documents of a workload of so many devices, at least 1 and at most
/// [`MAX_DEVICES`](scenario_model::MAX_DEVICES), whose ids and metrics are drawn from a seed. Writers and readers take them:
/// the keys of each map differ, there are at most [`MAX_LEVELS`](doc_tree::MAX_LEVELS) levels, and lists are short.
pub fn trees(alloc: Global, n: u32, seed: u32) -> Result<Inputs, OutOfMemory>
    requires least { 1 ≤ n }
    requires most { n ≤ MAX_DEVICES }
    // Exactly the trees of the definition.
    ensures hardware { IfOk result (λ inputs. shape inputs.hardware ≡ hardware_tree (devices seed n)) }
    ensures first { IfOk result (λ inputs. shape inputs.first ≡ first_tree (devices seed n)) }
    ensures second { IfOk result (λ inputs. shape inputs.second ≡ second_tree (devices seed n)) }
    ensures plain { IfOk result (λ inputs. IsPlain (shape inputs.hardware) × IsPlain (shape inputs.first) × IsPlain (shape inputs.second)) }
{
    let made = devices(alloc, n, seed)?;
    let all = made.as_slice();
    let hardware = hardware_tree(alloc, all)?;
    let first = first_tree(alloc, all)?;
    let second = second_tree(alloc, all)?;
    Ok(Inputs {
        hardware,
        first,
        second,
    })
}
