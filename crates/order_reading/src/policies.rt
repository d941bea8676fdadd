//! Policies.
ghost use Rattle.std.specs.Prelude.{◌≡◌, true};
ghost use Rattle.doc_tree.specs.Shape.{shape, is_distinct, has_short_lists};
ghost use Rattle.policy_lang.specs.Held.{data_of};
ghost use Rattle.policy_model.specs.Policies.{policy_of_tree};
ghost use Rattle.top_model.specs.Orders.{with_fault, policy};
ghost use Rattle.top_model.specs.declared.DocFault.TheVariants.{Policy as PolicyRefused};
ghost use Rattle.order_reading.specs.Faults.{policy_cause};
ghost use Rattle.order_reading.specs.Reading.{Answers};

use crate::document::tree_of;
use doc_tree::Tree;
use policy_lang::{Policy, PolicyFault, policy_of};
use std::alloc::Global;
use top_model::{Cause, DocFault};

/// The cause that a fault of a policy is.
pub fn policy_cause(fault: PolicyFault) -> Cause
    ensures { result ≡ policy_cause fault }
{
    match fault {
        PolicyFault::OutOfMemory => Cause::OutOfMemory,
        fault => Cause::DocRefused(DocFault::Policy(fault)),
    }
}

// The policy that a tree is.
pub(crate) fn policy_in(alloc: Global, tree: &Tree) -> Result<Policy, Cause>
    requires distinct { is_distinct (shape tree.now) ≡ true }
    requires short { has_short_lists (shape tree.now) ≡ true }
    ensures { Answers data_of (with_fault PolicyRefused (policy_of_tree (shape tree.now))) result }
{
    match policy_of(alloc, tree) {
        Ok(policy) => Ok(policy),
        Err(fault) => Err(policy_cause(fault)),
    }
}

// The policy that the bytes are.
pub(crate) fn policy_of_bytes(alloc: Global, bytes: &[u8]) -> Result<Policy, Cause>
    ensures { Answers data_of (policy bytes.now) result }
{
    let tree = tree_of(alloc, bytes)?;
    policy_in(alloc, &tree)
}
