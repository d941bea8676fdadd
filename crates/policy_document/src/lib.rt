//! What a policy is worth on a network, and the document that it is there.
#![tactic(auto)]

ghost use Rattle.std.specs.Prelude.{◌≡◌, ◌≤◌, ◌&&◌, true, IfOk};
ghost use Rattle.doc_tree.specs.Shape.{shape, is_distinct, levels};
ghost use Rattle.doc_tree.specs.declared.limits.TheConstants.{MAX_LEVELS};
ghost use Rattle.document_model.specs.Entries.{is_document, has_short_doc};
ghost use Rattle.policy_lang.specs.Held.{data_of};
ghost use Rattle.order_reading.specs.Reading.{Answers, itself};
ghost use Rattle.top_model.specs.Orders.{value_on, document_on};

use doc_tree::Tree;
use document_model::Doc;
use net_core::Net;
use order_reading::{document_of, policy_cause};
use policy_lang::Policy;
use policy_values::value_of;
use show_core::tree_of_net;
use std::alloc::Global;
use top_model::Cause;

/// The value of a policy on a network, which it sees as `show` prints it.
///
/// It answers `DocRefused` where the policy has no value on that network, and `OutOfMemory`.
pub fn value_on(alloc: Global, policy: &Policy, net: &Net) -> Result<Tree, Cause>
    ensures value { Answers shape (value_on (data_of policy.now) net.now) result }
    ensures distinct { IfOk result (λ tree. is_distinct (shape tree) ≡ true) }
    ensures depth { IfOk result (λ tree. levels (shape tree) ≤ MAX_LEVELS) }
{
    let running = tree_of_net(alloc, net, None)?;
    match value_of(alloc, &running, policy) {
        Ok(tree) => Ok(tree),
        Err(fault) => Err(policy_cause(fault)),
    }
}

/// The document that a policy is on a network, which it sees as `show` prints it: the document that its value is read as.
///
/// It answers `DocRefused` where the policy has no value on that network or its value is no document, and `OutOfMemory`.
pub fn document_on(alloc: Global, policy: &Policy, net: &Net) -> Result<Doc, Cause>
    ensures read { Answers itself (document_on (data_of policy.now) net.now) result }
    ensures right { IfOk result (λ doc. is_document doc && has_short_doc doc ≡ true) }
{
    let tree = value_on(alloc, policy, net)?;
    document_of(alloc, &tree)
}
