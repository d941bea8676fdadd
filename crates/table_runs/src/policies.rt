//! Whether a document is a policy, and why it is refused.
ghost use Rattle.std.specs.Prelude.{◌≡◌, true};
ghost use Rattle.doc_tree.specs.Shape.{shape, is_distinct, has_short_lists};

use crate::places::push_at;
use case_table::Text;
use doc_tree::Tree;
use policy_lang::{PolicyFault, is_policy, policy_of};
use std::alloc::Global;
use yaml_text::tree_of_yaml;

/// Pushes a fault as the command line tells it.
pub fn push_fault(fault: &PolicyFault, out: &mut Text) {
    match fault {
        PolicyFault::WrongShape(path) => push_at("WrongShape", path, out),
        PolicyFault::BadExpression(path) => push_at("BadExpression", path, out),
        PolicyFault::UnknownCapture(path) => push_at("UnknownCapture", path, out),
        PolicyFault::CaptureCycle(path) => push_at("CaptureCycle", path, out),
        PolicyFault::NoValue(path) => push_at("NoValue", path, out),
        PolicyFault::TooDeep => out.push_str("TooDeep"),
        PolicyFault::TooLarge => out.push_str("TooLarge"),
        PolicyFault::OutOfMemory => out.remember(false),
    }
}

/// The tree of a text, or a null where it isn't YAML.
pub fn tree_of(alloc: Global, text: &[u8]) -> Tree
    ensures distinct { is_distinct (shape result) ≡ true }
    ensures short { has_short_lists (shape result) ≡ true }
{
    match tree_of_yaml(alloc, text) {
        Ok(tree) => tree,
        Err(_) => Tree::Null,
    }
}

fn push_is_policy(tree: &Tree, out: &mut Text) {
    out.push_str(if is_policy(tree) {
        "a policy"
    } else {
        "a document"
    });
}

// That the tree of a text is a right policy, or its first fault.
fn push_policy(alloc: Global, text: &[u8], out: &mut Text) {
    match policy_of(alloc, &tree_of(alloc, text)) {
        Ok(_policy) => out.push_str("a policy"),
        Err(fault) => push_fault(&fault, out),
    }
}

/// Pushes the answer to a case on policies, if it is one.
pub fn answer(alloc: Global, kind: &str, case: &[u8], out: &mut Text) -> bool {
    match kind {
        "is-policy" => push_is_policy(&tree_of(alloc, case), out),
        "policy" => push_policy(alloc, case, out),
        _ => return false,
    }
    true
}
