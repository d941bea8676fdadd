//! What policies are worth on the tree of a running state. A case is that tree, a line `==`, and the policy.
ghost use Rattle.std.specs.Prelude.{◌≡◌, ◌≤◌, true, IfOk};
ghost use Rattle.doc_tree.specs.Shape.{shape, is_distinct, levels};
ghost use Rattle.doc_tree.specs.declared.limits.TheConstants.{MAX_LEVELS};

use crate::policies::{push_fault, tree_of};
use case_table::Text;
use doc_tree::Tree;
use policy_lang::{PolicyFault, policy_of};
use policy_values::value_of;
use std::alloc::Global;
use std::str;
use yaml_text::yaml_of_tree;

const BETWEEN: &str = "\n==\n";

// The value of the policy of one text on the tree of another.
fn value(alloc: Global, running: &str, policy: &str) -> Result<Tree, PolicyFault>
    ensures distinct { IfOk result (λ tree. is_distinct (shape tree) ≡ true) }
    ensures depth { IfOk result (λ tree. levels (shape tree) ≤ MAX_LEVELS) }
{
    let policy = policy_of(alloc, &tree_of(alloc, policy.as_bytes()))?;
    value_of(alloc, &tree_of(alloc, running.as_bytes()), &policy)
}

// The value as YAML, or why there is none.
fn push_value(alloc: Global, running: &str, policy: &str, out: &mut Text) {
    match value(alloc, running, policy) {
        Ok(tree) => out.push_made(yaml_of_tree(alloc, &tree)),
        Err(fault) => push_fault(&fault, out),
    }
}

// That there is a value, or why there is none.
fn push_whether(alloc: Global, running: &str, policy: &str, out: &mut Text) {
    match value(alloc, running, policy) {
        Ok(_tree) => out.push_str("a value"),
        Err(fault) => push_fault(&fault, out),
    }
}

/// Pushes the answer to a case on values, if it is one.
pub fn answer(alloc: Global, kind: &str, case: &[u8], out: &mut Text) -> bool {
    let text = str::from_utf8(case).unwrap_or("");
    let (running, policy) = text.split_once(BETWEEN).unwrap_or(("", text));
    match kind {
        "value" => push_value(alloc, running, policy, out),
        "has-value" => push_whether(alloc, running, policy, out),
        _ => return false,
    }
    true
}
