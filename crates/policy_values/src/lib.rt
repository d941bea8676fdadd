//! The values of policies on the tree of a running state.
#![tactic(auto)]

// The wanted tree, each place replaced by the tree to which it refers.
mod filling;
// Where a path leads.
mod leading;
// `:=` in a tree that no one else has.
mod setting;
// How deep and how large trees are.
mod size;
// What a step makes of a tree.
mod steps;
// The value of a policy.
mod value;
// The values of captures.
mod values;

pub use policy_lang::{Policy, PolicyFault};
pub use value::value_of;
