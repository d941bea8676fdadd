//! Policies, as they are read from trees.
#![tactic(auto)]

// Copies of trees.
mod copy;
// Captures that their own values would be made of.
mod cycles;
// The reading of expressions.
mod expression;
// Keys, paths and references.
mod keys;
// The places of a tree.
mod places;
// Policies.
mod policy;
// The shape of a policy, and what it holds.
mod shape;
// What the expressions of a policy name.
mod sites;
// What stands at the ends of a text, and between signs.
mod text;

pub use copy::copy_tree;
pub use expression::expression_of;
pub use keys::place_of;
pub use places::copy_steps;
pub use policy::{Policy, policy_of};
pub use policy_model::{Capture, PolicyFault};
pub use shape::{capture_at, is_policy};
pub use sites::{desired_places, names_of};
pub use text::inside;
