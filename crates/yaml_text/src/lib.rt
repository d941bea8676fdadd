//! The text of a tree in our subset of YAML, beside the reader of that subset.
#![tactic(auto)]

// What is read of what is printed.
mod laws;
// The lines of a tree.
mod layout;
// Which texts stand without quotes.
mod plain;
// Scalars and keys as they are printed.
mod scalars;
// Trees as texts.
mod write;

pub use laws::printing_laws;
pub use write::yaml_of_tree;
pub use yaml_read::{YamlFault, tree_of_yaml};
