//! Trees of documents, and JSON both ways.
#![tactic(auto)]

// The whole numbers of a tree have 128 bits, as their type says.
mod integers;
// The bounds of documents, whatever they are written in.
mod limits;
// What stands under a key.
mod lookup;
// Trees from JSON (RFC 8259).
mod read;
// A document as a tree.
mod tree;
// JSON from trees.
mod write;

pub use base_model::{Items, OutOfMemory, Path, PathStep, Str};
pub use integers::integer_laws;
pub use limits::{MAX_BYTES, MAX_LEVELS};
pub use read::{JsonFault, tree_of_json};
pub use tree::Tree;
pub use write::{TextFault, json_of_tree};
