//! That the order of keys makes no difference to a whole document.
#![tactic(auto)]

// The order of the keys in a tree.
mod document;

pub use document::document_laws;
