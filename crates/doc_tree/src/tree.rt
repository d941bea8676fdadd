//! A document as a tree.

use base_model::Str;

/// A node of a document. Contracts see it as its shape, plain data of `specs/Shape.antt`.
///
/// A tree is distinct where the keys of each of its maps differ. The top node is level 1, and each node below has a
/// level of its own, scalars too.
#[derive(PartialEq, Eq)]
pub enum Tree {
    Null,
    Bool(bool),
    Int(i128),
    Text(Str),
    List(Vec<Tree>),
    /// The pairs in the order of the document, or of the keys' bytes where the reader sorts them.
    Map(Vec<(Str, Tree)>),
}

// By hand, so that a proof sees one call where a tree is dropped, and not a case for each form of node.
impl Drop for Tree {
    fn drop(self) {
        match self {
            Tree::Null | Tree::Bool(_) | Tree::Int(_) => {}
            Tree::Text(_) => {}
            Tree::List(_) => {}
            Tree::Map(_) => {}
        }
    }
}
