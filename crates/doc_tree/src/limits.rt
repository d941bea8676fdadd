//! The bounds of documents, whatever they are written in.

/// The bytes that the text of a document may have.
pub const MAX_BYTES: usize = 4_194_304;

/// The levels that a tree may have, of which the top node is the first.
pub const MAX_LEVELS: usize = 32;
