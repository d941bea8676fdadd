//! What a document says as a whole: its interfaces, routes, rules and DNS.
#![tactic(auto)]

// A whole document.
mod document;
// What isn't whole yet: a document without its notes.
mod draft;

pub use document::doc_of;
