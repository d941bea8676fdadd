//! The merge of a document into a network, as definitions: the merged links, routes, rules and DNS, and the rules of the
//! merge that a document can break.
#![tactic(auto)]

// Why a document isn't merged.
mod fault;

pub use fault::MergeFault;
