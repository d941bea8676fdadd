//! The fields of the merged links, one rule for each: state, MTU, MAC address, options and addresses. Nothing is refused
//! here.
#![tactic(auto)]

// The addresses of the merged links.
mod addresses;
// The fields that links have from their bases: each link is looked at once, its base before it.
mod bases;
// The fields of merged links that follow from their bases: one rule for each.
mod fields;
// The merged links: one rule for each field.
mod links;
// The options of the merged links: whose current ones and whose entries count.
mod options;

pub use links::merged_links;
