//! The rules 1 to 17 of the merge, each with its first place: which of those that are asked of entries, of claims and lists of
//! ports, or of the merged links is the least that a document breaks.
#![tactic(auto)]

// The rule 15 of the merge: a bond's options aren't right for its mode and its ports.
mod bonds;
// The least rule that is broken, group by group.
mod broken;
// The rules 1 to 5 of the merge, which are asked of the entries of links.
mod broken_entries;
// The rules 9, 10, 13, 14 and 16 of the merge, which are asked of the merged links, mentioned or not.
mod broken_links;
// Numbers of the strongly connected components of a graph.
mod components;
// The merged links, found by their names.
mod merged;
// The merged links before their fields.
mod outline;
// The rules 6 to 8 of the merge, which are asked of claims and lists of ports.
mod ports;
// The rule 11 of the merge: whether a link depends on itself, through any others.
mod dependence;
// The rule 17 of the merge: a link has one address twice, whatever the lengths.
mod twice;
// The rule 12 of the merge: two VLANs agree in base, protocol and number.
mod twins;

pub use broken::{entries_broken, merged_broken, ports_broken, shape_broken};
pub use merged::Merged;
