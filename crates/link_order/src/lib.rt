//! Which links the merged state has and of what kind, by rank: those of the entries, those that veths imply, those that stay;
//! and the base types of the merge: a link before its fields, the entries and indexes of names.
#![tactic(auto)]

// The entries of links, found by their names.
mod entries;
// The links that veths imply: the other end of each pair, where nothing is heard of its name.
mod implied;
// Finding names among those of a list.
mod index;
// The type of a merged link and its details: stated, else current where the type is the current one, else default.
mod kinds;
// A link of the merged state, before its fields.
mod member;
// The links of the merged state, before their fields: which they are, and of what kind.
mod ranking;
// Arrows between places: drawing them, what they lead to, and whether they lead round; with a refused allocation as this
// crate's calls answer one.
mod reached;
// What an entry states of a link's state and of a family of addresses.
mod stated;

pub use entries::Entries;
pub use index::{Index, first_place, note};
pub use kinds::{base_of, kind_of, merged_kind, permanent_of, same_mode, same_type};
pub use member::Member;
pub use ranking::members_by_rank;
pub use reached::{add_arrow, closure, has_cycle, no_arrows};
pub use stated::{is_absent, is_off, is_stated_down, is_stated_up};
