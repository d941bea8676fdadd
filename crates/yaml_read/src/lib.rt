//! Our subset of YAML 1.2: its texts, and the trees that they stand for.
#![tactic(auto)]

// Where a node of flow ends, found with the open brackets in hand, so that no nesting is too deep for the stack.
mod brackets;
// The pairs of a map, with a set of their keys, so that a key is looked up in a time that grows with the logarithm of their number.
mod entries;
// Why an entry of a line stops being one, if it does, however deep it nests.
mod entry;
// Why a text stands for no tree.
mod fault;
// The fault of a line that can't continue a valid document.
mod faults;
// Flow lists and flow maps.
mod flow;
// Scalars and keys at the front of a text.
mod keys;
// What the reading of rows and the relation between rows and trees have to do with each other.
mod laws;
// What stands on a line behind a key's colon or a dash.
mod line;
// What of a line lies outside the subset, whatever comes before it.
mod outside;
// Quoted scalars.
mod quoted;
// Texts as trees.
mod read;
// Rows as trees.
mod reader;
// The rows of a text: its lines that aren't blank.
mod rows;
// Why the reading of a line stops.
mod stop;

pub use fault::YamlFault;
pub use laws::reading_laws;
pub use read::tree_of_yaml;
