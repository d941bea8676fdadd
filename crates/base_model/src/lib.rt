//! The base types of all layers: out of memory, owned lists and strings, decimal numbers, and places in a document.
#![tactic(auto)]

// Numbers in decimal.
mod decimal;
// Lists that a struct owns.
mod items;
// Out of memory.
mod memory;
// A place in a document.
mod path;
// Strings that a struct owns.
mod text;

pub use decimal::push_decimal;
pub use items::Items;
pub use memory::OutOfMemory;
pub use path::{Path, PathStep, write_path};
pub use text::Str;
