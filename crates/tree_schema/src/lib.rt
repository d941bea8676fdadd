//! What a tree may say: values, and maps that are read by a table of their keys.
#![tactic(auto)]

// What is checked after all pairs of a map.
mod check;
// Why a tree is refused, and where.
mod fault;
// Lists whose items are read one by one.
mod list;
// Maps that are read by a table of their keys.
mod map;
// Marks of packets.
mod marks;
// How far a reading has come.
mod reader;
// Why a reading stops.
mod stop;
// What stands under a single key.
mod under;
// What a value may be: strings, numbers, booleans and names.
mod values;

pub use check::{holds_or, needed};
pub use fault::{Reason, SchemaFault, fault_of};
pub use list::{Item, read_list};
pub use map::{Section, read_map, read_top, value_under};
pub use marks::mark;
pub use reader::Reader;
pub use stop::Stop;
pub use under::{Node, read_under};
pub use values::{
    Form, Names, boolean, formed, formed_or, is_null, name, number, unless_empty, unless_minus_one,
};
