//! Plain scalars of YAML 1.2, as documents and policies write their words and numbers, and the bytes at the front and the end
//! of a text.
#![tactic(auto)]

// Where a scalar stands.
mod style;
// What stands at the front and the end of a text.
mod bytes;
// Bytes of a text as a text of their own.
mod text;
// Plain scalars.
mod plain;

pub use bytes::{
    at_break, at_gap, begins, is_indicator, is_same, is_sign, leading_spaces, skip_spaces, tail,
    trim_end,
};
pub use plain::{begins_plain, integer_of, is_plain_string, plain_split, plain_value};
pub use style::Style;
pub use text::{copied, owned};
