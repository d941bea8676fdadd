//! The texts of addresses and MAC addresses, as numbers and bytes: each reader is exact on its grammar.
#![tactic(auto)]

// Digits and the short numbers that they write.
mod digits;
// Four decimal numbers with dots between them.
mod dotted;
// Where a sign stands first.
mod find;
// MAC addresses: six pairs of hexadecimal digits with colons between them.
mod mac;
// The texts of IPv6 addresses, read (RFC 4291 section 2.2).
mod v6;
// The texts of addresses, written (RFC 5952 section 4).
mod write;

pub use digits::read_octet;
pub use dotted::read_dotted;
pub use mac::{mac_text, read_mac};
pub use v6::read_v6;
pub use write::{dotted_text, v6_text};
