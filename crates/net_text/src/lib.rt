//! The texts of the network model: addresses, prefixes and MAC addresses, read and written, and the lines of calls.
#![tactic(auto)]

// The line of a call.
mod line;
// What follows the name in the lines of calls on links.
mod options;
// Pieces of a line, appended one after another.
mod pieces;
// Texts of addresses, prefixes and MAC addresses, read.
mod read;
// What stands in the lines of calls on routes, rules and the settings of DNS.
mod routing;
// The words of the model's settings, as plans, documents and printed states spell them, and what they are read as.
mod words;
// Texts of addresses, prefixes and MAC addresses, appended whole or not at all.
mod write;

pub use line::write_call_line;
pub use read::{read_addr, read_mac, read_prefix};
pub use words::{
    bool_word, family_word, mode_word, policy_word, proto_word, rate_word, read_bool, read_family,
    read_mode, read_policy, read_proto, read_rate,
};
pub use write::{write_addr, write_mac, write_prefix};
