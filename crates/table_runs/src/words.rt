//! Addresses and words of settings, each read and printed again.

use crate::addresses::{push_addr, push_mac, push_prefix};
use case_table::{Text, first_word};
use net_text::{
    bool_word, family_word, mode_word, policy_word, proto_word, rate_word, read_addr, read_bool,
    read_family, read_mac, read_mode, read_policy, read_prefix, read_proto, read_rate,
};

const NONE: &str = "none";

fn push_read_addr(text: &[u8], out: &mut Text) {
    match read_addr(text) {
        Some(addr) => push_addr(&addr, out),
        None => out.push_str(NONE),
    }
}

fn push_read_prefix(text: &[u8], out: &mut Text) {
    match read_prefix(text) {
        Some(prefix) => push_prefix(&prefix, out),
        None => out.push_str(NONE),
    }
}

fn push_read_mac(text: &[u8], out: &mut Text) {
    match read_mac(text) {
        Some(mac) => push_mac(&mac, out),
        None => out.push_str(NONE),
    }
}

// The word of a kind, read and written.
fn word_of(kind: &str, text: &str) -> Option<&'static str> {
    match kind {
        "mode" => Some(mode_word(read_mode(text)?)),
        "policy" => Some(policy_word(read_policy(text)?)),
        "rate" => Some(rate_word(read_rate(text)?)),
        "protocol" => Some(proto_word(read_proto(text)?)),
        "boolean" => Some(bool_word(read_bool(text)?)),
        "family" => Some(family_word(read_family(text)?)),
        _ => None,
    }
}

// `KIND WORD`.
fn push_word(text: &str, out: &mut Text) {
    let (kind, word) = first_word(text);
    out.push_str(word_of(kind, word).unwrap_or(NONE));
}

/// Pushes the answer to a case on addresses or words, if it is one.
pub fn answer(kind: &str, case: &[u8], out: &mut Text) -> bool {
    match kind {
        "address" => push_read_addr(case, out),
        "prefix" => push_read_prefix(case, out),
        "mac-address" => push_read_mac(case, out),
        "word" => push_word(str::from_utf8(case).unwrap_or(""), out),
        _ => return false,
    }
    true
}
