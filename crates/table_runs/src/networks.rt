//! The part of validity that lists break, and what is asked of the network that they make.

use crate::lists::Lists;
use crate::questions::push_asked;
use case_table::{Text, parted};
use std::alloc::Global;

// `LISTS`, or `LISTS ? QUESTION`.
fn push_answer(alloc: Global, kind: &str, text: &str, out: &mut Text) -> Option<()> {
    let (lists, question) = parted(text, " ? ");
    let lists = Lists::of(alloc, lists)?;
    match kind {
        "part" => lists.push_part(alloc, out),
        "stored" => lists.push_stored(alloc, out),
        _ => push_asked(&lists.into_net(alloc)?, question, out),
    }
}

/// Pushes the answer to a case on networks, if it is one.
pub fn answer(alloc: Global, kind: &str, case: &str, out: &mut Text) -> bool {
    if !matches!(kind, "part" | "stored" | "asked") {
        return false;
    }
    if push_answer(alloc, kind, case, out).is_none() {
        out.bytes.clear();
        out.push_str("not understood");
    }
    true
}
