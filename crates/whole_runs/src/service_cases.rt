//! Services as cases of tables, by the kind of their heading.

use crate::not_done::NotDone;
use crate::services::push_told;
use crate::stops::{At, push_stopped};
use case_table::{Answers, Text};
use std::alloc::Global;

/// What becomes of services.
pub struct Services;

fn push_answer(alloc: Global, kind: &str, case: &str, out: &mut Text) -> Result<(), NotDone> {
    match kind {
        "services" => push_told(alloc, case, out),
        "stops" => push_stopped(alloc, case, At::CallsOfTheHost, out),
        "faults" => push_stopped(alloc, case, At::CallsOfTheFolder, out),
        _ => Err(NotDone),
    }
}

impl Answers for Services {
    fn answer(alloc: Global, kind: &str, case: &[u8], out: &mut Text) {
        let case = str::from_utf8(case).unwrap_or("");
        if push_answer(alloc, kind, case, out).is_err() {
            out.bytes.clear();
            out.push_str("not understood");
        }
    }
}
