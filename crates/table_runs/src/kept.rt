//! Stored bytes: images, checkpoint areas, and what a disk in memory holds.

use crate::cells::{push_area, push_due, push_settled};
use crate::disks::push_steps;
use crate::images::push_image;
use case_table::Text;
use std::alloc::Global;

/// Pushes the answer to a case on stored bytes, if it is one.
pub fn answer(alloc: Global, kind: &str, case: &str, out: &mut Text) -> bool {
    let pushed = match kind {
        "image" => push_image(alloc, case, out),
        "area" => push_area(alloc, case, out),
        "settled" => push_settled(alloc, case, out),
        "due" => {
            push_due(case, out);
            Ok(())
        }
        "disk" => {
            push_steps(alloc, case, out);
            Ok(())
        }
        _ => return false,
    };
    out.remember(pushed.is_ok());
    true
}
