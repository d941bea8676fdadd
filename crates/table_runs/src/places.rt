//! Places in a document.

use base_model::{Path, write_path};
use case_table::Text;

/// Pushes a place.
pub fn push_place(path: &Path, out: &mut Text) {
    let written = write_path(path, &mut out.bytes);
    out.remember(written.is_ok());
}

/// Pushes a fault and its place.
pub fn push_at(fault: &str, path: &Path, out: &mut Text) {
    out.push_str(fault);
    out.push_str(" at ");
    push_place(path, out);
}
