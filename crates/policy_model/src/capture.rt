//! A capture.

use base_model::Str;

/// A name, and the text of the expression whose value the name stands for.
#[derive(Drop)]
pub struct Capture {
    pub name: Str,
    pub text: Str,
}
