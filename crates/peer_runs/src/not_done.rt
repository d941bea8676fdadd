//! What isn't done.

use base_model::OutOfMemory;
use std::alloc::{AllocError, AllocFailed};

/// What was asked isn't done: it isn't understood, or memory ran out.
#[derive(Clone, Copy)]
pub struct NotDone;

impl From<AllocError> for NotDone {
    fn from(_error: AllocError) -> Self {
        NotDone
    }
}

impl<T: Drop> From<AllocFailed<T>> for NotDone {
    fn from(_error: AllocFailed<T>) -> Self {
        NotDone
    }
}

impl From<OutOfMemory> for NotDone {
    fn from(_error: OutOfMemory) -> Self {
        NotDone
    }
}
