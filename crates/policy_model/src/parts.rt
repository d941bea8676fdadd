//! The parts of a policy that have a place of their own.

use base_model::{Items, PathStep, Str};

/// A string of a tree that stands for something else: the way to it, and what stands between its braces.
#[derive(Drop)]
pub struct Placed {
    pub at: Items<PathStep>,
    pub inner: Str,
}

/// Where an expression or a reference stands, and the captures that it names, if it is one.
#[derive(Drop)]
pub struct Site {
    pub at: Items<PathStep>,
    pub names: Option<Items<Str>>,
}
