//! The trees of a workload made from two numbers.
#![tactic(auto)]

// The devices, and the draws of their numbers.
mod devices;
// The tree of the first document.
mod first;
// The tree of the hardware list.
mod hardware;
// The trees of a workload.
mod inputs;
// Lists of trees, one for each device.
mod lists;
// The names and addresses of a device.
mod names;
// Maps of a tree, built pair by pair.
mod pairs;
// The tree of the second document.
mod second;

pub use inputs::trees;
