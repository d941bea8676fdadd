//! Who controls each link of the merged state, and who is lifted: claims and stated lists of ports decide it; and the links
//! of the merged state, found by their names.
#![tactic(auto)]

// The merged ports of each controller.
mod controlled;
// The controllers of the merged links.
mod controllers;
// The links that rise though nothing is stated of their state.
mod lifted;
// Which stated list of ports names a link.
mod listers;
// The links of the merged state, found by their names.
mod members;
// The stated lists of ports.
mod port_lists;

pub use controllers::{lacks_list, own_claim, with_controllers};
pub use lifted::with_lifted;
pub use members::Members;
pub use port_lists::stated_ports;
