//! The indexes of a network: for each name a list.
#![tactic(auto)]

// Indexes of lists as they stand.
mod build;
// An index: for each name a list.
mod index;
// The indexes of a network: what each edit adds to them and takes out.
mod indexes;

pub use index::Index;
pub use indexes::{
    Indexes, add_vlan, leave_out_key, leave_out_keys, leave_out_port, leave_out_ports,
    leave_out_vlans, put_key, put_name,
};
