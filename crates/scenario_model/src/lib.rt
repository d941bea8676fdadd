//! A workload made from two numbers, as definitions: the hardware list and the two documents that it consists of, and
//! what is counted of a run over them.
#![tactic(auto)]

// The devices of a workload, and the numbers of its generator.
mod device;
// What is counted of a run, and why one wasn't made to its end.
mod work;

pub use device::{
    DRAW_FACTOR, DRAW_MODULUS, DRAW_STEP, Device, Inputs, MAX_DEVICES, METRICS, RAISED_MTU,
    RULE_TABLE, VLAN_IDS,
};
pub use work::{FIRST_AT, SECOND_AT, Summary, TIMEOUT, WorkFault};
