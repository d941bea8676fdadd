//! The devices of a workload, and the numbers of its generator.

use doc_tree::Tree;

/// The draws are the numbers below it.
pub const DRAW_MODULUS: u32 = 65_537;
/// The factor by which a draw follows from the one before it.
pub const DRAW_FACTOR: u32 = 75;
/// What is added then.
pub const DRAW_STEP: u32 = 74;
/// How many VLAN ids there are.
pub const VLAN_IDS: u32 = 4095;
/// The metrics are the numbers below it.
pub const METRICS: u32 = 1000;
/// The most devices of a workload.
pub const MAX_DEVICES: u32 = 100;
/// The table that the rules look routes up in.
pub const RULE_TABLE: u32 = 100;
/// The MTU that the second document states of each device, in bytes.
pub const RAISED_MTU: u32 = 9000;

/// A device, with the numbers that were drawn for it.
#[derive(Clone, Copy)]
pub struct Device {
    /// From 1.
    pub number: u8,
    /// The VLAN id.
    pub id: u16,
    pub metric: u32,
}

/// The trees of a workload.
pub struct Inputs {
    /// A hardware list.
    pub hardware: Tree,
    /// The document that builds all over the devices.
    pub first: Tree,
    /// The document that changes it.
    pub second: Tree,
}

// By hand, so that a proof sees one call where one is dropped, and not a step for each part.
impl Drop for Inputs {
    fn drop(self) {
        let Inputs {
            hardware: _,
            first: _,
            second: _,
        } = self;
    }
}
