//! What bonds, bridges and their ports are set to.
ghost use Rattle.std.specs.Prelude.{◌≡◌, nat_le, true};
ghost use Rattle.net_model.specs.Options.{mode_number, default_bond, default_bridge, default_port};

use crate::name::Name;

/// The tag that a VLAN's frames carry: 802.1Q or 802.1ad.
#[derive(Clone, Copy, PartialEq, Eq)]
pub enum Proto {
    Dot1q,
    Dot1ad,
}

/// How a bond spreads frames over its ports, in the order of the modes' numbers in the Linux bonding documentation.
#[derive(Clone, Copy, PartialEq, Eq)]
pub enum BondMode {
    BalanceRr,
    ActiveBackup,
    BalanceXor,
    Broadcast,
    Ieee8023ad,
    BalanceTlb,
    BalanceAlb,
}

impl BondMode {
    /// The mode's number in the Linux bonding documentation, 0 to 6.
    pub fn number(self) -> u8
        ensures value { result ≡ mode_number self }
        ensures within { nat_le (mode_number self) 6 ≡ true }
    {
        match self {
            BondMode::BalanceRr => 0,
            BondMode::ActiveBackup => 1,
            BondMode::BalanceXor => 2,
            BondMode::Broadcast => 3,
            BondMode::Ieee8023ad => 4,
            BondMode::BalanceTlb => 5,
            BondMode::BalanceAlb => 6,
        }
    }
}

/// How often a bond asks its partner to send LACP frames.
#[derive(Clone, Copy, PartialEq, Eq)]
pub enum LacpRate {
    Slow,
    Fast,
}

/// What of a frame decides over which port of a bond it leaves.
#[derive(Clone, Copy, PartialEq, Eq)]
pub enum HashPolicy {
    Layer2,
    Layer23,
    Layer34,
    Encap23,
    Encap34,
    VlanSrcmac,
}

/// The options of a bond. The interval of the link monitor and the two delays are in milliseconds.
#[derive(Clone, Copy, PartialEq, Eq)]
pub struct BondOpts {
    pub primary: Option<Name>,
    pub lacp_rate: LacpRate,
    pub hash_policy: HashPolicy,
    pub miimon: u32,
    pub updelay: u32,
    pub downdelay: u32,
}

impl BondOpts {
    /// What a new bond is set to.
    pub fn defaults() -> BondOpts
        ensures { result ≡ default_bond }
    {
        BondOpts {
            primary: None,
            lacp_rate: LacpRate::Slow,
            hash_policy: HashPolicy::Layer2,
            miimon: 0,
            updelay: 0,
            downdelay: 0,
        }
    }
}

/// The options of a bridge. All times are in seconds.
#[derive(Clone, Copy, PartialEq, Eq)]
pub struct BridgeOpts {
    pub stp: bool,
    pub priority: u16,
    pub forward_delay: u8,
    pub hello_time: u8,
    pub max_age: u8,
    pub mac_ageing: u32,
}

impl BridgeOpts {
    /// What a new bridge is set to.
    pub fn defaults() -> BridgeOpts
        ensures { result ≡ default_bridge }
    {
        BridgeOpts {
            stp: false,
            priority: 32768,
            forward_delay: 15,
            hello_time: 2,
            max_age: 20,
            mac_ageing: 300,
        }
    }
}

/// The options of a bridge's port.
#[derive(Clone, Copy, PartialEq, Eq)]
pub struct PortOpts {
    pub cost: u16,
    pub priority: u8,
    pub hairpin: bool,
}

impl PortOpts {
    /// What a new port is set to.
    pub fn defaults() -> PortOpts
        ensures { result ≡ default_port }
    {
        PortOpts {
            cost: 100,
            priority: 32,
            hairpin: false,
        }
    }
}
