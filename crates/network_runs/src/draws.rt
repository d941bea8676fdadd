//! Numbers that are drawn, and what they choose.

use net_model::{Addr, BondMode, HashPolicy, LacpRate, Name, Prefix, Proto, TableId, VlanId};

/// Numbers that a seed decides, by a linear congruence modulo 2^64 of which the upper half is given.
#[derive(Clone, Copy)]
pub struct Draws {
    state: u64,
}

impl Draws {
    pub fn new(seed: u64) -> Draws {
        Draws { state: seed }
    }

    /// The next number, below a bound; 0 where the bound is 0.
    pub fn below(&mut self, bound: u32) -> u32 {
        let next = self
            .state
            .wrapping_mul(6_364_136_223_846_793_005)
            .wrapping_add(1_442_695_040_888_963_407);
        self.state = next;
        if bound == 0 {
            return 0;
        }
        (next >> 32) as u32 % bound
    }

    /// True once in so many draws.
    pub fn once_in(&mut self, bound: u32) -> bool {
        self.below(bound) == 0
    }

    /// The name of one of four devices or of ten other links.
    pub fn name(&mut self) -> Option<Name> {
        let at = self.below(14);
        name_at(at)
    }

    /// The name of one of the ten links that aren't devices.
    pub fn other_name(&mut self) -> Option<Name> {
        let at = self.below(10);
        name_at(at.wrapping_add(4))
    }

    pub fn table(&mut self) -> TableId {
        match self.below(4) {
            0 => TableId::of(0),
            number => TableId::of(number.wrapping_add(100)),
        }
    }

    pub fn vlan_id(&mut self) -> Option<VlanId> {
        let number = match self.below(3) {
            0 => 1,
            1 => 2,
            _ => 3,
        };
        VlanId::of(number)
    }

    pub fn proto(&mut self) -> Proto {
        if self.once_in(3) {
            Proto::Dot1ad
        } else {
            Proto::Dot1q
        }
    }

    pub fn mode(&mut self) -> BondMode {
        match self.below(9) {
            0 => BondMode::BalanceRr,
            1 => BondMode::BalanceXor,
            2 => BondMode::Broadcast,
            3 => BondMode::Ieee8023ad,
            4 => BondMode::BalanceTlb,
            5 => BondMode::BalanceAlb,
            _ => BondMode::ActiveBackup,
        }
    }

    pub fn rate(&mut self) -> LacpRate {
        if self.once_in(2) {
            LacpRate::Fast
        } else {
            LacpRate::Slow
        }
    }

    pub fn policy(&mut self) -> HashPolicy {
        match self.below(4) {
            0 => HashPolicy::Layer23,
            1 => HashPolicy::Layer34,
            _ => HashPolicy::Layer2,
        }
    }

    pub fn mtu(&mut self) -> u32 {
        match self.below(5) {
            0 => 68,
            1 => 1280,
            2 => 1400,
            3 => 1500,
            _ => 9000,
        }
    }

    /// An address in one of four networks of a family.
    pub fn addr(&mut self, v6: bool) -> Addr {
        let net = self.below(4);
        let host = self.below(4).wrapping_add(1);
        if v6 {
            Addr::v6(0xfd00 << 112 | (net as u128) << 64 | host as u128)
        } else {
            Addr::v4(0x0a00_0000 | net << 8 | host)
        }
    }

    fn link_local(&mut self) -> Addr {
        let host = self.below(4);
        Addr::v6(0xfe80 << 112 | host as u128)
    }

    /// An address with the length of its network, or alone.
    pub fn prefix(&mut self) -> Option<Prefix> {
        if self.once_in(6) {
            return Prefix::of(self.link_local(), 64);
        }
        let v6 = self.once_in(3);
        let addr = self.addr(v6);
        if self.once_in(12) {
            return Prefix::of(addr, if v6 { 128 } else { 32 });
        }
        Prefix::of(addr, if v6 { 64 } else { 24 })
    }

    /// A network that routes lead to.
    pub fn network(&mut self, v6: bool) -> Option<Prefix> {
        let net = self.below(4);
        match (net, v6) {
            (0, false) => Prefix::of(Addr::v4(0), 0),
            (0, true) => Prefix::of(Addr::v6(0), 0),
            (net, false) => Prefix::of(Addr::v4(0xc0a8_0000 | net << 8), 24),
            (net, true) => Prefix::of(Addr::v6(0xfd01 << 112 | (net as u128) << 64), 64),
        }
    }
}

fn word_at(at: u32) -> &'static str {
    match at {
        0 => "eth1",
        1 => "eth2",
        2 => "eth3",
        3 => "eth4",
        4 => "l0",
        5 => "l1",
        6 => "l2",
        7 => "l3",
        8 => "l4",
        9 => "l5",
        10 => "l6",
        11 => "l7",
        12 => "l8",
        _ => "l9",
    }
}

/// The name at a place, the four devices first.
pub fn name_at(at: u32) -> Option<Name> {
    Name::of(word_at(at).as_bytes())
}
