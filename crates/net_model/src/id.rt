//! Numbers of routing tables and of VLANs.
ghost use Rattle.net_model.specs.declared.limits.TheConstants.{MAX_VLAN_ID};
ghost use Rattle.std.specs.Prelude.{◌≡◌, ◌<◌, ◌≤◌, ◌^◌, Some, None, if◌then◌else◌, nat_le, ◌==◌};

use crate::limits::MAX_VLAN_ID;
use std::marker::Model;

/// The number of a routing table, which isn't 0. Contracts see the number.
#[derive(Clone, Copy, PartialEq, Eq, PartialOrd, Ord)]
pub struct TableId {
    id: u32,
}

impl Model for TableId {
    ghost use Rattle.std.specs.Prelude.{ℕ, ◌<◌};

    ghost Value = { ℕ };

    ghost view = { λ t. t.id };

    ghost invariant = { λ t. 0 < t.id };

    ghost inverse = { λ n. record { id = n } };
}

impl TableId {
    /// The number of the main table.
    pub const MAIN: u32 = 254;

    /// The range of the number. It supplies laws, and has no effect at run time.
    pub fn laws(&self)
        ensures least { 0 < self.now }
        ensures most { self.now < 2 ^ 32 }
    {
        let _id = self.id;
    }

    /// The table of this number, where 0 stands for the main one, 254.
    pub fn of(id: u32) -> TableId
        ensures { result ≡ (if id == 0 then 254 else id) }
    {
        TableId {
            id: if id == 0 { Self::MAIN } else { id },
        }
    }

    pub fn id(self) -> u32
        ensures { result ≡ self }
    {
        self.id
    }
}

/// The number of a VLAN, at most 4094. Contracts see the number.
#[derive(Clone, Copy, PartialEq, Eq, PartialOrd, Ord)]
pub struct VlanId {
    id: u16,
}

impl Model for VlanId {
    ghost use Rattle.std.specs.Prelude.{ℕ, ◌≤◌};
    ghost use Rattle.net_model.specs.declared.limits.TheConstants.{MAX_VLAN_ID};

    ghost Value = { ℕ };

    ghost view = { λ t. t.id };

    ghost invariant = { λ t. t.id ≤ MAX_VLAN_ID };

    ghost inverse = { λ n. record { id = n } };
}

impl VlanId {
    /// The range of the number. It supplies laws, and has no effect at run time.
    pub fn laws(&self)
        ensures { self.now ≤ MAX_VLAN_ID }
    {
        let _id = self.id;
    }

    /// The VLAN of this number, or `None` above 4094.
    pub fn of(id: u16) -> Option<VlanId>
        ensures { result ≡ (if nat_le id MAX_VLAN_ID then Some id else None) }
    {
        if id <= MAX_VLAN_ID {
            Some(VlanId { id })
        } else {
            None
        }
    }

    pub fn id(self) -> u16
        ensures { result ≡ self }
    {
        self.id
    }
}
