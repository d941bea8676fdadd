//! Addresses, prefixes and subnets.
ghost use Rattle.std.specs.Prelude.{◌≡◌, ◌-◌, ◌/◌, ◌%◌, ◌^◌, ◌≤◌, true, false, Some, None, if◌then◌else◌, nat_le};
ghost use Rattle.net_model.specs.Address.{max_len, block, subnet_of, address, IsAddress, IsPrefix, IsSubnet};
ghost use Rattle.net_model.specs.OnLink.{holds, is_link_local};

use std::marker::Model;

/// An address of IPv4 or IPv6, with its bits as a number. IPv4 comes before IPv6, and then the bits decide.
#[derive(Clone, Copy, PartialEq, Eq, PartialOrd, Ord)]
pub struct Addr {
    v6: bool,
    bits: u128,
}

impl Model for Addr {
    ghost use Rattle.net_model.specs.Address.{Address, IsAddress};

    ghost Value = { Address };

    ghost view = { λ a. record { v6 = a.v6; bits = a.bits } };

    ghost invariant = { λ a. IsAddress (record { v6 = a.v6; bits = a.bits }) };

    ghost inverse = { λ a. record { v6 = a.v6; bits = a.bits } };
}

impl Addr {
    /// The IPv4 address of these bits.
    pub fn v4(bits: u32) -> Addr
        ensures { result ≡ address false bits }
    {
        Addr {
            v6: false,
            bits: bits as u128,
        }
    }

    /// The IPv6 address of these bits.
    pub fn v6(bits: u128) -> Addr
        ensures { result ≡ address true bits }
    {
        Addr { v6: true, bits }
    }

    /// The range of the bits. It supplies laws, and has no effect at run time.
    pub fn laws(&self)
        ensures { IsAddress self.now }
    {
        let _bits = self.bits;
    }

    pub fn is_v6(self) -> bool
        ensures { result ≡ self.v6 }
    {
        self.v6
    }

    pub fn bits(self) -> u128
        ensures { result ≡ self.bits }
    {
        self.bits
    }

    /// Whether it lies in `fe80::/10`, whose addresses stand on every link (RFC 4291, section 2.5.6).
    pub fn is_link_local(self) -> bool
        ensures { result ≡ is_link_local self }
    {
        self.v6 && self.bits >> 118 == 0x3fa
    }
}

/// How many bits an address of the family has.
pub fn max_len(v6: bool) -> u8
    ensures { result ≡ max_len v6 }
{
    if v6 { 128 } else { 32 }
}

/// An address, and how many of its leading bits are the network's.
#[derive(Clone, Copy, PartialEq, Eq, PartialOrd, Ord)]
pub struct Prefix {
    addr: Addr,
    len: u8,
}

impl Model for Prefix {
    ghost use Rattle.net_model.specs.Address.{Block, IsPrefix};

    ghost Value = { Block };

    ghost view = { λ p. record { addr = p.addr; len = p.len } };

    ghost invariant = { λ p. IsPrefix (record { addr = p.addr; len = p.len }) };

    ghost inverse = { λ p. record { addr = p.addr; len = p.len } };
}

impl Prefix {
    /// The prefix of this length in bits, or `None` where an address of the family has fewer.
    pub fn of(addr: Addr, len: u8) -> Option<Prefix>
        ensures { result ≡ (if nat_le len (max_len addr.v6) then Some (block addr len) else None) }
    {
        if len <= max_len(addr.is_v6()) {
            Some(Prefix { addr, len })
        } else {
            None
        }
    }

    /// The ranges of the address and the length. It supplies laws, and has no effect at run time.
    pub fn laws(&self)
        ensures addr { IsAddress self.now.addr }
        ensures len { IsPrefix self.now }
    {
        self.addr.laws();
        let _len = self.len;
    }

    pub fn addr(self) -> Addr
        ensures { result ≡ self.addr }
    {
        self.addr
    }

    pub fn len(self) -> u8
        ensures { result ≡ self.len }
    {
        self.len
    }

    /// Whether its subnet holds the address.
    pub fn holds(self, addr: Addr) -> bool
        ensures { result ≡ holds self addr }
    {
        let Prefix { addr: own, len } = self;
        let host = max_len(own.is_v6()) - len;
        own.is_v6() == addr.is_v6()
            && leading_bits(own.bits(), host) == leading_bits(addr.bits(), host)
    }
}

// The bits above the lowest `host` of them.
fn leading_bits(bits: u128, host: u8) -> u128
    requires { host ≤ 128 }
    ensures { result ≡ bits / 2 ^ host }
{
    if host == 128 { 0 } else { bits >> host }
}

// The bits without the lowest `host` of them.
fn without_host_bits(bits: u128, host: u8) -> u128
    requires { host ≤ 128 }
    ensures { result ≡ bits - bits % 2 ^ host }
{
    if host == 128 { 0 } else { bits >> host << host }
}

/// A prefix whose host bits are all 0.
#[derive(Clone, Copy, PartialEq, Eq, PartialOrd, Ord)]
pub struct Subnet {
    addr: Addr,
    len: u8,
}

impl Model for Subnet {
    ghost use Rattle.net_model.specs.Address.{Block, IsSubnet};

    ghost Value = { Block };

    ghost view = { λ p. record { addr = p.addr; len = p.len } };

    ghost invariant = { λ p. IsSubnet (record { addr = p.addr; len = p.len }) };

    ghost inverse = { λ p. record { addr = p.addr; len = p.len } };
}

impl Subnet {
    /// The prefix without its host bits.
    pub fn of(prefix: Prefix) -> Subnet
        ensures { result ≡ subnet_of prefix }
    {
        let Prefix { addr, len } = prefix;
        let Addr { v6, bits } = addr;
        Subnet {
            addr: Addr {
                v6,
                bits: without_host_bits(bits, max_len(v6) - len),
            },
            len,
        }
    }

    /// The ranges of the address and the length; the host bits are 0. It supplies laws, and has no effect at run time.
    pub fn laws(&self)
        ensures addr { IsAddress self.now.addr }
        ensures subnet { IsSubnet self.now }
    {
        self.addr.laws();
        let _len = self.len;
    }

    pub fn is_v6(self) -> bool
        ensures { result ≡ self.addr.v6 }
    {
        self.addr.is_v6()
    }

    /// The first address.
    pub fn addr(self) -> Addr
        ensures { result ≡ self.addr }
    {
        self.addr
    }

    /// How many leading bits are the network's.
    pub fn len(self) -> u8
        ensures { result ≡ self.len }
    {
        self.len
    }

    /// The subnet as a prefix.
    pub fn prefix(self) -> Prefix
        ensures { result ≡ self }
    {
        Prefix {
            addr: self.addr,
            len: self.len,
        }
    }
}
