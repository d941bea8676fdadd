//! What the small types say of their values, and of all values of a list.
ghost use Rattle.std.specs.Prelude.{All, IfSome};
ghost use Rattle.net_search.specs.Ranges.{IsU8, IsU16, IsU32, NameRanges, DomainRanges, MacRanges, TableRanges};

use net_model::{Addr, Domain, Mac, Name, Prefix, Subnet, TableId};

/// A value whose type bounds it, which its bare value in a contract doesn't tell.
pub trait Ranged {
    /// The value is within what the type holds.
    ghost in_range: { Self → Type 0 };

    /// The ranges of the value. It supplies laws, and has no other effect at run time.
    fn range_law(&self)
        ensures { in_range self.now };
}

/// The ranges of all values of a list.
pub fn all_ranges<T: Ranged>(items: &[T])
    ensures { All T.in_range items.now }
{
    for item in items {
        item.range_law();
    }
}

/// The ranges of the value, if there is one.
pub fn maybe_ranges<T: Ranged>(item: &Option<T>)
    ensures { IfSome item.now T.in_range }
{
    match item {
        Some(item) => item.range_law(),
        None => {}
    }
}

/// The range of an integer of 8 bits.
pub fn u8_range(_n: u8)
    ensures { IsU8 _n }
{}

/// The range of an integer of 16 bits.
pub fn u16_range(_n: u16)
    ensures { IsU16 _n }
{}

/// The range of an integer of 32 bits.
pub fn u32_range(_n: u32)
    ensures { IsU32 _n }
{}

fn byte_ranges(_bytes: &[u8])
    ensures { All IsU8 _bytes.now }
{}

#[tactic(auto, using(crate::proofs::Names::name_ranges))]
fn name_ranges(name: &Name)
    ensures { NameRanges name.now }
{
    name.laws();
}

#[tactic(auto, using(crate::proofs::Names::domain_ranges))]
fn domain_ranges(domain: &Domain)
    ensures { DomainRanges domain.now }
{
    domain.laws();
}

/// Six bytes.
pub fn mac_ranges(mac: Mac)
    ensures { MacRanges mac }
{
    byte_ranges(&mac.bytes);
}

/// The range of the number of a routing table.
pub fn table_ranges(table: TableId)
    ensures { TableRanges table }
{
    table.laws();
}

impl Ranged for Name {
    ghost use Rattle.net_search.specs.Ranges.{NameRanges};

    ghost in_range = { NameRanges };

    fn range_law(&self) {
        name_ranges(self);
    }
}

impl Ranged for Domain {
    ghost use Rattle.net_search.specs.Ranges.{DomainRanges};

    ghost in_range = { DomainRanges };

    fn range_law(&self) {
        domain_ranges(self);
    }
}

impl Ranged for Addr {
    ghost use Rattle.net_model.specs.Address.{IsAddress};

    ghost in_range = { IsAddress };

    fn range_law(&self) {
        self.laws();
    }
}

impl Ranged for Prefix {
    ghost use Rattle.net_search.specs.Ranges.{PrefixRanges};

    ghost in_range = { PrefixRanges };

    fn range_law(&self) {
        self.laws();
    }
}

impl Ranged for Subnet {
    ghost use Rattle.net_search.specs.Ranges.{SubnetRanges};

    ghost in_range = { SubnetRanges };

    fn range_law(&self) {
        self.laws();
    }
}
