//! DNS search domains.
ghost use Rattle.std.specs.Prelude.{◌≡◌, Some, None, if◌then◌else◌, IfOk, IfSome, IsSome, IsTrue, ◌↔◌};
ghost use Rattle.std.specs.List.{list_all};
ghost use Rattle.net_model.specs.Domain.{is_domain, is_domain_byte};

use crate::limits::MAX_DOMAIN_LEN;
use std::cmp::Ordering;
use std::marker::Model;

/// A DNS search domain: 1 to 253 bytes from `!` to `~` in ASCII, none of them a comma.
/// Contracts see its bytes. Domains are ordered by their bytes.
#[derive(Clone, Drop)]
pub struct Domain {
    bytes: Vec<u8>,
}

impl Model for Domain {
    ghost use Rattle.std.specs.Prelude.{ℕ, List, IsTrue};
    ghost use Rattle.net_model.specs.Domain.{is_domain};

    ghost Value = { List ℕ };

    ghost view = { λ d. d.bytes.items };

    ghost invariant = { λ d. IsTrue (is_domain d.bytes.items) };
}

impl Domain {
    /// The domain of these bytes, or `None` where they are none.
    pub fn of(bytes: Vec<u8>) -> Option<Domain>
        ensures { result ≡ (if is_domain bytes.items then Some bytes.items else None) }
    {
        if is_domain(&bytes) {
            Some(Domain { bytes })
        } else {
            None
        }
    }

    /// The bytes are a domain. It supplies laws, and has no effect at run time.
    pub fn laws(&self)
        ensures { IsTrue (is_domain self.now) }
    {
        let _bytes = &self.bytes;
    }

    pub fn as_bytes(&self) -> &[u8]
        ensures bytes { result.now ≡ self.now }
        ensures domain { IsTrue (is_domain self.now) }
    {
        &self.bytes
    }
}

fn is_domain_byte(b: u8) -> bool
    ensures { result ≡ is_domain_byte b }
{
    b >= 0x21 && b <= 0x7e && b != b','
}

fn all_domain_bytes(bytes: &[u8]) -> bool
    ensures { result ≡ list_all is_domain_byte bytes.now }
{
    bytes.iter().all(|b| is_domain_byte(*b))
}

fn is_domain(bytes: &[u8]) -> bool
    ensures { result ≡ is_domain bytes.now }
{
    !bytes.is_empty() && bytes.len() <= MAX_DOMAIN_LEN && all_domain_bytes(bytes)
}

impl PartialEq for Domain {
    ghost use Rattle.std.specs.Prelude.{nat_eq};
    ghost use Rattle.std.specs.Cmp.Lexicographic.{pointwise};
    ghost use Rattle.std.proofs.Common.{rules};
    ghost use Rattle.std.specs.Cmp.Rules.{comparing};

    ghost eq = { pointwise nat_eq };

    ghost laws = { Prim.search (comparing, rules) };

    fn eq(&self, other: &Domain) -> bool {
        self.bytes == other.bytes
    }
}

impl Eq for Domain {
    ghost use Rattle.std.proofs.Common.{rules};
    ghost use Rattle.std.specs.Cmp.Rules.{comparing};

    ghost laws = { Prim.search (comparing, rules) };
}

impl PartialOrd for Domain {
    ghost use Rattle.std.specs.Ordering.{nat_cmp, as_partial_cmp};
    ghost use Rattle.std.specs.Cmp.Lexicographic.{slice_cmp};
    ghost use Rattle.std.proofs.Common.{rules};
    ghost use Rattle.std.specs.Cmp.Rules.{comparing};
    ghost use Rattle.std.specs.Cmp.{partial_order_from_own_ties};

    ghost partial_cmp = { as_partial_cmp (slice_cmp nat_cmp) };

    ghost laws = { partial_order_from_own_ties (Prim.search (comparing, rules)) (Prim.search (comparing, rules)) };

    fn partial_cmp(&self, other: &Domain) -> Option<Ordering> {
        Some(self.cmp(other))
    }
}

impl Ord for Domain {
    ghost use Rattle.std.specs.Ordering.{nat_cmp};
    ghost use Rattle.std.specs.Cmp.Lexicographic.{slice_cmp};
    ghost use Rattle.std.proofs.Common.{rules};
    ghost use Rattle.std.specs.Cmp.Rules.{comparing};

    ghost cmp = { slice_cmp nat_cmp };

    ghost total = { Prim.search (comparing, rules) };

    ghost matches_partial_cmp = { Prim.search (comparing, rules) };

    ghost matches_eq = { Prim.search (comparing, rules) };

    fn cmp(&self, other: &Domain) -> Ordering {
        self.as_bytes().cmp(other.as_bytes())
    }
}
