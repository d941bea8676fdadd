//! Rules that choose the routing table of a packet.
ghost use Rattle.std.specs.Prelude.{◌≡◌};
ghost use Rattle.net_model.specs.Order.{target_cmp};

use crate::address::Subnet;
use crate::id::TableId;
use crate::name::Name;
use std::cmp::Ordering;
use std::marker::Model;

/// What becomes of the packets that a rule takes.
#[derive(Clone, Copy, PartialEq, Eq, PartialOrd, Ord)]
pub enum Target {
    /// They are routed by this table.
    Table(TableId),
    Blackhole,
    Unreachable,
    Prohibit,
}

/// A rule of routing. Its subnets are of its family. Rules are ordered by their fields as these stand here; nothing
/// comes before something, and false before true.
#[derive(Clone, Copy)]
pub struct Rule {
    pub priority: u32,
    pub v6: bool,
    pub src: Option<Subnet>,
    pub dst: Option<Subnet>,
    pub iif: Option<Name>,
    pub mark: u32,
    pub mask: u32,
    pub target: Target,
}

impl Model for Rule {
    ghost use Rattle.net_model.specs.Rule.{RuleParts, IsOfFamily};

    ghost Value = { RuleParts };

    ghost view = { λ r. record { priority = r.priority; v6 = r.v6; src = r.src; dst = r.dst; iif = r.iif; mark = r.mark; mask = r.mask; target = r.target } };

    ghost invariant = { λ r. IsOfFamily r.v6 r.src r.dst };

    ghost inverse = { λ r. record { priority = r.priority; v6 = r.v6; src = r.src; dst = r.dst; iif = r.iif; mark = r.mark; mask = r.mask; target = r.target } };
}

fn order_targets(a: &Target, b: &Target) -> Ordering
    ensures { result ≡ target_cmp a.now b.now }
{
    a.cmp(b)
}

impl PartialEq for Rule {
    ghost use Rattle.std.specs.Ordering.{eq_by_cmp};
    ghost use Rattle.net_model.specs.Order.{rule_cmp};
    ghost use Rattle.net_model.specs.OrderLaws.{rules_equal};

    ghost eq = { eq_by_cmp rule_cmp };

    ghost laws = { rules_equal };

    fn eq(&self, other: &Rule) -> bool {
        self.cmp(other) == Ordering::Equal
    }
}

impl Eq for Rule {
    ghost use Rattle.net_model.specs.OrderLaws.{rules_equivalent};

    ghost laws = { rules_equivalent };
}

impl PartialOrd for Rule {
    ghost use Rattle.std.specs.Ordering.{as_partial_cmp};
    ghost use Rattle.net_model.specs.Order.{rule_cmp};
    ghost use Rattle.net_model.specs.OrderLaws.{rules_partly};

    ghost partial_cmp = { as_partial_cmp rule_cmp };

    ghost laws = { rules_partly };

    fn partial_cmp(&self, other: &Rule) -> Option<Ordering> {
        Some(self.cmp(other))
    }
}

impl Ord for Rule {
    ghost use Rattle.net_model.specs.Order.{rule_cmp};
    ghost use Rattle.net_model.specs.OrderLaws.{rule_cmp_total, rules_agree, rules_tied};

    ghost cmp = { rule_cmp };

    ghost total = { rule_cmp_total };

    ghost matches_partial_cmp = { rules_agree };

    ghost matches_eq = { rules_tied };

    fn cmp(&self, other: &Rule) -> Ordering {
        self.priority
            .cmp(&other.priority)
            .then(self.v6.cmp(&other.v6))
            .then(self.src.cmp(&other.src))
            .then(self.dst.cmp(&other.dst))
            .then(self.iif.cmp(&other.iif))
            .then(self.mark.cmp(&other.mark))
            .then(self.mask.cmp(&other.mask))
            .then(order_targets(&self.target, &other.target))
    }
}
