//! Rules and DNS.
ghost use Rattle.std.specs.Prelude.{◌≡◌, ◌≤◌, true, false, not, filter, insert, length, OnOk, OnErr};
ghost use Rattle.std.specs.List.{list_any};
ghost use Rattle.net_model.specs.Words.{rises};
ghost use Rattle.net_model.specs.Order.{rule_cmp};
ghost use Rattle.net_model.specs.Valid.{same_rule};
ghost use Rattle.kernel_model.specs.Rest.{after_add_rule, after_del_rule, after_set_dns};

use crate::places::rule_gap;
use net_core::Parts;
use net_lists::rule_position;
use net_model::{Dns, OutOfMemory, Position, Rule};

fn insert_rule(parts: &mut Parts, i: usize, rule: Rule) -> Result<(), OutOfMemory>
    requires { i ≤ length parts.old.rules }
    ensures ok { OnOk result (parts.new ≡ record parts.old { rules = insert parts.old.rules i rule }) }
    ensures err { OnErr result (parts.new ≡ parts.old) }
{
    parts.rules.insert(i, rule)?;
    Ok(())
}

// Adds a rule that isn't there.
pub(crate) fn add_rule(parts: &mut Parts, rule: &Rule) -> Result<(), OutOfMemory>
    requires in_order { rises rule_cmp parts.old.rules ≡ true }
    requires new { list_any (same_rule rule.now) parts.old.rules ≡ false }
    ensures ok { OnOk result (parts.new ≡ after_add_rule rule.now parts.old) }
    ensures err { OnErr result (parts.new ≡ parts.old) }
{
    let i = rule_gap(&parts.rules, rule);
    insert_rule(parts, i, *rule)
}

// Takes a rule out, where it is there. Binary search finds it.
fn take_rule(rules: &mut Vec<Rule>, rule: &Rule)
    requires { rises rule_cmp rules.old.items ≡ true }
    ensures { rules.new.items ≡ filter (λ r. not (same_rule rule.now r)) rules.old.items }
{
    match rule_position(rules, rule) {
        Position::At(i) => {
            rules.remove(i);
        }
        Position::Gap(_) => {}
    }
}

pub(crate) fn del_rule(parts: &mut Parts, rule: &Rule)
    requires { rises rule_cmp parts.old.rules ≡ true }
    ensures { parts.new ≡ after_del_rule rule.now parts.old }
{
    take_rule(&mut parts.rules, rule);
}

// Replaces both lists. The copy is made first.
pub(crate) fn set_dns(parts: &mut Parts, dns: &Dns) -> Result<(), OutOfMemory>
    ensures ok { OnOk result (parts.new ≡ after_set_dns dns.now parts.old) }
    ensures err { OnErr result (parts.new ≡ parts.old) }
{
    parts.dns = dns.copy()?;
    Ok(())
}
