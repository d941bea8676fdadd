//! Addresses, routes, rules and DNS that are missing.
ghost use Rattle.std.specs.Prelude.{◌≡◌, ◌+◌, length, IfOk, OnOk};
ghost use Rattle.net_model.specs.Valid.{address_count};
ghost use Rattle.plan_model.specs.Plans.{part_count};
ghost use Rattle.link_planner.specs.Drafts.{Advances};
ghost use Rattle.plan_core.specs.Parts.{IsPartOf, HasAddress, HasAddresses, HasRoute, HasRule, EachRoute, EachRule, LinkIsFilled};
ghost use Rattle.plan_core.specs.Steps.{MayPutOn, PutsOn};

use crate::has::{has_address, has_route, has_rule};
use kernel_step::Kernel;
use link_planner::Draft;
use net_equal::same_dns;
use net_model::{Call, Link, Name, OutOfMemory, Prefix, Route, Rule};

// The call that puts the address on, or none where it is there.
fn address_on(draft: &Draft, name: &Name, addr: &Prefix) -> Option<Call>
    requires there { HasAddress draft.now.target name.now addr.now }
    requires within { IsPartOf draft.now.net draft.now.target }
    ensures { MayPutOn (λ d. HasAddress d.net name.now addr.now) draft.now result }
{
    draft.laws();
    if has_address(draft.net(), name, addr) {
        None
    } else {
        Some(Call::AddAddress {
            name: *name,
            addr: *addr,
        })
    }
}

fn add_addresses_of(draft: &mut Draft, there: &Link) -> Result<(), OutOfMemory>
    requires there { LinkIsFilled draft.old.target there.now }
    requires within { IsPartOf draft.old.net draft.old.target }
    ensures { OnOk result (PutsOn (length there.now.addrs) (λ d. LinkIsFilled d.net there.now) draft.old draft.new) }
{
    for addr in there.addrs.items() {
        let call = address_on(draft, &there.name, addr);
        draft.add_some::<Kernel>(call)?;
    }
    Ok(())
}

fn add_addresses(draft: &mut Draft) -> Result<(), OutOfMemory>
    requires { IsPartOf draft.old.net draft.old.target }
    ensures { OnOk result (PutsOn (address_count draft.old.target.links) (λ d. HasAddresses d.target d.net) draft.old draft.new) }
{
    draft.laws();
    for there in draft.target().links() {
        add_addresses_of(draft, there)?;
    }
    Ok(())
}

// The call that puts the route on, or none where it is there. The links are the target's.
fn route_on(draft: &Draft, route: &Route) -> Option<Call>
    requires there { HasRoute draft.now.target route.now }
    requires links { draft.now.net.links ≡ draft.now.target.links }
    requires within { IsPartOf draft.now.net draft.now.target }
    ensures { MayPutOn (λ d. HasRoute d.net route.now) draft.now result }
{
    draft.laws();
    if has_route(draft.net(), route) {
        None
    } else {
        Some(Call::AddRoute { route: *route })
    }
}

fn add_routes(draft: &mut Draft) -> Result<(), OutOfMemory>
    requires links { draft.old.net.links ≡ draft.old.target.links }
    requires within { IsPartOf draft.old.net draft.old.target }
    ensures { OnOk result (PutsOn (length draft.old.target.routes) (λ d. EachRoute d.target.routes (HasRoute d.net)) draft.old draft.new) }
{
    for route in draft.target().routes() {
        let call = route_on(draft, route);
        draft.add_some::<Kernel>(call)?;
    }
    Ok(())
}

// The call that puts the rule on, or none where it is there.
fn rule_on(draft: &Draft, rule: &Rule) -> Option<Call>
    requires there { HasRule draft.now.target rule.now }
    requires within { IsPartOf draft.now.net draft.now.target }
    ensures { MayPutOn (λ d. HasRule d.net rule.now) draft.now result }
{
    draft.laws();
    if has_rule(draft.net(), rule) {
        None
    } else {
        Some(Call::AddRule { rule: *rule })
    }
}

fn add_rules(draft: &mut Draft) -> Result<(), OutOfMemory>
    requires { IsPartOf draft.old.net draft.old.target }
    ensures { OnOk result (PutsOn (length draft.old.target.rules) (λ d. EachRule d.target.rules (HasRule d.net)) draft.old draft.new) }
{
    for rule in draft.target().rules() {
        let call = rule_on(draft, rule);
        draft.add_some::<Kernel>(call)?;
    }
    Ok(())
}

// Sets DNS, if it isn't the target's, where all else is the target's.
fn set_dns(draft: &mut Draft) -> Result<(), OutOfMemory>
    requires links { draft.old.net.links ≡ draft.old.target.links }
    requires routes { draft.old.net.routes ≡ draft.old.target.routes }
    requires rules { draft.old.net.rules ≡ draft.old.target.rules }
    ensures done { OnOk result (draft.new.net ≡ draft.new.target) }
    ensures advances { OnOk result (Advances 1 draft.old draft.new) }
{
    if !same_dns(draft.net().dns(), draft.target().dns()) {
        draft.laws();
        let dns = draft.target().dns().copy()?;
        draft.add::<Kernel>(Call::SetDns { dns })?;
    }
    Ok(())
}

/// Puts on what is missing, where the links are the target's but for addresses.
pub fn put_on(draft: &mut Draft) -> Result<(), OutOfMemory>
    requires { IsPartOf draft.old.net draft.old.target }
    ensures done { OnOk result (draft.new.net ≡ draft.new.target) }
    ensures advances { OnOk result (Advances (part_count draft.old.target + 1) draft.old draft.new) }
{
    add_addresses(draft)?;
    draft.laws();
    add_routes(draft)?;
    add_rules(draft)?;
    draft.laws();
    set_dns(draft)?;
    Ok(())
}
