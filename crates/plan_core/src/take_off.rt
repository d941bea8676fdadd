//! Rules, routes and addresses that the target hasn't.
ghost use Rattle.std.specs.Prelude.{◌≡◌, length, OnOk};
ghost use Rattle.net_model.specs.Valid.{address_count};
ghost use Rattle.plan_model.specs.Plans.{part_count};
ghost use Rattle.link_planner.specs.Drafts.{Advances};
ghost use Rattle.link_planner.specs.LinkPlans.{IsReady};
ghost use Rattle.plan_core.specs.Parts.{AddressFits, RouteFits, RuleFits, EachAddress, EachRoute, EachRule, AllLinksFit, LinkFits};
ghost use Rattle.plan_core.specs.Steps.{TakesOff, MayTakeOff};

use crate::has::{has_address, has_route, has_rule};
use kernel_step::Kernel;
use link_planner::Draft;
use net_model::{Call, Link, Name, OutOfMemory, Prefix, Route, Rule};

// The call that takes the rule off, or none where it isn't there or the target has it.
fn rule_off(draft: &Draft, rule: &Rule) -> Option<Call>
    ensures { MayTakeOff (λ d. RuleFits d.target d.net rule.now) draft.now result }
{
    draft.laws();
    if has_rule(draft.net(), rule) && !has_rule(draft.target(), rule) {
        Some(Call::DelRule { rule: *rule })
    } else {
        None
    }
}

// From the last on, so that nothing that stands behind a rule has to move.
fn drop_rules(draft: &mut Draft) -> Result<(), OutOfMemory>
    ensures { OnOk result (TakesOff (length draft.old.start.rules) (λ d. EachRule d.start.rules (RuleFits d.target d.net)) draft.old draft.new) }
{
    let rules = draft.start().rules();
    for at in (0..rules.len()).rev() {
        let call = rule_off(draft, &rules[at]);
        draft.add_some::<Kernel>(call)?;
    }
    Ok(())
}

// The call that takes the route off, or none where it isn't there or the target has it.
fn route_off(draft: &Draft, route: &Route) -> Option<Call>
    ensures { MayTakeOff (λ d. RouteFits d.target d.net route.now) draft.now result }
{
    draft.laws();
    if has_route(draft.net(), route) && !has_route(draft.target(), route) {
        Some(Call::DelRoute { route: *route })
    } else {
        None
    }
}

// From the last on, so that nothing that stands behind a route has to move.
fn drop_routes(draft: &mut Draft) -> Result<(), OutOfMemory>
    ensures { OnOk result (TakesOff (length draft.old.start.routes) (λ d. EachRoute d.start.routes (RouteFits d.target d.net)) draft.old draft.new) }
{
    let routes = draft.start().routes();
    for at in (0..routes.len()).rev() {
        let call = route_off(draft, &routes[at]);
        draft.add_some::<Kernel>(call)?;
    }
    Ok(())
}

// The call that takes the address off, or none where it isn't there or the target has it.
fn address_off(draft: &Draft, name: &Name, addr: &Prefix) -> Option<Call>
    ensures { MayTakeOff (λ d. AddressFits d.target d.net name.now addr.now) draft.now result }
{
    draft.laws();
    if has_address(draft.net(), name, addr) && !has_address(draft.target(), name, addr) {
        Some(Call::DelAddress {
            name: *name,
            addr: *addr,
        })
    } else {
        None
    }
}

fn drop_addresses_of(draft: &mut Draft, link: &Link) -> Result<(), OutOfMemory>
    ensures { OnOk result (TakesOff (length link.now.addrs) (λ d. EachAddress link.now.addrs (AddressFits d.target d.net link.now.name)) draft.old draft.new) }
{
    for addr in link.addrs.items() {
        let call = address_off(draft, &link.name, addr);
        draft.add_some::<Kernel>(call)?;
    }
    Ok(())
}

fn drop_if_kept(draft: &mut Draft, link: &Link) -> Result<(), OutOfMemory>
    ensures { OnOk result (TakesOff (length link.now.addrs) (λ d. LinkFits d.start d.target d.net link.now) draft.old draft.new) }
{
    if draft.keeps(&link.name) {
        drop_addresses_of(draft, link)?;
    }
    Ok(())
}

fn drop_addresses(draft: &mut Draft) -> Result<(), OutOfMemory>
    ensures { OnOk result (TakesOff (address_count draft.old.start.links) (λ d. AllLinksFit d.start d.target d.net) draft.old draft.new) }
{
    for link in draft.start().links() {
        drop_if_kept(draft, link)?;
    }
    Ok(())
}

/// Takes off the rules and routes that the target hasn't, and such addresses of kept links.
pub fn take_off(draft: &mut Draft) -> Result<(), OutOfMemory>
    requires { draft.old.net ≡ draft.old.start }
    ensures ready { OnOk result (IsReady draft.new.start draft.new.target draft.new.net) }
    ensures advances { OnOk result (Advances (part_count draft.old.start) draft.old draft.new) }
{
    draft.laws();
    drop_rules(draft)?;
    drop_routes(draft)?;
    drop_addresses(draft)?;
    Ok(())
}
