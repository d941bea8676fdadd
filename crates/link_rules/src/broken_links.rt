//! The rules 9, 10, 13, 14 and 16 of the merge, which are asked of the merged links, mentioned or not.
ghost use Rattle.std.specs.Prelude.{◌≡◌, ◌&&◌, ◌||◌, ◌<◌, [], not, true, false, nat_le, find, option_copied};
ghost use Rattle.std.specs.Option.{option_map_or, unwrap_or};
ghost use Rattle.net_model.specs.Words.{is_empty};
ghost use Rattle.net_model.specs.Links.{named_passes, takes, controller_passes, can_be_base, base_passes, is_bond_or_bridge};
ghost use Rattle.net_model.specs.Valid.{is_bond_or_bridge_port};
ghost use Rattle.merge_model.specs.Places.{at_link};
ghost use Rattle.merge_model.specs.BrokenLinks.{port_kind, bad_base, base_down, vlan_mtu, states_address, entry_states_address, has_stated_address, port_address};

use crate::merged::Merged;
use document_model::{IpEntry, LinkEntry, Place};
use link_members::Members;
use link_order::is_off;
use net_lists::{can_be_base, is_bond_or_bridge, takes};
use net_model::{Items, Kind, Link, Name, Prefix};

/// The place at a link.
pub(crate) fn at_link(found: Option<&Link>) -> Option<Place>
    ensures { result ≡ at_link (option_copied found.entry) }
{
    match found {
        Some(link) => Some(Place::Link(link.name)),
        None => None,
    }
}

#[tactic(auto, using(net_model::proofs::lemmas::ByName::passes_where_found))]
fn named_takes(merged: &Merged, controller: &Name, port: &Kind) -> bool
    ensures { result ≡ named_passes (λ c. takes c.kind port.now) merged.now controller.now }
{
    merged
        .find(controller)
        .is_some_and(|link| takes(&link.kind, port))
}

fn controller_takes(merged: &Merged, link: &Link) -> bool
    ensures { result ≡ controller_passes (λ c. takes c.kind link.now.kind) merged.now link.now }
{
    match &link.controller {
        Some(controller) => named_takes(merged, controller, &link.kind),
        None => true,
    }
}

fn first_untaken(merged: &Merged) -> Option<&Link>
    ensures { option_copied result ≡ find (λ l. not (controller_passes (λ c. takes c.kind l.kind) merged.now l)) merged.now }
{
    merged
        .links()
        .iter()
        .find(|link| !controller_takes(merged, link))
}

/// The place of rule 9: a controller can't take the port's kind.
pub(crate) fn port_kind(merged: &Merged) -> Option<Place>
    ensures { result ≡ port_kind merged.now }
{
    at_link(first_untaken(merged))
}

#[tactic(auto, using(net_model::proofs::lemmas::ByName::passes_where_found))]
fn named_can_be_base(merged: &Merged, base: &Name) -> bool
    ensures { result ≡ named_passes (λ b. can_be_base b.kind) merged.now base.now }
{
    merged
        .find(base)
        .is_some_and(|link| can_be_base(&link.kind))
}

fn base_stands(merged: &Merged, kind: &Kind) -> bool
    ensures { result ≡ base_passes (λ b. can_be_base b.kind) merged.now kind.now }
{
    match kind {
        Kind::Vlan { base, .. } => named_can_be_base(merged, base),
        _ => true,
    }
}

fn first_baseless(merged: &Merged) -> Option<&Link>
    ensures { option_copied result ≡ find (λ l. not (base_passes (λ b. can_be_base b.kind) merged.now l.kind)) merged.now }
{
    merged
        .links()
        .iter()
        .find(|link| !base_stands(merged, &link.kind))
}

/// The place of rule 10: a VLAN's base isn't there or can't be one.
pub(crate) fn bad_base(merged: &Merged) -> Option<Place>
    ensures { result ≡ bad_base merged.now }
{
    at_link(first_baseless(merged))
}

#[tactic(auto, using(net_model::proofs::lemmas::ByName::passes_where_found))]
fn named_is_up(merged: &Merged, name: &Name) -> bool
    ensures { result ≡ named_passes (λ b. b.up) merged.now name.now }
{
    merged.find(name).is_some_and(|link| link.up)
}

fn base_is_up(merged: &Merged, kind: &Kind) -> bool
    ensures { result ≡ base_passes (λ b. b.up) merged.now kind.now }
{
    match kind {
        Kind::Vlan { base, .. } => named_is_up(merged, base),
        _ => true,
    }
}

fn is_over_down_base(merged: &Merged, link: &Link) -> bool
    ensures { result ≡ (link.now.up && not (base_passes (λ b. b.up) merged.now link.now.kind)) }
{
    link.up && !base_is_up(merged, &link.kind)
}

fn first_over_down_base(merged: &Merged) -> Option<&Link>
    ensures { option_copied result ≡ find (λ l. l.up && not (base_passes (λ b. b.up) merged.now l.kind)) merged.now }
{
    merged
        .links()
        .iter()
        .find(|link| is_over_down_base(merged, link))
}

/// The place of rule 13: a VLAN is up and its base isn't.
pub(crate) fn base_down(merged: &Merged) -> Option<Place>
    ensures { result ≡ base_down merged.now }
{
    at_link(first_over_down_base(merged))
}

#[tactic(auto, using(net_model::proofs::lemmas::ByName::passes_where_found))]
fn named_allows(merged: &Merged, name: &Name, mtu: u32) -> bool
    ensures { result ≡ named_passes (λ b. nat_le mtu b.mtu) merged.now name.now }
{
    merged.find(name).is_some_and(|link| mtu <= link.mtu)
}

fn base_allows(merged: &Merged, kind: &Kind, mtu: u32) -> bool
    ensures { result ≡ base_passes (λ b. nat_le mtu b.mtu) merged.now kind.now }
{
    match kind {
        Kind::Vlan { base, .. } => named_allows(merged, base, mtu),
        _ => true,
    }
}

fn first_above_base(merged: &Merged) -> Option<&Link>
    ensures { option_copied result ≡ find (λ l. not (base_passes (λ b. nat_le l.mtu b.mtu) merged.now l.kind)) merged.now }
{
    merged
        .links()
        .iter()
        .find(|link| !base_allows(merged, &link.kind, link.mtu))
}

/// The place of rule 14: a VLAN's MTU is above its base's.
pub(crate) fn vlan_mtu(merged: &Merged) -> Option<Place>
    ensures { result ≡ vlan_mtu merged.now }
{
    at_link(first_above_base(merged))
}

fn has_addrs(addrs: &Option<Items<Prefix>>) -> bool
    ensures { result ≡ not (is_empty (unwrap_or addrs.now [])) }
{
    match addrs {
        Some(addrs) => !addrs.items().is_empty(),
        None => false,
    }
}

fn states_address(ip: &IpEntry) -> bool
    ensures { result ≡ states_address ip.now }
{
    !is_off(ip) && has_addrs(&ip.addrs)
}

fn family_states_address(ip: &Option<IpEntry>) -> bool
    ensures { result ≡ option_map_or states_address ip.now false }
{
    match ip {
        Some(ip) => states_address(ip),
        None => false,
    }
}

fn entry_states_address(entry: &LinkEntry) -> bool
    ensures { result ≡ entry_states_address entry.now }
{
    family_states_address(&entry.v4) || family_states_address(&entry.v6)
}

fn stated_for(entry: Option<&LinkEntry>) -> bool
    ensures { result ≡ option_map_or entry_states_address (option_copied entry.entry) false }
{
    match entry {
        Some(entry) => entry_states_address(entry),
        None => false,
    }
}

fn has_stated_address(members: &Members, name: &Name) -> bool
    ensures { result ≡ has_stated_address members.now name.now }
{
    match members.find(name) {
        Some(member) => stated_for(member.entry()),
        None => false,
    }
}

#[tactic(auto, using(net_model::proofs::lemmas::ByName::passes_where_found))]
fn named_is_bond_or_bridge(merged: &Merged, name: &Name) -> bool
    ensures { result ≡ named_passes (λ c. is_bond_or_bridge c.kind) merged.now name.now }
{
    merged
        .find(name)
        .is_some_and(|link| is_bond_or_bridge(&link.kind))
}

fn is_bond_or_bridge_port(merged: &Merged, link: &Link) -> bool
    ensures { result ≡ is_bond_or_bridge_port merged.now link.now }
{
    match &link.controller {
        Some(controller) => named_is_bond_or_bridge(merged, controller),
        None => false,
    }
}

fn is_port_with_address(members: &Members, merged: &Merged, link: &Link) -> bool
    ensures { result ≡ (is_bond_or_bridge_port merged.now link.now && has_stated_address members.now link.now.name) }
{
    is_bond_or_bridge_port(merged, link) && has_stated_address(members, &link.name)
}

fn first_port_with_address<'a>(members: &Members, merged: &'a Merged) -> Option<&'a Link>
    ensures { option_copied result ≡ find (λ l. is_bond_or_bridge_port merged.now l && has_stated_address members.now l.name) merged.now }
{
    merged
        .links()
        .iter()
        .find(|link| is_port_with_address(members, merged, link))
}

/// The place of rule 16: a port of a bond or bridge has a stated address.
pub(crate) fn port_address(members: &Members, merged: &Merged) -> Option<Place>
    ensures { result ≡ port_address members.now merged.now }
{
    at_link(first_port_with_address(members, merged))
}
