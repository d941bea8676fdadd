//! The least rule that is broken, group by group.
ghost use Rattle.std.specs.Prelude.{◌≡◌, true, IfOk};
ghost use Rattle.std.specs.Option.{option_map};
ghost use Rattle.net_model.specs.Valid.{names_differ};
ghost use Rattle.merge_model.specs.Merged.{merged_links};
ghost use Rattle.merge_model.specs.Places.{at_rule, first_of};
ghost use Rattle.link_rules.specs.Rules.{entry_rules, port_rules, shape_rules, merged_rules};

use crate::bonds::bond_options;
use crate::broken_entries::{duplicate_name, missing_detail, no_device, no_type, physical_kind};
use crate::broken_links::{bad_base, base_down, port_address, port_kind, vlan_mtu};
use crate::dependence::cycle;
use crate::merged::Merged;
use crate::outline::outlines;
use crate::ports::{port_conflict, port_missing, port_twice};
use crate::twice::address_twice;
use crate::twins::vlan_twin;
use document_model::{Place, Refused};
use link_members::Members;
use link_order::Entries;
use net_core::Net;
use std::alloc::{AllocError, Global};

const DUPLICATE_NAME: u8 = 1;

const NO_TYPE: u8 = 2;

const NO_DEVICE: u8 = 3;

const PHYSICAL_KIND: u8 = 4;

const MISSING_DETAIL: u8 = 5;

const PORT_MISSING: u8 = 6;

const PORT_TWICE: u8 = 7;

const PORT_CONFLICT: u8 = 8;

const PORT_KIND: u8 = 9;

const BAD_BASE: u8 = 10;

const CYCLE: u8 = 11;

const VLAN_TWIN: u8 = 12;

const BASE_DOWN: u8 = 13;

const VLAN_MTU: u8 = 14;

const BOND_OPTIONS: u8 = 15;

const PORT_ADDRESS: u8 = 16;

const ADDRESS_TWICE: u8 = 17;

fn refused(rule: u8, place: Place) -> Refused
    ensures { result ≡ at_rule rule place }
{
    Refused {
        rule,
        which: 0,
        place,
    }
}

fn at(rule: u8, place: Option<Place>) -> Option<Refused>
    ensures { result ≡ option_map (at_rule rule) place }
{
    match place {
        Some(place) => Some(refused(rule, place)),
        None => None,
    }
}

/// The least of rules 1 to 5 that is broken, at its first place.
pub fn entries_broken(net: &Net, entries: &Entries) -> Option<Refused>
    ensures { result ≡ first_of at_rule (entry_rules net.now.links entries.now) }
{
    let list = entries.list();
    if let Some(place) = duplicate_name(entries) {
        return Some(refused(DUPLICATE_NAME, place));
    }
    if let Some(place) = no_type(net, list) {
        return Some(refused(NO_TYPE, place));
    }
    if let Some(place) = no_device(net, list) {
        return Some(refused(NO_DEVICE, place));
    }
    if let Some(place) = physical_kind(net, list) {
        return Some(refused(PHYSICAL_KIND, place));
    }
    at(MISSING_DETAIL, missing_detail(net, list))
}

/// The least of rules 6 to 8 that is broken, at its first place. The error is that memory is out.
pub fn ports_broken(alloc: Global, members: &Members) -> Result<Option<Refused>, AllocError>
    ensures { IfOk result (λ broken. broken ≡ first_of at_rule (port_rules members.now)) }
{
    let missing = port_missing(alloc, members)?;
    if let Some(place) = missing {
        return Ok(Some(refused(PORT_MISSING, place)));
    }
    let twice = port_twice(alloc, members)?;
    if let Some(place) = twice {
        return Ok(Some(refused(PORT_TWICE, place)));
    }
    Ok(at(PORT_CONFLICT, port_conflict(members)))
}

// The least of rules 9 to 11 that is broken, asked of links that may lack their fields.
fn outlines_broken(alloc: Global, merged: &Merged) -> Result<Option<Refused>, AllocError>
    ensures { IfOk result (λ broken. broken ≡ first_of at_rule (shape_rules merged.now)) }
{
    if let Some(place) = port_kind(merged) {
        return Ok(Some(refused(PORT_KIND, place)));
    }
    if let Some(place) = bad_base(merged) {
        return Ok(Some(refused(BAD_BASE, place)));
    }
    Ok(at(CYCLE, cycle(alloc, merged)?))
}

/// The least of rules 9 to 11 that is broken, at its first place. They look at names, kinds and controllers alone, so that
/// bases that lead round are refused before any field is followed along them. The error is that memory is out.
pub fn shape_broken(alloc: Global, members: &Members) -> Result<Option<Refused>, AllocError>
    requires { names_differ (merged_links members.now) ≡ true }
    ensures { IfOk result (λ broken. broken ≡ first_of at_rule (shape_rules (merged_links members.now))) }
{
    let links = outlines(alloc, members)?;
    let merged = Merged::of(alloc, links)?;
    let broken = outlines_broken(alloc, &merged)?;
    Ok(broken)
}

/// The least of rules 12 to 17 that is broken, at its first place. The error is that memory is out.
pub fn merged_broken(
    alloc: Global,
    members: &Members,
    merged: &Merged,
) -> Result<Option<Refused>, AllocError>
    ensures { IfOk result (λ broken. broken ≡ first_of at_rule (merged_rules members.now merged.now)) }
{
    let twin = vlan_twin(alloc, merged.links())?;
    if let Some(place) = twin {
        return Ok(Some(refused(VLAN_TWIN, place)));
    }
    if let Some(place) = base_down(merged) {
        return Ok(Some(refused(BASE_DOWN, place)));
    }
    if let Some(place) = vlan_mtu(merged) {
        return Ok(Some(refused(VLAN_MTU, place)));
    }
    let options = bond_options(alloc, merged)?;
    if let Some(place) = options {
        return Ok(Some(refused(BOND_OPTIONS, place)));
    }
    if let Some(place) = port_address(members, merged) {
        return Ok(Some(refused(PORT_ADDRESS, place)));
    }
    let twice = address_twice(alloc, merged.links())?;
    Ok(at(ADDRESS_TWICE, twice))
}
