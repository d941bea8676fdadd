//! The controllers of the merged links.
ghost use Rattle.std.specs.Prelude.{◌≡◌, false, find, is_none, Some, None, option_copied, IfOk};
ghost use Rattle.std.specs.Option.{option_map_or, option_map, option_and_then};
ghost use Rattle.merge_model.specs.Stated.{claimed};
ghost use Rattle.merge_model.specs.Kinds.{same_type};
ghost use Rattle.merge_model.specs.Members.{find_member};
ghost use Rattle.merge_model.specs.Controllers.{ports_by, stated_ports, lists, own_claim, claims, decided, keeps_ports, kept_by, kept_controller, merged_controller, with_controller, with_controllers};

use crate::members::Members;
use document_model::{Claim, LinkEntry};
use link_order::{Member, is_absent, same_type};
use net_model::{Kind, Link, Name};
use std::alloc::{AllocError, Global};

fn entry_lacks_list(kind: &Kind, entry: &LinkEntry) -> bool
    ensures { result ≡ is_none (ports_by kind.now entry.now) }
{
    match kind {
        Kind::Bond { .. } => entry.bond.ports.is_none(),
        Kind::Bridge => entry.bridge.ports.is_none(),
        Kind::Vrf { .. } => entry.vrf.ports.is_none(),
        _ => true,
    }
}

/// Whether no list of ports is stated.
pub fn lacks_list(member: &Member) -> bool
    ensures { result ≡ is_none (stated_ports member.now) }
{
    let kind = member.kind();
    match member.entry() {
        Some(entry) => entry_lacks_list(&kind, entry),
        None => true,
    }
}

/// The controller that the link's own entry states.
pub fn own_claim(member: &Member) -> Option<Claim>
    ensures { result ≡ own_claim member.now }
{
    match member.entry() {
        Some(entry) => entry.controller,
        None => None,
    }
}

fn claimed(claim: Claim) -> Option<Name>
    ensures { result ≡ claimed claim }
{
    match claim {
        Claim::Nobody => None,
        Claim::To(name) => Some(name),
    }
}

fn had_type(member: &Member) -> bool
    ensures { result ≡ option_map_or (λ l. same_type l.kind member.now.kind) member.now.old false }
{
    let kind = member.kind();
    match member.old() {
        Some(link) => same_type(&link.kind, &kind),
        None => false,
    }
}

// Whether a controller is of the type that it was, and no list is stated for it.
fn keeps_ports(member: &Member) -> bool
    ensures { result ≡ keeps_ports member.now }
{
    had_type(member) && lacks_list(member)
}

fn named_keeps_ports(members: &Members, name: &Name) -> bool
    ensures { result ≡ option_map_or keeps_ports (find_member name.now members.now) false }
{
    match members.find(name) {
        Some(member) => keeps_ports(member),
        None => false,
    }
}

fn kept_by(members: &Members, name: Name) -> Option<Name>
    ensures { result ≡ kept_by members.now name }
{
    if named_keeps_ports(members, &name) {
        Some(name)
    } else {
        None
    }
}

fn current_controller(old: Option<&Link>) -> Option<Name>
    ensures { result ≡ option_and_then (λ l. l.controller) (option_copied old.entry) }
{
    match old {
        Some(link) => link.controller,
        None => None,
    }
}

// The current controller, where that keeps its ports.
fn kept_controller(members: &Members, member: &Member) -> Option<Name>
    ensures { result ≡ kept_controller members.now member.now }
{
    match current_controller(member.old()) {
        Some(name) => kept_by(members, name),
        None => None,
    }
}

fn name_of(found: Option<&Member>) -> Option<Name>
    ensures { result ≡ option_map (λ c. c.name) (option_copied found.entry) }
{
    match found {
        Some(member) => Some(member.name()),
        None => None,
    }
}

// The first link whose list names the link, else the current controller.
fn listed_controller(members: &Members, member: &Member) -> Option<Name>
    ensures { result ≡ option_map_or (λ c. Some c.name) (find (λ c. lists c member.now.name) members.now) (kept_controller members.now member.now) }
{
    match name_of(members.first_lister(&member.name())) {
        Some(name) => Some(name),
        None => kept_controller(members, member),
    }
}

#[tactic(auto, using(crate::proofs::Claims::decided_by_list, crate::proofs::Claims::decided_by_own))]
fn live_controller(members: &Members, member: &Member) -> Option<Name>
    ensures { result ≡ decided (claims members.now member.now) (kept_controller members.now member.now) }
{
    match own_claim(member) {
        Some(claim) => claimed(claim),
        None => listed_controller(members, member),
    }
}

// The claim decides, else the current controller stays where it keeps its ports.
fn merged_controller(members: &Members, member: &Member) -> Option<Name>
    ensures { result ≡ merged_controller members.now member.now }
{
    if is_absent(member.wish()) {
        return None;
    }
    live_controller(members, member)
}

fn with_controller<'a>(members: &Members<'a>, member: &Member<'a>) -> Member<'a>
    ensures { result ≡ with_controller members.now member.now }
{
    member.under(merged_controller(members, member))
}

/// The links with their controllers. The error is that memory is out.
pub fn with_controllers<'a>(
    alloc: Global,
    members: &Members<'a>,
) -> Result<Vec<Member<'a>>, AllocError>
    ensures { IfOk result (λ list. list.items ≡ with_controllers members.now) }
{
    let mut list = Vec::new(alloc);
    for member in members.list() {
        list.push(with_controller(members, member))?;
    }
    Ok(list)
}
