//! The rules 6 to 8 of the merge, which are asked of claims and lists of ports.
ghost use Rattle.std.specs.Prelude.{◌≡◌, ◌&&◌, ◌||◌, ◌∷◌, [], not, false, find, is_some, is_none, option_copied, IfOk};
ghost use Rattle.std.specs.List.{list_any};
ghost use Rattle.std.specs.Option.{option_map_or, option_map, option_or, unwrap_or};
ghost use Rattle.net_model.specs.Name.{same_bytes};
ghost use Rattle.net_model.specs.Words.{apart};
ghost use Rattle.merge_model.specs.Members.{Member, find_member};
ghost use Rattle.merge_model.specs.Controllers.{stated_ports, lists, own_claim, claims};
ghost use Rattle.merge_model.specs.Places.{at_member};
ghost use Rattle.merge_model.specs.BrokenPorts.{is_missing, claims_missing, port_missing, port_twice, same_claim, claims_differ, leaves_out, is_left_out, port_conflict};

use document_model::{Claim, Place};
use link_members::{Members, lacks_list, own_claim, stated_ports};
use link_order::Member;
use net_model::Name;
use std::alloc::{AllocError, Global};
use std::collections::BTreeSet;

fn at_member(found: Option<&Member>) -> Option<Place>
    ensures { result ≡ at_member (option_copied found.entry) }
{
    match found {
        Some(member) => Some(Place::Link(member.name())),
        None => None,
    }
}

fn is_missing(members: &Members, name: &Name) -> bool
    ensures { result ≡ is_missing members.now name.now }
{
    members.find(name).is_none()
}

fn has_missing(members: &Members, names: &[Name]) -> bool
    ensures { result ≡ list_any (is_missing members.now) names.now }
{
    names.iter().any(|name| is_missing(members, name))
}

fn claim_missing(members: &Members, claim: Claim) -> bool
    ensures { result ≡ claims_missing members.now claim }
{
    match claim {
        Claim::Nobody => false,
        Claim::To(name) => is_missing(members, &name),
    }
}

fn claims_missing(members: &Members, claim: Option<Claim>) -> bool
    ensures { result ≡ option_map_or (claims_missing members.now) claim false }
{
    match claim {
        Some(claim) => claim_missing(members, claim),
        None => false,
    }
}

// Whether the list names a link that isn't there, or the link claims one.
fn names_missing(alloc: Global, members: &Members, member: &Member) -> Result<bool, AllocError>
    ensures { IfOk result (λ missing. missing
        ≡ (list_any (is_missing members.now) (unwrap_or (stated_ports member.now) []) ||
        option_map_or (claims_missing members.now) (own_claim member.now) false)) }
{
    let ports = stated_ports(alloc, member)?;
    Ok(has_missing(members, &ports) || claims_missing(members, own_claim(member)))
}

/// The place of rule 6: a stated list names a link, or a stated controller is one, that isn't in the merged state.
pub(crate) fn port_missing(alloc: Global, members: &Members) -> Result<Option<Place>, AllocError>
    ensures { IfOk result (λ place. place ≡ port_missing members.now) }
{
    let list = members.list().as_slice();
    for at in 0..list.len() {
        if names_missing(alloc, members, &list[at])? {
            return Ok(Some(Place::Link(list[at].name())));
        }
    }
    Ok(None)
}

// Whether each name is there once.
fn differ(alloc: Global, names: &[Name]) -> Result<bool, AllocError>
    ensures { IfOk result (λ differ. differ ≡ apart same_bytes names.now) }
{
    let mut seen = BTreeSet::new(alloc);
    for at in 0..names.len() {
        let new = seen.insert(names[at])?;
        if !new {
            return Ok(false);
        }
    }
    Ok(true)
}

// Whether the stated list names a link twice.
fn lists_twice(alloc: Global, member: &Member) -> Result<bool, AllocError>
    ensures { IfOk result (λ twice. twice ≡ not (apart same_bytes (unwrap_or (stated_ports member.now) []))) }
{
    let ports = stated_ports(alloc, member)?;
    let differ = differ(alloc, &ports)?;
    Ok(!differ)
}

/// The place of rule 7: a stated list names a link twice.
pub(crate) fn port_twice(alloc: Global, members: &Members) -> Result<Option<Place>, AllocError>
    ensures { IfOk result (λ place. place ≡ port_twice members.now) }
{
    let list = members.list().as_slice();
    for at in 0..list.len() {
        if lists_twice(alloc, &list[at])? {
            return Ok(Some(Place::Link(list[at].name())));
        }
    }
    Ok(None)
}

fn same_claim(a: Claim, b: Claim) -> bool
    ensures { result ≡ same_claim a b }
{
    match a {
        Claim::Nobody => matches!(b, Claim::Nobody),
        Claim::To(one) => match b {
            Claim::Nobody => false,
            Claim::To(other) => one == other,
        },
    }
}

// Whether a list that names the link makes another claim.
#[tactic(auto, using(crate::proofs::Contradicted::contradicted, crate::proofs::Contradicted::uncontradicted))]
fn is_contradicted(members: &Members, name: &Name, claim: Claim) -> bool
    ensures { result ≡ list_any (λ c. lists c name.now && not (same_claim claim (Claim.To c.name))) members.now }
{
    match members.first_lister(name) {
        Some(first) => !same_claim(claim, Claim::To(first.name())) || members.is_contested(name),
        None => false,
    }
}

// The claim of the first list that names the link.
fn listed_claim(members: &Members, name: &Name) -> Option<Claim>
    ensures { result ≡ option_map (λ c. Claim.To c.name) (find (λ c. lists c name.now) members.now) }
{
    match members.first_lister(name) {
        Some(lister) => Some(Claim::To(lister.name())),
        None => None,
    }
}

// The claim that decides.
fn first_claim(members: &Members, member: &Member) -> Option<Claim>
    ensures { result ≡ option_or (own_claim member.now) (option_map (λ c. Claim.To c.name) (find (λ c. lists c member.now.name) members.now)) }
{
    match own_claim(member) {
        Some(claim) => Some(claim),
        None => listed_claim(members, &member.name()),
    }
}

#[tactic(auto, using(crate::proofs::Claims::differ_from_first))]
fn claims_differ(members: &Members, member: &Member) -> bool
    ensures { result ≡ claims_differ (claims members.now member.now) }
{
    first_contradicted(members, member, first_claim(members, member))
}

fn first_contradicted(members: &Members, member: &Member, claim: Option<Claim>) -> bool
    ensures { result ≡ option_map_or (λ claim. list_any (λ c. lists c member.now.name && not (same_claim claim (Claim.To c.name))) members.now) claim false }
{
    match claim {
        Some(claim) => is_contradicted(members, &member.name(), claim),
        None => false,
    }
}

// Whether the controller states a list without the port.
fn named_leaves_out(members: &Members, port: &Name, controller: &Name) -> bool
    ensures { result ≡ option_map_or (leaves_out port.now) (find_member controller.now members.now) false }
{
    match members.find(controller) {
        Some(member) => !lacks_list(member) && !members.lists(controller, port),
        None => false,
    }
}

fn is_left_out(members: &Members, port: &Name, claim: Claim) -> bool
    ensures { result ≡ is_left_out members.now port.now claim }
{
    match claim {
        Claim::Nobody => false,
        Claim::To(name) => named_leaves_out(members, port, &name),
    }
}

fn own_left_out(members: &Members, member: &Member) -> bool
    ensures { result ≡ option_map_or (is_left_out members.now member.now.name) (own_claim member.now) false }
{
    match own_claim(member) {
        Some(claim) => is_left_out(members, &member.name(), claim),
        None => false,
    }
}

fn is_in_conflict(members: &Members, member: &Member) -> bool
    ensures { result ≡ (claims_differ (claims members.now member.now) || option_map_or (is_left_out members.now member.now.name) (own_claim member.now) false) }
{
    claims_differ(members, member) || own_left_out(members, member)
}

fn first_in_conflict<'a, 'b>(members: &'b Members<'a>) -> Option<&'b Member<'a>>
    ensures { option_copied result ≡ find
        (λ m. claims_differ (claims members.now m) || option_map_or (is_left_out members.now m.name) (own_claim m)
        false) members.now }
{
    members
        .list()
        .iter()
        .find(|member| is_in_conflict(members, member))
}

/// The place of rule 8: two claims on a link differ, or a link claims a controller whose stated list lacks it.
pub(crate) fn port_conflict(members: &Members) -> Option<Place>
    ensures { result ≡ port_conflict members.now }
{
    at_member(first_in_conflict(members))
}
