//! The addresses of the merged links.
ghost use Rattle.std.specs.Prelude.{◌≡◌, ◌||◌, ◌++◌, [], true, false, filter, if◌then◌else◌, option_copied, IfOk, OnOk, IsPermutation, IsSorted};
ghost use Rattle.std.specs.Option.{option_map_or, option_and_then, unwrap_or};
ghost use Rattle.net_model.specs.Words.{bool_eq, sorted};
ghost use Rattle.net_model.specs.Order.{block_cmp};
ghost use Rattle.merge_model.specs.Stated.{is_stated_down};
ghost use Rattle.merge_model.specs.Addresses.{is_bound, own_addrs, addrs_over, v4_of, v6_of, addrs_of};

use crate::options::controller_member;
use document_model::IpEntry;
use link_members::Members;
use link_order::{Member, is_absent, is_off, is_stated_down};
use net_lists::is_bond_or_bridge;
use net_model::{Items, Link, Prefix};
use std::alloc::{AllocError, Global};

// Whether the link is a port of a bond or bridge.
fn is_bound(members: &Members, member: &Member) -> bool
    ensures { result ≡ is_bound members.now member.now }
{
    match controller_member(members, member) {
        Some(controller) => is_bond_or_bridge(&controller.kind()),
        None => false,
    }
}

fn of_family(alloc: Global, addrs: &[Prefix], v6: bool) -> Result<Vec<Prefix>, AllocError>
    ensures { IfOk result (λ own. own.items ≡ filter (λ a. bool_eq a.addr.v6 v6) addrs.now) }
{
    addrs
        .iter()
        .filter(|prefix| prefix.addr().is_v6() == v6)
        .copied()
        .collect(alloc)
}

fn current_addrs(alloc: Global, old: Option<&Link>, v6: bool) -> Result<Vec<Prefix>, AllocError>
    ensures { IfOk result (λ own. own.items ≡ option_map_or (λ l. filter (λ a. bool_eq a.addr.v6 v6) l.addrs) (option_copied old.entry) []) }
{
    match old {
        Some(link) => of_family(alloc, link.addrs.items(), v6),
        None => Ok(Vec::new(alloc)),
    }
}

fn loses_addrs(members: &Members, member: &Member) -> bool
    ensures { result ≡ (is_bound members.now member.now || is_stated_down member.now.wish) }
{
    is_bound(members, member) || is_stated_down(member.wish())
}

// The addresses of the family that stay where none is stated.
fn own_addrs(
    alloc: Global,
    members: &Members,
    member: &Member,
    v6: bool,
) -> Result<Vec<Prefix>, AllocError>
    ensures { IfOk result (λ own. own.items ≡ own_addrs members.now member.now v6) }
{
    if loses_addrs(members, member) {
        Ok(Vec::new(alloc))
    } else {
        current_addrs(alloc, member.old(), v6)
    }
}

fn copied(alloc: Global, addrs: &[Prefix]) -> Result<Vec<Prefix>, AllocError>
    ensures { IfOk result (λ copy. copy.items ≡ addrs.now) }
{
    addrs.iter().copied().collect(alloc)
}

fn stated_addrs(
    alloc: Global,
    own: Vec<Prefix>,
    stated: &Option<Items<Prefix>>,
) -> Result<Vec<Prefix>, AllocError>
    ensures { IfOk result (λ addrs. addrs.items ≡ unwrap_or stated.now own.items) }
{
    match stated {
        Some(addrs) => copied(alloc, addrs.items()),
        None => Ok(own),
    }
}

// None where the family is off, else those that are stated, else these.
fn addrs_over(
    alloc: Global,
    own: Vec<Prefix>,
    ip: &Option<IpEntry>,
) -> Result<Vec<Prefix>, AllocError>
    ensures { IfOk result (λ addrs. addrs.items ≡ addrs_over own.items ip.now) }
{
    match ip {
        Some(ip) => {
            if is_off(ip) {
                Ok(Vec::new(alloc))
            } else {
                stated_addrs(alloc, own, &ip.addrs)
            }
        }
        None => Ok(own),
    }
}

fn v4_of(alloc: Global, members: &Members, member: &Member) -> Result<Vec<Prefix>, AllocError>
    ensures { IfOk result (λ addrs. addrs.items ≡ v4_of members.now member.now) }
{
    let own = own_addrs(alloc, members, member, false)?;
    match member.entry() {
        Some(entry) => addrs_over(alloc, own, &entry.v4),
        None => Ok(own),
    }
}

fn v6_of(alloc: Global, members: &Members, member: &Member) -> Result<Vec<Prefix>, AllocError>
    ensures { IfOk result (λ addrs. addrs.items ≡ v6_of members.now member.now) }
{
    let own = own_addrs(alloc, members, member, true)?;
    match member.entry() {
        Some(entry) => addrs_over(alloc, own, &entry.v6),
        None => Ok(own),
    }
}

fn v6_if_up(
    alloc: Global,
    members: &Members,
    member: &Member,
    up: bool,
) -> Result<Vec<Prefix>, AllocError>
    ensures { IfOk result (λ addrs. addrs.items ≡ (if up then v6_of members.now member.now else [])) }
{
    if up {
        v6_of(alloc, members, member)
    } else {
        Ok(Vec::new(alloc))
    }
}

fn both(
    alloc: Global,
    members: &Members,
    member: &Member,
    up: bool,
) -> Result<Vec<Prefix>, AllocError>
    ensures { IfOk result (λ addrs. addrs.items ≡ v4_of members.now member.now ++ (if up then v6_of members.now member.now else [])) }
{
    let mut addrs = v4_of(alloc, members, member)?;
    let more = v6_if_up(alloc, members, member, up)?;
    addrs.extend_from_slice(&more)?;
    Ok(addrs)
}

fn sort_addresses(addrs: &mut Vec<Prefix>) -> Result<(), AllocError>
    ensures sorted { OnOk result (IsSorted block_cmp addrs.new.items) }
    ensures moved { IsPermutation addrs.old.items addrs.new.items }
{
    addrs.sort()
}

fn sorted_addresses(mut addrs: Vec<Prefix>) -> Result<Items<Prefix>, AllocError>
    ensures { IfOk result (λ in_order. in_order ≡ sorted block_cmp addrs.items) }
{
    sort_addresses(&mut addrs)?;
    Ok(Items::of(addrs))
}

/// The addresses in order; those of IPv6 on a link that is up alone.
pub(crate) fn addrs_of(
    alloc: Global,
    members: &Members,
    member: &Member,
    up: bool,
) -> Result<Items<Prefix>, AllocError>
    ensures { IfOk result (λ addrs. addrs ≡ addrs_of members.now member.now up) }
{
    if is_absent(member.wish()) {
        return Ok(Items::of(Vec::new(alloc)));
    }
    sorted_addresses(both(alloc, members, member, up)?)
}
