//! The links of the merged state, before their fields: which they are, and of what kind.
ghost use Rattle.std.specs.Prelude.{◌≡◌, ◌<◌, ◌+◌, ◌&&◌, ◌||◌, ◌++◌, ◌∷◌, ℕ, List, [], not, false, if◌then◌else◌, map, length, option_copied, IfOk, OnOk};
ghost use Rattle.std.specs.List.{filter_map};
ghost use Rattle.std.specs.Option.{option_map_or, option_and_then, option_to_list};
ghost use Rattle.reach.specs.Reach.{is_reached};
ghost use Rattle.net_model.specs.Name.{same_bytes};
ghost use Rattle.reach.specs.Positions.{positions};
ghost use Rattle.net_model.specs.Links.{is_named, peer_of, has_peer};
ghost use Rattle.net_model.specs.Dependence.{has_base};
ghost use Rattle.merge_model.specs.Stated.{find_entry, is_mentioned, is_absent};
ghost use Rattle.merge_model.specs.Members.{is_removed, keeps_peer, leaves_peer, is_left, is_dropped, goes_with, is_gone, retired, stated_wish, entered, entered_over, stays, left_alone, implied, members_by_rank};
ghost use Rattle.link_order.specs.Rows.{rows_to};

use crate::entries::Entries;
use crate::implied::implied;
use crate::kinds::{kind_of, merged_kind};
use crate::member::Member;
use crate::reached::{add_arrow, closure, no_arrows};
use crate::stated::is_absent;
use document_model::{LinkEntry, Wish};
use net_core::Net;
use net_lists::{has_peer, is_ethernet, peer_of};
use net_model::{Items, Kind, Link, Name, Position};
use std::alloc::{AllocError, Global};

fn is_mentioned(entries: &Entries, link: &Link) -> bool
    ensures { result ≡ is_mentioned entries.now link.now }
{
    entries.find(&link.name).is_some()
}

fn is_stated_absent(entries: &Entries, name: &Name) -> bool
    ensures { result ≡ option_map_or (λ e. is_absent e.wish) (find_entry name.now entries.now) false }
{
    match entries.find(name) {
        Some(entry) => is_absent(entry.wish),
        None => false,
    }
}

fn is_removed(entries: &Entries, link: &Link) -> bool
    ensures { result ≡ is_removed entries.now link.now }
{
    is_stated_absent(entries, &link.name) && !is_ethernet(&link.kind)
}

// Whether the entry leaves its link a veth with this one as its peer.
fn keeps_peer(net: &Net, link: &Link, entry: &LinkEntry) -> bool
    ensures { result ≡ keeps_peer net.now.links link.now entry.now }
{
    match merged_kind(entry, kind_of(net.link(&entry.name))) {
        Some(kind) => has_peer(&kind, &link.name),
        None => false,
    }
}

fn leaves_peer(net: &Net, link: &Link, entry: &LinkEntry) -> bool
    ensures { result ≡ leaves_peer net.now.links link.now entry.now }
{
    !is_absent(entry.wish) && !keeps_peer(net, link, entry)
}

// The entry of a veth's peer.
fn peer_entry<'a>(entries: &Entries<'a>, kind: &Kind) -> Option<&'a LinkEntry>
    ensures { option_copied result ≡ option_and_then (λ peer. find_entry peer entries.now) (peer_of kind.now) }
{
    match peer_of(kind) {
        Some(peer) => entries.find(&peer),
        None => None,
    }
}

// Whether the link is an unmentioned veth that its peer's entry leaves.
fn is_left(net: &Net, entries: &Entries, link: &Link) -> bool
    ensures { result ≡ is_left net.now.links entries.now link.now }
{
    if is_mentioned(entries, link) {
        return false;
    }
    match peer_entry(entries, &link.kind) {
        Some(entry) => leaves_peer(net, link, entry),
        None => false,
    }
}

fn is_dropped(net: &Net, entries: &Entries, link: &Link) -> bool
    ensures { result ≡ is_dropped net.now.links entries.now link.now }
{
    is_removed(entries, link) || is_left(net, entries, link)
}

// The name of the link that one of this kind hangs on: a VLAN's base, a veth's peer.
fn hangs_on(kind: &Kind) -> Option<Name>
    ensures { (q : List ℕ) → option_map_or (λ n. same_bytes n q) result false ≡ (has_base kind.now q || has_peer kind.now q) }
{
    match kind {
        Kind::Vlan { base, .. } => Some(*base),
        Kind::Veth { peer } => Some(*peer),
        _ => None,
    }
}

// The place of the link of a name.
fn place_of(net: &Net, name: &Name) -> Option<usize>
    ensures { option_to_list result ≡ positions (is_named name.now) 0 net.now.links }
{
    net.laws();
    match net.link_position(name) {
        Position::At(at) => Some(at),
        Position::Gap(_) => None,
    }
}

// The place of the link that this one goes with: an unmentioned VLAN with its base, an unmentioned veth with its peer.
fn leader(net: &Net, entries: &Entries, link: &Link) -> Option<usize>
    ensures { option_to_list result ≡ positions (λ b. goes_with entries.now b link.now) 0 net.now.links }
{
    if is_mentioned(entries, link) {
        return None;
    }
    match hangs_on(&link.kind) {
        Some(name) => place_of(net, &name),
        None => None,
    }
}

// Draws the arrow to the link at a place, where it goes with one.
fn draw(
    arrows: &mut [Items<usize>],
    net: &Net,
    entries: &Entries,
    at: usize,
) -> Result<(), AllocError>
    requires drawn { arrows.old ≡ rows_to (λ l. []) (goes_with entries.now) net.now.links at }
    requires inside { at < length net.now.links }
    ensures { OnOk result (arrows.new ≡ rows_to (λ l. []) (goes_with entries.now) net.now.links (at + 1)) }
{
    match leader(net, entries, &net.links()[at]) {
        Some(from) => add_arrow(arrows, from, at),
        None => Ok(()),
    }
}

// For each link, the places of those that go with it: each is drawn from the link that it goes with, found by name.
fn arrows(alloc: Global, net: &Net, entries: &Entries) -> Result<Vec<Items<usize>>, AllocError>
    ensures { IfOk result (λ arrows. arrows.items ≡ map (λ l. positions (goes_with entries.now l) 0 net.now.links) net.now.links) }
{
    let mut arrows = no_arrows(alloc, net.links().len())?;
    for at in 0..net.links().len() {
        draw(&mut arrows, net, entries, at)?;
    }
    Ok(arrows)
}

fn dropped(alloc: Global, net: &Net, entries: &Entries) -> Result<Vec<bool>, AllocError>
    ensures { IfOk result (λ marks. marks.items ≡ map (is_dropped net.now.links entries.now) net.now.links) }
{
    net.links()
        .iter()
        .map(|link| is_dropped(net, entries, link))
        .collect(alloc)
}

// Which links are reached from those that are dropped.
fn reached(
    alloc: Global,
    net: &Net,
    entries: &Entries,
    starts: &[bool],
) -> Result<Vec<bool>, AllocError>
    requires { starts.now ≡ map (is_dropped net.now.links entries.now) net.now.links }
    ensures { IfOk result (λ marks. marks.items ≡
        map (is_reached (goes_with entries.now) (is_dropped net.now.links entries.now)
        net.now.links (length net.now.links)) net.now.links) }
{
    let arrows = arrows(alloc, net, entries)?;
    let marks = closure(alloc, &arrows, starts)?;
    Ok(marks)
}

fn either(a: bool, b: bool) -> bool
    ensures { result ≡ (a || b) }
{
    a || b
}

// Whether each link goes.
fn gone(alloc: Global, net: &Net, entries: &Entries) -> Result<Vec<bool>, AllocError>
    ensures { IfOk result (λ marks. marks.items ≡ map (is_gone net.now.links entries.now) net.now.links) }
{
    let starts = dropped(alloc, net, entries)?;
    let reached = reached(alloc, net, entries, &starts)?;
    let mut gone = Vec::new(alloc);
    for at in 0..starts.len() {
        gone.push(either(starts[at], reached[at]))?;
    }
    Ok(gone)
}

// An Ethernet link that is stated absent stays, without settings; nothing else that is stated absent is there.
fn retired<'a>(name: Name, old: Option<&'a Link>) -> Option<Member<'a>>
    ensures { result ≡ retired name (option_copied old.entry) }
{
    match old {
        Some(link) => {
            if is_ethernet(&link.kind) {
                Some(Member::of(name, link.kind, old, None, Some(Wish::Absent)))
            } else {
                None
            }
        }
        None => None,
    }
}

// What is stated of the state: a new link without one is to be up.
fn stated_wish(entry: &LinkEntry, old: Option<&Link>) -> Option<Wish>
    ensures { result ≡ stated_wish entry.now (option_copied old.entry) }
{
    match entry.wish {
        Some(wish) => Some(wish),
        None => { if old.is_none() { Some(Wish::Up) } else { None } }
    }
}

// The link that an entry makes, where it makes one.
fn entered<'a>(entry: &'a LinkEntry, old: Option<&'a Link>) -> Option<Member<'a>>
    ensures { result ≡ entered entry.now (option_copied old.entry) }
{
    if is_absent(entry.wish) {
        return retired(entry.name, old);
    }
    let wish = stated_wish(entry, old);
    match merged_kind(entry, kind_of(old)) {
        Some(kind) => Some(Member::of(entry.name, kind, old, Some(entry), wish)),
        None => None,
    }
}

fn entered_over<'a>(net: &'a Net, entry: &'a LinkEntry) -> Option<Member<'a>>
    ensures { result ≡ entered_over net.now.links entry.now }
{
    entered(entry, net.link(&entry.name))
}

fn push_entered<'a>(
    members: &mut Vec<Member<'a>>,
    net: &'a Net,
    entry: &'a LinkEntry,
) -> Result<(), AllocError>
    ensures { OnOk result (members.new.items ≡ members.old.items ++ option_to_list (entered_over net.now.links entry.now)) }
{
    if let Some(member) = entered_over(net, entry) {
        members.push(member)?;
    }
    Ok(())
}

// The links that the entries make.
fn all_entered<'a>(
    alloc: Global,
    net: &'a Net,
    entries: &'a [LinkEntry],
) -> Result<Vec<Member<'a>>, AllocError>
    ensures { IfOk result (λ members. members.items ≡ filter_map (entered_over net.now.links) entries.now) }
{
    let mut members = Vec::new(alloc);
    for entry in entries {
        push_entered(&mut members, net, entry)?;
    }
    Ok(members)
}

fn from_entries<'a>(
    alloc: Global,
    net: &'a Net,
    entries: &Entries<'a>,
) -> Result<Vec<Member<'a>>, AllocError>
    ensures { IfOk result (λ members. members.items ≡ filter_map (entered_over net.now.links) entries.now) }
{
    let members = all_entered(alloc, net, entries.list())?;
    Ok(members)
}

fn left_alone<'a>(link: &'a Link) -> Member<'a>
    ensures { result ≡ left_alone link.now }
{
    Member::of(link.name, link.kind, Some(link), None, None)
}

// An unmentioned link that doesn't go.
fn push_staying<'a>(
    members: &mut Vec<Member<'a>>,
    entries: &Entries,
    link: &'a Link,
    gone: bool,
) -> Result<(), AllocError>
    ensures { OnOk result (members.new.items ≡ members.old.items
        ++ (if not (is_mentioned entries.now link.now) && not gone then left_alone link.now ∷ [] else [])) }
{
    if !is_mentioned(entries, link) && !gone {
        members.push(left_alone(link))?;
    }
    Ok(())
}

// Those that the entries make, and after them those that these imply.
fn stated<'a>(
    alloc: Global,
    net: &'a Net,
    entries: &Entries<'a>,
) -> Result<Vec<Member<'a>>, AllocError>
    ensures { IfOk result (λ members. members.items ≡ filter_map (entered_over net.now.links) entries.now ++ implied net.now.links entries.now) }
{
    let mut members = from_entries(alloc, net, entries)?;
    let mut others = implied(alloc, net, entries, &members)?;
    members.append(&mut others)?;
    Ok(members)
}

/// The links of the merged state by rank: in the order of the entries, then the implied ones, then the unmentioned ones
/// by name. The error is that memory is out.
pub fn members_by_rank<'a>(
    alloc: Global,
    net: &'a Net,
    entries: &Entries<'a>,
) -> Result<Vec<Member<'a>>, AllocError>
    ensures { IfOk result (λ members. members.items ≡ members_by_rank net.now.links entries.now) }
{
    let mut members = stated(alloc, net, entries)?;
    let links = net.links().as_slice();
    let gone = gone(alloc, net, entries)?;
    for at in 0..links.len() {
        push_staying(&mut members, entries, &links[at], gone[at])?;
    }
    Ok(members)
}
