//! The links that rise though nothing is stated of their state.
ghost use Rattle.std.specs.Prelude.{◌≡◌, ◌&&◌, ◌||◌, ◌++◌, ◌∷◌, [], true, false, map, is_none, slice_get, IfOk, OnOk};
ghost use Rattle.std.specs.Option.{option_map_or, option_to_list};
ghost use Rattle.net_model.specs.Name.{same_bytes};
ghost use Rattle.net_model.specs.Words.{apart};
ghost use Rattle.merge_model.specs.Kinds.{base_of};
ghost use Rattle.merge_model.specs.Members.{Member};
ghost use Rattle.merge_model.specs.Lifted.{is_unstated, starts, is_lifted, with_lifted};
ghost use Rattle.link_members.specs.Lifts.{held_names, if_unstated, unstated_place, unstated_places};

use crate::members::names;
use crate::port_lists::stated_ports;
use link_order::{Index, Member, base_of, closure, is_stated_up};
use net_model::{Items, Name};
use std::alloc::{AllocError, Global};

fn lacks_base(member: &Member) -> bool
    ensures { result ≡ is_none (base_of member.now.kind) }
{
    base_of(&member.kind()).is_none()
}

// Whether the link is up without being lifted, and may lift others.
fn starts(member: &Member) -> bool
    ensures { result ≡ starts member.now }
{
    is_stated_up(member.wish()) || (member.is_unstated() && member.was_up() && lacks_base(member))
}

// A VLAN's base, another link's ports by its stated list.
fn held_names(alloc: Global, member: &Member) -> Result<Vec<Name>, AllocError>
    ensures { IfOk result (λ names. names.items ≡ held_names member.now) }
{
    match base_of(&member.kind()) {
        Some(base) => one_name(alloc, base),
        None => stated_ports(alloc, member),
    }
}

fn one_name(alloc: Global, name: Name) -> Result<Vec<Name>, AllocError>
    ensures { IfOk result (λ names. names.items ≡ name ∷ []) }
{
    let mut names = Vec::new(alloc);
    names.push(name)?;
    Ok(names)
}

fn is_unstated_at(members: &[Member], at: usize) -> bool
    ensures { result ≡ option_map_or is_unstated (slice_get members.now at) false }
{
    match members.get(at) {
        Some(member) => member.is_unstated(),
        None => false,
    }
}

fn if_unstated(members: &[Member], at: usize) -> Option<usize>
    ensures { result ≡ if_unstated members.now at }
{
    if is_unstated_at(members, at) {
        Some(at)
    } else {
        None
    }
}

// The place of the link of this name, where nothing is stated of its state.
fn unstated_place(members: &[Member], index: &Index, name: &Name) -> Option<usize>
    requires { index.now ≡ map (λ (m : Member). m.name) members.now }
    ensures { result ≡ unstated_place members.now name.now }
{
    match index.place(name) {
        Some(at) => if_unstated(members, at),
        None => None,
    }
}

fn add(places: &mut Vec<usize>, place: Option<usize>) -> Result<(), AllocError>
    ensures { OnOk result (places.new.items ≡ places.old.items ++ option_to_list place) }
{
    match place {
        Some(at) => {
            places.push(at)?;
            Ok(())
        }
        None => Ok(()),
    }
}

fn unstated_places(
    alloc: Global,
    members: &[Member],
    index: &Index,
    names: &[Name],
) -> Result<Vec<usize>, AllocError>
    requires { index.now ≡ map (λ (m : Member). m.name) members.now }
    ensures { IfOk result (λ places. places.items ≡ unstated_places members.now names.now) }
{
    let mut places = Vec::new(alloc);
    for name in names {
        let place = unstated_place(members, index, name);
        add(&mut places, place)?;
    }
    Ok(places)
}

// The places of the links that this one, where it is up, raises: its base or the ports of its stated list, where nothing
// is stated of the state of these.
fn raises(
    alloc: Global,
    members: &[Member],
    index: &Index,
    member: &Member,
) -> Result<Vec<usize>, AllocError>
    requires { index.now ≡ map (λ (m : Member). m.name) members.now }
    ensures { IfOk result (λ places. places.items ≡ unstated_places members.now (held_names member.now)) }
{
    let names = held_names(alloc, member)?;
    unstated_places(alloc, members, index, &names)
}

// For each link, the places of those that it raises.
fn arrows(alloc: Global, members: &[Member]) -> Result<Vec<Items<usize>>, AllocError>
    ensures { IfOk result (λ arrows. arrows.items ≡ map (λ m. unstated_places members.now (held_names m)) members.now) }
{
    let index = Index::of(alloc, names(alloc, members)?)?;
    let mut arrows = Vec::new(alloc);
    for member in members {
        let places = raises(alloc, members, &index, member)?;
        arrows.push(Items::of(places))?;
    }
    Ok(arrows)
}

fn starting(alloc: Global, members: &[Member]) -> Result<Vec<bool>, AllocError>
    ensures { IfOk result (λ marks. marks.items ≡ map starts members.now) }
{
    members.iter().map(|member| starts(member)).collect(alloc)
}

// Whether each link is lifted.
fn lifted(alloc: Global, members: &[Member]) -> Result<Vec<bool>, AllocError>
    requires { apart same_bytes (map (λ (m : Member). m.name) members.now) ≡ true }
    ensures { IfOk result (λ marks. marks.items ≡ map (is_lifted members.now) members.now) }
{
    let arrows = arrows(alloc, members)?;
    let starts = starting(alloc, members)?;
    let marks = closure(alloc, &arrows, &starts)?;
    Ok(marks)
}

/// The links, whose names differ, with whether they are lifted. The error is that memory is out.
pub fn with_lifted<'a>(alloc: Global, members: &[Member<'a>]) -> Result<Vec<Member<'a>>, AllocError>
    requires { apart same_bytes (map (λ (m : Member). m.name) members.now) ≡ true }
    ensures { IfOk result (λ raised. raised.items ≡ with_lifted members.now) }
{
    let marks = lifted(alloc, members)?;
    let mut raised = Vec::new(alloc);
    for at in 0..members.len() {
        raised.push(members[at].raised(marks[at]))?;
    }
    Ok(raised)
}
