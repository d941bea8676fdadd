//! The fields that links have from their bases: each link is looked at once, its base before it.
ghost use Rattle.std.specs.Prelude.{◌≡◌, ◌<◌, ◌+◌, None, Some, IfSome, IfOk, OnOk, length, slice_index_or};
ghost use Rattle.merge_model.specs.Merged.{base_member};
ghost use Rattle.link_fields.specs.Bases.{Holds, Knows, AreInside, IsBaseAt, SuitsWithin, Gives};

use crate::fields::{mac_over, mtu_over, up_over};
use link_members::Members;
use link_order::{Member, base_of};
use net_model::Mac;
use std::alloc::{AllocError, Global};

/// The fields of a merged link that follow from its base.
#[derive(Clone, Copy)]
pub(crate) struct Fields {
    /// Whether the link is up.
    pub up: bool,
    /// The MTU in bytes.
    pub mtu: u32,
    /// The MAC address.
    pub mac: Mac,
    /// Where the chain of bases ends: how many it has.
    pub bases: usize,
}

// The place of its base, where the link has one.
fn base_place(members: &Members, member: &Member) -> Option<usize>
    ensures { IsBaseAt result member.now members.now }
{
    match base_of(&member.kind()) {
        Some(base) => members.place(&base),
        None => None,
    }
}

fn without_base(members: &Members, member: &Member) -> Fields
    requires { base_member members.now member.now ≡ None }
    ensures { Holds members.now member.now result }
{
    let _ = members;
    Fields {
        up: up_over(member, None),
        mtu: mtu_over(member, None),
        mac: mac_over(member, None),
        bases: 0,
    }
}

// The fields over those of the base. A chain of bases that ends is no longer than the list.
fn over_base(members: &Members, member: &Member, base: &Member, below: Fields) -> Option<Fields>
    requires base { base_member members.now member.now ≡ Some base.now }
    requires below { Holds members.now base.now below }
    ensures { IfSome result (λ fields. Holds members.now member.now fields) }
{
    let _ = base;
    if below.bases >= members.list().len() {
        return None;
    }
    Some(Fields {
        up: up_over(member, Some(below.up)),
        mtu: mtu_over(member, Some(below.mtu)),
        mac: mac_over(member, Some(below.mac)),
        bases: below.bases + 1,
    })
}

// The fields of the link at a place, where those of its base are known.
fn found(members: &Members, known: &[Option<Fields>], at: usize) -> Option<Fields>
    requires known { Knows members.now known.now }
    requires inside { at < length members.now }
    ensures { IfSome result (λ fields. (d : _) → Holds members.now (slice_index_or members.now at d) fields) }
{
    let list = members.list();
    let member = &list[at];
    let Some(base) = base_place(members, member) else {
        return Some(without_base(members, member));
    };
    let Some(below) = known[base] else {
        return None;
    };
    over_base(members, member, &list[base], below)
}

// The places down the chain of bases, from a link on to the last of which nothing is known, at most as many as there are
// links.
fn unknown_below(
    alloc: Global,
    members: &Members,
    known: &[Option<Fields>],
    start: usize,
) -> Result<Vec<usize>, AllocError>
    requires whole { length known.now ≡ length members.now }
    requires inside { start < length members.now }
    ensures { IfOk result (λ places. AreInside members.now places.items) }
{
    let list = members.list();
    let mut places = Vec::new(alloc);
    let mut at = start;
    for _ in 0..list.len() {
        if known[at].is_some() {
            return Ok(places);
        }
        places.push(at)?;
        let Some(base) = base_place(members, &list[at]) else {
            return Ok(places);
        };
        at = base;
    }
    Ok(places)
}

// Notes the fields of the links at these places, from the last to the first.
fn note_all(members: &Members, known: &mut [Option<Fields>], places: &[usize])
    requires known { Knows members.now known.old }
    requires inside { AreInside members.now places.now }
    ensures { Knows members.now known.new }
{
    let mut left = places.len();
    while left > 0 {
        left -= 1;
        let at = places[left];
        known[at] = found(members, known, at);
    }
}

// Notes the fields of the link at a place, and before them those of the links below it of which nothing is known.
fn settle(
    alloc: Global,
    members: &Members,
    known: &mut [Option<Fields>],
    at: usize,
) -> Result<(), AllocError>
    requires known { Knows members.now known.old }
    requires inside { at < length members.now }
    ensures { OnOk result (Knows members.now known.new) }
{
    let places = unknown_below(alloc, members, known, at)?;
    note_all(members, known, &places);
    Ok(())
}

// The fields of each link whose chain of bases ends.
fn settled(alloc: Global, members: &Members) -> Result<Vec<Option<Fields>>, AllocError>
    ensures { IfOk result (λ known. Knows members.now known.items) }
{
    let len = members.list().len();
    let mut known = vec![in alloc; None; len]?;
    for at in 0..len {
        settle(alloc, members, &mut known, at)?;
    }
    Ok(known)
}

// The fields of all links, unless those of one aren't known.
fn all_known(
    alloc: Global,
    members: &Members,
    known: &[Option<Fields>],
) -> Result<Option<Vec<Fields>>, AllocError>
    requires { Knows members.now known.now }
    ensures { IfOk result (λ found. IfSome found (λ all. Gives members.now (length members.now) (length members.now) all.items)) }
{
    let _ = members;
    let mut all = Vec::new(alloc);
    for at in 0..known.len() {
        let Some(fields) = known[at] else {
            return Ok(None);
        };
        all.push(fields)?;
    }
    Ok(Some(all))
}

// The fields of a link of which no base is looked at.
fn shallow(members: &Members, member: &Member) -> Fields
    ensures { SuitsWithin members.now 0 member.now result }
{
    let _ = members;
    Fields {
        up: up_over(member, None),
        mtu: mtu_over(member, None),
        mac: mac_over(member, None),
        bases: 0,
    }
}

fn all_shallow(alloc: Global, members: &Members) -> Result<Vec<Fields>, AllocError>
    ensures { IfOk result (λ all. Gives members.now 0 (length members.now) all.items) }
{
    let list = members.list();
    let mut all = Vec::new(alloc);
    for at in 0..list.len() {
        all.push(shallow(members, &list[at]))?;
    }
    Ok(all)
}

fn fields_at(all: &[Fields], at: usize) -> Fields
    requires { at < length all.now }
    ensures { result ≡ slice_index_or all.now at result }
{
    all[at]
}

// The fields of a link, looking one base further than those of all links do.
fn deeper(members: &Members, below: &[Fields], steps: usize, member: &Member) -> Fields
    requires { Gives members.now steps (length members.now) below.now }
    ensures { SuitsWithin members.now (steps + 1) member.now result }
{
    let _ = steps;
    let Some(base) = base_place(members, member) else {
        return shallow(members, member);
    };
    let fields = fields_at(below, base);
    Fields {
        up: up_over(member, Some(fields.up)),
        mtu: mtu_over(member, Some(fields.mtu)),
        mac: mac_over(member, Some(fields.mac)),
        bases: 0,
    }
}

fn all_deeper(
    alloc: Global,
    members: &Members,
    below: &[Fields],
    steps: usize,
) -> Result<Vec<Fields>, AllocError>
    requires { Gives members.now steps (length members.now) below.now }
    ensures { IfOk result (λ all. Gives members.now (steps + 1) (length members.now) all.items) }
{
    let list = members.list();
    let mut all = Vec::new(alloc);
    for at in 0..list.len() {
        all.push(deeper(members, below, steps, &list[at]))?;
    }
    Ok(all)
}

// The fields where a chain of bases doesn't end: followed as far as there are links, of all of them one base at a time.
fn followed(alloc: Global, members: &Members) -> Result<Vec<Fields>, AllocError>
    ensures { IfOk result (λ all. Gives members.now (length members.now) (length members.now) all.items) }
{
    let mut all = all_shallow(alloc, members)?;
    for steps in 0..members.list().len() {
        all = all_deeper(alloc, members, &all, steps)?;
    }
    Ok(all)
}

/// The fields of all links that follow from their bases. Where a chain of bases doesn't end it takes time as the square of
/// the links, so callers refuse cycles first. The error is that memory is out.
pub(crate) fn all_fields(alloc: Global, members: &Members) -> Result<Vec<Fields>, AllocError>
    ensures { IfOk result (λ all. Gives members.now (length members.now) (length members.now) all.items) }
{
    let known = settled(alloc, members)?;
    match all_known(alloc, members, &known)? {
        Some(all) => Ok(all),
        None => followed(alloc, members),
    }
}
