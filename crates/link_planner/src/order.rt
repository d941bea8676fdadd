//! Orders of names.
ghost use Rattle.std.specs.Prelude.{◌≡◌, ◌≤◌, ◌<◌, ℕ, List, length, map, slice_index_or, IfOk, OnOk, IsPermutation};
ghost use Rattle.std.specs.List.Sorted.{IsNonDecreasingBy};
ghost use Rattle.net_model.specs.declared.Link.{Link};
ghost use Rattle.link_planner.specs.Depths.{IsBasePlace, IsDepthAt, AreDepths, by_base, by_top, IsBaseFirst, NamesAll, AreOrders};

use net_core::Net;
use net_model::{Kind, Link, Name, OutOfMemory, Position};
use std::alloc::{AllocError, Global};

// The place of the base of a VLAN.
fn base_place(net: &Net, kind: &Kind) -> Option<usize>
    ensures { IsBasePlace net.now.links kind.now result }
{
    match kind {
        Kind::Vlan { base, .. } => match net.link_position(base) {
            Position::At(at) => Some(at),
            Position::Gap(_) => None,
        },
        _ => None,
    }
}

// The place of the base of the link at a place.
fn base_at(net: &Net, at: usize) -> Option<usize>
    requires { at < length net.now.links }
    ensures { (d : Link) → IsBasePlace net.now.links (slice_index_or net.now.links at d).kind result }
{
    let kind = net.links()[at].kind;
    base_place(net, &kind)
}

// The depth of the link at a place: the steps down to a link whose depth is known, and that depth.
fn depth_at(net: &Net, known: &[Option<usize>], start: usize) -> usize
    requires known { AreDepths net.now.links known.now }
    requires inside { start < length net.now.links }
    ensures depth { IsDepthAt net.now.links start result }
    ensures most { result ≤ length net.now.links }
{
    net.laws();
    let count = net.links().len();
    let mut at = start;
    for steps in 0..count {
        if let Some(depth) = known[at] {
            return steps + depth;
        }
        let Some(base) = base_at(net, at) else {
            return steps;
        };
        at = base;
    }
    count
}

// Notes the depth of the link at a place, and of those below it down to one whose depth is known.
fn note(net: &Net, known: &mut [Option<usize>], start: usize, depth: usize)
    requires known { AreDepths net.now.links known.old }
    requires inside { start < length net.now.links }
    requires depth { IsDepthAt net.now.links start depth }
    ensures { AreDepths net.now.links known.new }
{
    net.laws();
    let mut at = start;
    let mut left = depth;
    while known[at].is_none() {
        known[at] = Some(left);
        let Some(base) = base_at(net, at) else {
            return;
        };
        at = base;
        left -= 1;
    }
}

// The depths of the links, by place. Each is noted once, so this is linear in the links but for finding the bases.
fn known_depths(alloc: Global, net: &Net) -> Result<Vec<Option<usize>>, AllocError>
    ensures { IfOk result (λ known. AreDepths net.now.links known.items) }
{
    let count = net.links().len();
    let mut known = vec![in alloc; None; count]?;
    for at in 0..count {
        let depth = depth_at(net, &known, at);
        note(net, &mut known, at, depth);
    }
    Ok(known)
}

fn by_base(net: &Net, known: &[Option<usize>], at: usize) -> (usize, Name)
    requires known { AreDepths net.now.links known.now }
    requires inside { at < length net.now.links }
    ensures { (d : Link) → result ≡ by_base net.now.links (slice_index_or net.now.links at d) }
{
    (depth_at(net, known, at), net.links()[at].name)
}

fn by_top(net: &Net, known: &[Option<usize>], at: usize) -> (usize, Name)
    requires known { AreDepths net.now.links known.now }
    requires inside { at < length net.now.links }
    ensures { (d : Link) → result ≡ by_top net.now.links (slice_index_or net.now.links at d) }
{
    let count = net.links().len();
    (count - depth_at(net, known, at), net.links()[at].name)
}

// The depths of the links, with their names.
fn depths(alloc: Global, net: &Net) -> Result<Vec<(usize, Name)>, AllocError>
    ensures { IfOk result (λ places. places.items ≡ map (by_base net.now.links) net.now.links) }
{
    let known = known_depths(alloc, net)?;
    let mut places = Vec::new(alloc);
    for at in 0..net.links().len() {
        places.push(by_base(net, &known, at))?;
    }
    Ok(places)
}

// How far each link is from the greatest depth that there can be, with its name.
fn heights(alloc: Global, net: &Net) -> Result<Vec<(usize, Name)>, AllocError>
    ensures { IfOk result (λ places. places.items ≡ map (by_top net.now.links) net.now.links) }
{
    let known = known_depths(alloc, net)?;
    let mut places = Vec::new(alloc);
    for at in 0..net.links().len() {
        places.push(by_top(net, &known, at))?;
    }
    Ok(places)
}

// Sorts by the numbers. Where these are equal the order stays.
fn sort_places(places: &mut Vec<(usize, Name)>) -> Result<(), AllocError>
    ensures sorted { OnOk result (IsNonDecreasingBy (λ (p : ℕ × List ℕ). p.0) places.new.items) }
    ensures moved { IsPermutation places.old.items places.new.items }
{
    places.sort_by_key(|place| place.0)
}

fn names_of(alloc: Global, places: &[(usize, Name)]) -> Result<Vec<Name>, AllocError>
    ensures { IfOk result (λ names. names.items ≡ map (λ (p : ℕ × List ℕ). p.1) places.now) }
{
    places.iter().map(|place| place.1).collect(alloc)
}

// The names of the links, by depth and then by name, so that each base comes before what stands on it.
fn by_depth(alloc: Global, net: &Net) -> Result<Vec<Name>, OutOfMemory>
    ensures order { IfOk result (λ names. IsBaseFirst net.now.links names.items) }
    ensures all { IfOk result (λ names. NamesAll net.now.links names.items) }
    ensures count { IfOk result (λ names. length names.items ≡ length net.now.links) }
{
    let mut places = depths(alloc, net)?;
    sort_places(&mut places)?;
    net.laws();
    let names = names_of(alloc, &places)?;
    Ok(names)
}

// The names of the links, the greatest depth first, and by name where depths are equal.
fn from_top(alloc: Global, net: &Net) -> Result<Vec<Name>, OutOfMemory>
    ensures all { IfOk result (λ names. NamesAll net.now.links names.items) }
    ensures count { IfOk result (λ names. length names.items ≡ length net.now.links) }
{
    let mut places = heights(alloc, net)?;
    sort_places(&mut places)?;
    let names = names_of(alloc, &places)?;
    Ok(names)
}

fn names(alloc: Global, links: &[Link]) -> Result<Vec<Name>, AllocError>
    ensures { IfOk result (λ names. names.items ≡ map (λ l. l.name) links.now) }
{
    links.iter().map(|link| link.name).collect(alloc)
}

// The names of the links, in their order.
fn by_name(alloc: Global, net: &Net) -> Result<Vec<Name>, OutOfMemory>
    ensures all { IfOk result (λ names. NamesAll net.now.links names.items) }
    ensures count { IfOk result (λ names. length names.items ≡ length net.now.links) }
{
    let names = names(alloc, net.links())?;
    Ok(names)
}

/// The names of the links of a network, each once.
pub struct Orders {
    /// In their order.
    pub names: Vec<Name>,
    /// By depth and then by name, so that each base comes before what stands on it.
    pub upward: Vec<Name>,
    /// The greatest depth first, and by name where depths are equal.
    pub downward: Vec<Name>,
}

// By hand, so that a proof sees one call where one is dropped, and not a step for each part.
impl Drop for Orders {
    fn drop(self) {
        let Orders {
            names: _,
            upward: _,
            downward: _,
        } = self;
    }
}

/// The orders in which phases go over the links.
pub fn orders_of(alloc: Global, net: &Net) -> Result<Orders, OutOfMemory>
    ensures { IfOk result (λ orders. AreOrders net.now.links orders.names.items orders.upward.items orders.downward.items) }
{
    Ok(Orders {
        names: by_name(alloc, net)?,
        upward: by_depth(alloc, net)?,
        downward: from_top(alloc, net)?,
    })
}
