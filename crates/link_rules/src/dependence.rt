//! The rule 11 of the merge: whether a link depends on itself, through any others.
ghost use Rattle.std.specs.Prelude.{◌≡◌, ◌<◌, ◌+◌, ℕ, Some, true, false, not, nat_le, nat_lt, if◌then◌else◌, IfOk, OnOk, length, map, filter, get_or, slice_index_or};
ghost use Rattle.std.specs.List.{list_all};
ghost use Rattle.std.specs.Option.{option_map, option_to_list};
ghost use Rattle.reach.specs.Positions.{positions};
ghost use Rattle.net_model.specs.Links.{is_named};
ghost use Rattle.net_model.specs.Dependence.{on_cycle, no_cycle};
ghost use Rattle.net_model.specs.Valid.{names_differ};
ghost use Rattle.net_model.specs.declared.Link.{Link};
ghost use Rattle.merge_model.specs.Places.{least_name};
ghost use Rattle.merge_model.specs.BrokenLinks.{cycle};
ghost use Rattle.link_order.specs.Rows.{rows_to};
ghost use Rattle.link_rules.specs.Rules.{least_of};
ghost use Rattle.link_rules.specs.Rows.{base_row, controls, row_below};
ghost use Rattle.link_rules.specs.Candidates.{each_arrow, IsOff, Excludes, IsLeast, IsLeastOf};

use crate::components::components;
use crate::merged::Merged;
use document_model::Place;
use link_order::{add_arrow, base_of, closure, has_cycle};
use net_model::{Items, Link, Name};
use std::alloc::{AllocError, Global};

// The place of its base, where the link is a VLAN.
fn base_place(merged: &Merged, link: &Link) -> Option<usize>
    ensures { option_to_list result ≡ base_row merged.now link.now }
{
    match base_of(&link.kind) {
        Some(base) => merged.place(&base),
        None => None,
    }
}

// The place of its controller, where the link has one.
fn controller_place(merged: &Merged, link: &Link) -> Option<usize>
    ensures { option_to_list result ≡ positions (λ l. controls l link.now) 0 merged.now }
{
    match &link.controller {
        Some(controller) => merged.place(controller),
        None => None,
    }
}

fn row_of(alloc: Global, place: Option<usize>) -> Result<Vec<usize>, AllocError>
    ensures { IfOk result (λ row. row.items ≡ option_to_list place) }
{
    let mut row = Vec::new(alloc);
    if let Some(at) = place {
        row.push(at)?;
    }
    Ok(row)
}

// For each link, the place of its base.
fn base_arrows(alloc: Global, merged: &Merged) -> Result<Vec<Items<usize>>, AllocError>
    ensures { IfOk result (λ arrows. arrows.items ≡ map (base_row merged.now) merged.now) }
{
    let mut arrows = Vec::new(alloc);
    for link in merged.links() {
        let row = row_of(alloc, base_place(merged, link))?;
        arrows.push(Items::of(row))?;
    }
    Ok(arrows)
}

// Draws the arrow to the link at a place from its controller.
fn draw_port(arrows: &mut [Items<usize>], merged: &Merged, at: usize) -> Result<(), AllocError>
    requires drawn { arrows.old ≡ rows_to (base_row merged.now) controls merged.now at }
    requires inside { at < length merged.now }
    ensures { OnOk result (arrows.new ≡ rows_to (base_row merged.now) controls merged.now (at + 1)) }
{
    match controller_place(merged, &merged.links()[at]) {
        Some(controller) => add_arrow(arrows, controller, at),
        None => Ok(()),
    }
}

// For each link, the places of those that it depends on: of its base, and behind it of its ports, each drawn from the
// controller that it names.
fn arrows(alloc: Global, merged: &Merged) -> Result<Vec<Items<usize>>, AllocError>
    ensures { IfOk result (λ arrows. arrows.items ≡ map (row_below merged.now) merged.now) }
{
    let mut arrows = base_arrows(alloc, merged)?;
    for at in 0..merged.links().len() {
        draw_port(&mut arrows, merged, at)?;
    }
    Ok(arrows)
}

fn marks(alloc: Global, links: &[Link], name: &Name) -> Result<Vec<bool>, AllocError>
    ensures { IfOk result (λ marks. marks.items ≡ map (is_named name.now) links.now) }
{
    links.iter().map(|link| link.name == *name).collect(alloc)
}

fn on_cycle(
    alloc: Global,
    links: &[Link],
    arrows: &[Items<usize>],
    at: usize,
) -> Result<bool, AllocError>
    requires arrows { arrows.now ≡ map (row_below links.now) links.now }
    requires inside { at < length links.now }
    ensures { IfOk result (λ on. (d : _) → on ≡ on_cycle links.now (slice_index_or links.now at d)) }
{
    let link = &links[at];
    let starts = marks(alloc, links, &link.name)?;
    let reached = closure(alloc, arrows, &starts)?;
    Ok(reached[at])
}

// The lesser of a name and of the least of those that follow.
fn lesser(name: Name, least: Option<Name>) -> Name
    ensures { result ≡ least_of name least }
{
    match least {
        Some(other) => { if other < name { other } else { name } }
        None => name,
    }
}

fn least_with(on: bool, name: Name, least: Option<Name>) -> Option<Name>
    ensures { result ≡ (if on then Some (least_of name least) else least) }
{
    if on { Some(lesser(name, least)) } else { least }
}

// The least name of a link that depends on itself, by asking each, where the one that was asked first isn't on a cycle.
fn least_of_all(
    alloc: Global,
    links: &[Link],
    arrows: &[Items<usize>],
) -> Result<Option<Name>, AllocError>
    requires { arrows.now ≡ map (row_below links.now) links.now }
    ensures { IfOk result (λ least. least ≡ option_map (λ l. l.name) (least_name (filter (on_cycle links.now) links.now))) }
{
    let mut least = None;
    let mut left = links.len();
    while left > 0 {
        left -= 1;
        let on = on_cycle(alloc, links, arrows, left)?;
        least = least_with(on, links[left].name, least);
    }
    Ok(least)
}

// Whether a link depends on itself, asked of all at once.
fn is_any_on_cycle(
    alloc: Global,
    links: &[Link],
    arrows: &[Items<usize>],
) -> Result<bool, AllocError>
    requires names { names_differ links.now ≡ true }
    requires arrows { arrows.now ≡ map (row_below links.now) links.now }
    ensures { IfOk result (λ cycle. not cycle ≡ no_cycle links.now) }
{
    let cycle = has_cycle(alloc, arrows)?;
    Ok(cycle)
}

fn number_at(numbers: &[usize], place: usize) -> usize
    ensures { result ≡ get_or numbers.now place 0 }
{
    match numbers.get(place) {
        Some(number) => *number,
        None => 0,
    }
}

fn all_at_most(row: &Items<usize>, numbers: &[usize], here: usize) -> bool
    ensures { result ≡ list_all (λ t. nat_le (get_or numbers.now t 0) here) row.now }
{
    row.items().iter().all(|to| number_at(numbers, *to) <= here)
}

fn all_below(row: &Items<usize>, numbers: &[usize], here: usize) -> bool
    ensures { result ≡ list_all (λ t. nat_lt (get_or numbers.now t 0) here) row.now }
{
    row.items().iter().all(|to| number_at(numbers, *to) < here)
}

// Whether no arrow of the place leads to a greater number.
fn stays(arrows: &[Items<usize>], numbers: &[usize], at: usize) -> bool
    requires { at < length arrows.now }
    ensures { result ≡ each_arrow nat_le arrows.now numbers.now at }
{
    let here = number_at(numbers, at);
    all_at_most(&arrows[at], numbers, here)
}

// Whether each arrow of the place leads to a lesser number.
fn falls(arrows: &[Items<usize>], numbers: &[usize], at: usize) -> bool
    requires { at < length arrows.now }
    ensures { result ≡ each_arrow nat_lt arrows.now numbers.now at }
{
    let here = number_at(numbers, at);
    all_below(&arrows[at], numbers, here)
}

// Whether the numbers rise along no arrow.
fn all_stay(arrows: &[Items<usize>], numbers: &[usize]) -> bool
    ensures { result ≡ true → (j : ℕ) → j < length arrows.now → each_arrow nat_le arrows.now numbers.now j ≡ true }
{
    for at in 0..arrows.len() {
        if !stays(arrows, numbers, at) {
            return false;
        }
    }
    true
}

// Whether a cycle may lead through the place, by these numbers.
fn may_be_on(arrows: &[Items<usize>], numbers: &[usize], good: bool, at: usize) -> bool
    requires inside { at < length arrows.now }
    requires good { good ≡ true → (j : ℕ) → j < length arrows.now → each_arrow nat_le arrows.now numbers.now j ≡ true }
    ensures { result ≡ false → IsOff arrows.now at }
{
    !good || !falls(arrows, numbers, at)
}

// Through which places a cycle may lead: all but those whose arrows all lead to other components. Of the numbers of these
// all that is used is checked here, so nothing need be known of the walk that finds them.
fn candidates(alloc: Global, arrows: &[Items<usize>]) -> Result<Vec<bool>, AllocError>
    ensures { IfOk result (λ may. Excludes arrows.now (length arrows.now) may.items) }
{
    let numbers = components(alloc, arrows)?;
    let good = all_stay(arrows, &numbers);
    let mut may = Vec::new(alloc);
    for at in 0..arrows.len() {
        may.push(may_be_on(arrows, &numbers, good, at))?;
    }
    Ok(may)
}

// The place of the lesser name.
fn lesser_of(links: &[Link], may: &[bool], before: usize, at: usize) -> Option<usize>
    requires inside { at < length links.now }
    requires least { IsLeast links.now may.now at before }
    ensures { IsLeastOf links.now may.now (at + 1) result }
{
    let _ = may;
    if links[at].name < links[before].name {
        return Some(at);
    }
    Some(before)
}

// The place of the lesser name: that of one more link, where it is marked, or the one so far.
fn lesser_place(links: &[Link], may: &[bool], least: Option<usize>, at: usize) -> Option<usize>
    requires whole { length may.now ≡ length links.now }
    requires inside { at < length links.now }
    requires least { IsLeastOf links.now may.now at least }
    ensures { IsLeastOf links.now may.now (at + 1) result }
{
    if !may[at] {
        return least;
    }
    match least {
        Some(before) => lesser_of(links, may, before, at),
        None => Some(at),
    }
}

// The place of the least name among those that are marked.
fn least_marked(links: &[Link], may: &[bool]) -> Option<usize>
    requires { length may.now ≡ length links.now }
    ensures { IsLeastOf links.now may.now (length links.now) result }
{
    let mut least = None;
    for at in 0..links.len() {
        least = lesser_place(links, may, least, at);
    }
    least
}

// The least name of a link that depends on itself. The one that is asked first is on a cycle: a component of several places
// leads round.
fn least_of_some(
    alloc: Global,
    links: &[Link],
    arrows: &[Items<usize>],
) -> Result<Option<Name>, AllocError>
    requires names { names_differ links.now ≡ true }
    requires arrows { arrows.now ≡ map (row_below links.now) links.now }
    ensures { IfOk result (λ least. least ≡ option_map (λ l. l.name) (least_name (filter (on_cycle links.now) links.now))) }
{
    let may = candidates(alloc, arrows)?;
    if let Some(at) = least_marked(links, &may) {
        if on_cycle(alloc, links, arrows, at)? {
            return Ok(Some(links[at].name));
        }
    }
    least_of_all(alloc, links, arrows)
}

// No link is asked of where none is on a cycle.
fn least_on_cycle(alloc: Global, merged: &Merged) -> Result<Option<Name>, AllocError>
    ensures { IfOk result (λ least. least ≡ option_map (λ l. l.name) (least_name (filter (on_cycle merged.now) merged.now))) }
{
    let arrows = arrows(alloc, merged)?;
    let links = merged.links();
    let cycle = is_any_on_cycle(alloc, links, &arrows)?;
    if cycle {
        least_of_some(alloc, links, &arrows)
    } else {
        Ok(None)
    }
}

fn at_name(name: Option<Name>) -> Option<Place>
    ensures { result ≡ option_map (λ n. Place.Link n) name }
{
    match name {
        Some(name) => Some(Place::Link(name)),
        None => None,
    }
}

/// The place of rule 11: dependence has a cycle. It is the least name on one.
#[tactic(auto, using(crate::proofs::Least::named))]
pub(crate) fn cycle(alloc: Global, merged: &Merged) -> Result<Option<Place>, AllocError>
    ensures { IfOk result (λ place. place ≡ cycle merged.now) }
{
    Ok(at_name(least_on_cycle(alloc, merged)?))
}
