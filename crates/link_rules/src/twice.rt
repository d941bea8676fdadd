//! The rule 17 of the merge: a link has one address twice, whatever the lengths.
ghost use Rattle.std.specs.Prelude.{◌≡◌, not, IfOk, OnOk, IsPermutation, IsSorted};
ghost use Rattle.net_model.specs.Words.{is_before_head, steps_up};
ghost use Rattle.net_model.specs.Valid.{addresses_differ};
ghost use Rattle.merge_model.specs.BrokenLinks.{address_twice};
ghost use Rattle.link_rules.specs.Rules.{by_address};

use document_model::Place;
use net_model::{Link, Prefix};
use std::alloc::{AllocError, Global};

fn sort_by_address(addrs: &mut Vec<Prefix>) -> Result<(), AllocError>
    ensures sorted { OnOk result (IsSorted by_address addrs.new.items) }
    ensures moved { IsPermutation addrs.old.items addrs.new.items }
{
    addrs.sort_by_key(|prefix| prefix.addr())
}

fn is_before_head(prefix: &Prefix, rest: &[Prefix]) -> bool
    ensures { result ≡ is_before_head by_address prefix.now rest.now }
{
    match rest.first() {
        Some(next) => prefix.addr() < next.addr(),
        None => true,
    }
}

fn step_up(addrs: &[Prefix]) -> bool
    ensures { result ≡ steps_up by_address addrs.now }
{
    let mut left = addrs;
    while let Some((prefix, rest)) = left.split_first() {
        if !is_before_head(prefix, rest) {
            return false;
        }
        left = rest;
    }
    true
}

fn copied(alloc: Global, addrs: &[Prefix]) -> Result<Vec<Prefix>, AllocError>
    ensures { IfOk result (λ copy. copy.items ≡ addrs.now) }
{
    addrs.iter().copied().collect(alloc)
}

fn addresses_differ(alloc: Global, addrs: &[Prefix]) -> Result<bool, AllocError>
    ensures { IfOk result (λ differ. differ ≡ addresses_differ addrs.now) }
{
    let mut sorted = copied(alloc, addrs)?;
    sort_by_address(&mut sorted)?;
    Ok(step_up(&sorted))
}

/// The place of rule 17.
pub(crate) fn address_twice(alloc: Global, links: &[Link]) -> Result<Option<Place>, AllocError>
    ensures { IfOk result (λ place. place ≡ address_twice links.now) }
{
    for at in 0..links.len() {
        if !addresses_differ(alloc, links[at].addrs.items())? {
            return Ok(Some(Place::Link(links[at].name)));
        }
    }
    Ok(None)
}
