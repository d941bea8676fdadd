//! Links that are deleted together: each deletion is noted, and the links are taken out of the network at the end, or as
//! soon as one is next over which a VLAN stays.
ghost use Rattle.std.specs.Prelude.{◌≡◌, ◌||◌, true, false, ℕ, List, MatchOption, IfOk, OnOk};
ghost use Rattle.std.specs.List.{list_all};
ghost use Rattle.std.specs.Option.{option_map_or};
ghost use Rattle.std.specs.BTreeSet.{contains};
ghost use Rattle.net_model.specs.Name.{same_bytes};
ghost use Rattle.net_model.specs.Words.{rises};
ghost use Rattle.net_model.specs.Order.{name_cmp};
ghost use Rattle.net_model.specs.Links.{peer_of};
ghost use Rattle.link_planner.specs.Drafts.{Holds};
ghost use Rattle.link_planner.specs.Shrinking.{HasStayed};
ghost use Rattle.link_planner.specs.Phases.{HasRun, IsOrder, Stands, builds, rank};
ghost use Rattle.link_planner.specs.Deletions.{AreNone, GoesAs, HasServed, MayServe, Notes, are_bare, is_bare, is_noted, kind_at, noted};

use crate::draft::Draft;
use crate::phase::{Phase, serve};
use kernel_model::Steps;
use net_lists::{is_ethernet, peer_of};
use net_model::{Call, Kind, Name, OutOfMemory};
use plan_model::plan_laws;
use std::alloc::{AllocError, Global};
use std::collections::BTreeSet;

/// Deletions that are noted: the names of the links that go, which still stand in the network, and the calls that delete them.
pub(crate) struct Deletions {
    names: BTreeSet<Name>,
    calls: Vec<Call>,
}

// By hand, so that a proof sees one call where one is dropped, and not a step for each part.
impl Drop for Deletions {
    fn drop(self) {
        let Deletions { names: _, calls: _ } = self;
    }
}

// Puts a name into the set.
fn put(names: &mut BTreeSet<Name>, name: Name) -> Result<(), AllocError>
    ensures { OnOk result ((n : List ℕ) → contains name_cmp names.new n ≡ (contains name_cmp names.old n || same_bytes name n)) }
{
    names.insert(name)?;
    Ok(())
}

// Puts a name into the set, where there is one.
fn put_some(names: &mut BTreeSet<Name>, name: Option<Name>) -> Result<(), AllocError>
    ensures { OnOk result ((n : List ℕ) → contains name_cmp names.new n
        ≡ (contains name_cmp names.old n || option_map_or (λ p. same_bytes p n) name false)) }
{
    match name {
        Some(name) => put(names, name),
        None => Ok(()),
    }
}

// The names of a set, in their order.
fn in_order(alloc: Global, names: &BTreeSet<Name>) -> Result<Vec<Name>, AllocError>
    ensures all { IfOk result (λ list. list.items ≡ names.now.keys) }
    ensures rise { IfOk result (λ list. rises name_cmp list.items ≡ true) }
{
    names.iter().copied().collect(alloc)
}

impl Deletions {
    // No deletion.
    fn none(alloc: Global) -> Deletions
        ensures { AreNone result }
    {
        Deletions {
            names: BTreeSet::new(alloc),
            calls: Vec::new(alloc),
        }
    }

    // Whether the link of the name goes.
    fn has(&self, name: &Name) -> bool
        ensures { result ≡ is_noted self.now name.now }
    {
        self.names.contains(name)
    }

    // Whether the links of all these names go.
    fn has_all(&self, names: &[Name]) -> bool
        ensures { result ≡ list_all (is_noted self.now) names.now }
    {
        names.iter().all(|name| self.has(name))
    }

    // Notes that the link of the name is deleted, and goes with its peer.
    fn note(&mut self, name: &Name, peer: Option<Name>) -> Result<(), OutOfMemory>
        ensures { OnOk result (Notes name.now peer self.old self.new) }
    {
        put(&mut self.names, *name)?;
        put_some(&mut self.names, peer)?;
        self.calls.push(Call::DelLink { name: *name })?;
        Ok(())
    }
}

// The kind of the link of a name, unless it goes.
fn kind_left(draft: &Draft, deletions: &Deletions, name: &Name) -> Option<Kind>
    ensures { result ≡ kind_at (noted deletions.now draft.now).net.links name.now }
{
    if deletions.has(name) {
        return None;
    }
    match draft.net().link(name) {
        Some(link) => Some(link.kind),
        None => None,
    }
}

// The kind of the link of a name that is there, virtual and not kept.
fn kind_to_delete(draft: &Draft, deletions: &Deletions, name: &Name) -> Option<Kind>
    ensures { MatchOption result (HasStayed draft.now.start draft.now.target (noted deletions.now draft.now).net name.now)
        (GoesAs (noted deletions.now draft.now) name.now) }
{
    let Some(kind) = kind_left(draft, deletions, name) else {
        return None;
    };
    if is_ethernet(&kind) {
        return None;
    }
    if draft.keeps(name) {
        return None;
    }
    Some(kind)
}

// Whether each VLAN directly over the link goes.
fn is_bare(draft: &Draft, deletions: &Deletions, name: &Name) -> bool
    ensures { result ≡ is_bare deletions.now draft.now.net.links name.now }
{
    deletions.has_all(draft.net().over(name))
}

fn is_peer_bare(draft: &Draft, deletions: &Deletions, peer: Option<Name>) -> bool
    ensures { result ≡ option_map_or (is_bare deletions.now draft.now.net.links) peer true }
{
    match peer {
        Some(peer) => is_bare(draft, deletions, &peer),
        None => true,
    }
}

// Whether each VLAN directly over the link, which is of this kind, or its peer goes.
fn are_bare(draft: &Draft, deletions: &Deletions, name: &Name, kind: &Kind) -> bool
    ensures { result ≡ are_bare deletions.now draft.now.net.links name.now (peer_of kind.now) }
{
    is_bare(draft, deletions, name) && is_peer_bare(draft, deletions, peer_of(kind))
}

// Takes the links that go out of the network, and adds the calls that delete them.
fn settle(alloc: Global, draft: &mut Draft, deletions: &mut Deletions) -> Result<(), OutOfMemory>
    requires { Holds (noted deletions.old draft.old) }
    ensures settled { OnOk result (draft.new ≡ noted deletions.old draft.old) }
    ensures none { OnOk result (AreNone deletions.new) }
{
    let names = in_order(alloc, &deletions.names)?;
    deletions.names.clear();
    draft.take_out(&names, &mut deletions.calls)
}

// Deletes the link of a name, which is of this kind. Where a VLAN that stays stands over it or its peer, that one goes with
// it: then what is noted is settled, and the call is made at once.
fn delete<S: Steps>(
    alloc: Global,
    draft: &mut Draft,
    deletions: &mut Deletions,
    name: &Name,
    kind: &Kind,
) -> Result<(), OutOfMemory>
    requires may { MayServe (noted deletions.old draft.old) name.now }
    requires must { GoesAs (noted deletions.old draft.old) name.now kind.now }
    ensures { OnOk result (HasServed name.now (noted deletions.old draft.old) (noted deletions.new draft.new)) }
{
    plan_laws();
    if are_bare(draft, deletions, name, kind) {
        return deletions.note(name, peer_of(kind));
    }
    settle(alloc, draft, deletions)?;
    let served = serve::<S>(draft, Phase::DeleteLinks, name);
    draft.laws();
    served
}

// Deletes the link of a name, unless it may stay, or went with another.
fn delete_next<S: Steps>(
    alloc: Global,
    draft: &mut Draft,
    deletions: &mut Deletions,
    name: &Name,
) -> Result<(), OutOfMemory>
    requires { MayServe (noted deletions.old draft.old) name.now }
    ensures { OnOk result (HasServed name.now (noted deletions.old draft.old) (noted deletions.new draft.new)) }
{
    match kind_to_delete(draft, deletions, name) {
        Some(kind) => delete::<S>(alloc, draft, deletions, name, &kind),
        None => Ok(()),
    }
}

/// Carries out the phase in which links are deleted, for the names, one after the other. The calls are those of `run`, but
/// the links are taken out of the network together, so that none behind them has to move for each.
pub fn delete_links<S: Steps>(
    alloc: Global,
    draft: &mut Draft,
    names: &[Name],
) -> Result<(), OutOfMemory>
    requires stands { Stands (builds Phase.DeleteLinks) (rank Phase.DeleteLinks) draft.old }
    requires order { IsOrder Phase.DeleteLinks draft.old names.now }
    ensures { OnOk result (HasRun Phase.DeleteLinks names.now draft.old draft.new) }
{
    draft.laws();
    let mut deletions = Deletions::none(alloc);
    for name in names {
        delete_next::<S>(alloc, draft, &mut deletions, name)?;
    }
    settle(alloc, draft, &mut deletions)
}
