//! Links that are made together: each creation is noted, and the links are put into the network at the end.
ghost use Rattle.std.specs.Prelude.{◌≡◌, MatchOption, IfOk, OnOk, option_map};
ghost use Rattle.std.specs.BTreeMap.{get, insert_entry};
ghost use Rattle.net_model.specs.Order.{name_cmp};
ghost use Rattle.net_model.specs.Links.{find_link};
ghost use Rattle.link_planner.specs.Depths.{base_link};
ghost use Rattle.link_planner.specs.Drafts.{Holds};
ghost use Rattle.link_planner.specs.Growing.{IsMade};
ghost use Rattle.link_planner.specs.Phases.{HasRun, IsOrder, Stands, builds, rank};
ghost use Rattle.link_planner.specs.Creations.{AreNone, ComesAs, HasServed, MayServe, Notes, begins, first_of, made_link, made_links, mtu_and_mac, noted, own_first, own_mtu_and_mac, peer_put};

use crate::draft::Draft;
use crate::phase::Phase;
use net_model::{
    BondOpts, BridgeOpts, Call, DEFAULT_MTU, Items, Kind, Link, Mac, Name, OutOfMemory, PortOpts,
};
use plan_model::plan_laws;
use std::alloc::{AllocError, Global};
use std::collections::BTreeMap;

/// What a new link begins with. All else is as at every new link.
#[derive(Clone, Copy)]
pub(crate) struct NewLink {
    kind: Kind,
    mtu: u32,
    mac: Mac,
}

/// Creations that are noted: the links that come, by their names, which don't stand in the network yet, and the calls that
/// make them.
pub(crate) struct Creations {
    links: BTreeMap<Name, NewLink>,
    calls: Vec<Call>,
}

// By hand, so that a proof sees one call where one is dropped, and not a step for each part.
impl Drop for Creations {
    fn drop(self) {
        let Creations { links: _, calls: _ } = self;
    }
}

// Puts a link into the map.
fn put(
    links: &mut BTreeMap<Name, NewLink>,
    name: &Name,
    kind: &Kind,
    mtu: u32,
    mac: Mac,
) -> Result<(), AllocError>
    ensures { OnOk result (links.new.entries ≡ insert_entry name_cmp links.old.entries name.now (begins kind.now mtu mac)) }
{
    let first = NewLink {
        kind: *kind,
        mtu,
        mac,
    };
    links.insert(*name, first)?;
    Ok(())
}

// What a new link begins with that takes nothing over from a base.
fn own_first(name: &Name, kind: &Kind) -> NewLink
    ensures { result ≡ own_first name.now kind.now }
{
    NewLink {
        kind: *kind,
        mtu: DEFAULT_MTU,
        mac: Mac::of_virtual(name),
    }
}

// Puts a veth's peer into the map, with this link as its peer.
fn put_peer(links: &mut BTreeMap<Name, NewLink>, name: &Name, kind: &Kind) -> Result<(), AllocError>
    ensures { OnOk result (links.new.entries ≡ peer_put name.now kind.now links.old.entries) }
{
    match kind {
        Kind::Veth { peer } => put(
            links,
            peer,
            &Kind::Veth { peer: *name },
            DEFAULT_MTU,
            Mac::of_virtual(peer),
        ),
        _ => Ok(()),
    }
}

// The link that begins so.
fn made_link(alloc: Global, name: &Name, first: &NewLink) -> Link
    ensures { result ≡ made_link name.now first.now }
{
    Link {
        name: *name,
        kind: first.kind,
        up: false,
        mtu: first.mtu,
        mac: first.mac,
        controller: None,
        bond: BondOpts::defaults(),
        bridge: BridgeOpts::defaults(),
        port: PortOpts::defaults(),
        addrs: Items::of(Vec::new(alloc)),
    }
}

// The links of a map, in the order of their names.
fn made_links(alloc: Global, links: &BTreeMap<Name, NewLink>) -> Result<Vec<Link>, AllocError>
    ensures { IfOk result (λ list. list.items ≡ made_links links.now.entries) }
{
    let mut list = Vec::new(alloc);
    for pair in links.iter() {
        list.push(made_link(alloc, pair.0, pair.1))?;
    }
    Ok(list)
}

impl Creations {
    // No creation.
    fn none(alloc: Global) -> Creations
        ensures { AreNone result }
    {
        Creations {
            links: BTreeMap::new(alloc),
            calls: Vec::new(alloc),
        }
    }

    // The MTU and MAC of the link of the name that is noted.
    fn found(&self, name: &Name) -> Option<(u32, Mac)>
        ensures { result ≡ option_map own_mtu_and_mac (get name_cmp self.now.links name.now) }
    {
        match self.links.get(name) {
            Some(first) => Some((first.mtu, first.mac)),
            None => None,
        }
    }

    // Notes that the link of the name is made, a veth with its peer.
    fn note(&mut self, name: &Name, first: NewLink) -> Result<(), OutOfMemory>
        ensures { OnOk result (Notes name.now first self.old self.new) }
    {
        put(&mut self.links, name, &first.kind, first.mtu, first.mac)?;
        put_peer(&mut self.links, name, &first.kind)?;
        self.calls.push(Call::AddLink {
            name: *name,
            kind: first.kind,
        })?;
        Ok(())
    }
}

// The MTU and MAC of the link of a name, which is in the network or noted.
fn found(draft: &Draft, creations: &Creations, name: &Name) -> Option<(u32, Mac)>
    ensures { result ≡ option_map mtu_and_mac (find_link name.now (noted creations.now draft.now).net.links) }
{
    match draft.net().link(name) {
        Some(link) => Some((link.mtu, link.mac)),
        None => creations.found(name),
    }
}

// The MTU and MAC of the base of a VLAN.
fn base_found(draft: &Draft, creations: &Creations, kind: &Kind) -> Option<(u32, Mac)>
    ensures { result ≡ option_map mtu_and_mac (base_link (noted creations.now draft.now).net.links kind.now) }
{
    match kind {
        Kind::Vlan { base, .. } => found(draft, creations, base),
        _ => None,
    }
}

// What a new link begins with: a VLAN takes over its base's MTU and MAC.
fn first_of(draft: &Draft, creations: &Creations, name: &Name, kind: &Kind) -> NewLink
    ensures { result ≡ first_of (noted creations.now draft.now).net.links name.now kind.now }
{
    match base_found(draft, creations, kind) {
        Some((mtu, mac)) => NewLink {
            kind: *kind,
            mtu,
            mac,
        },
        None => own_first(name, kind),
    }
}

// The kind of the target's link of a name, which isn't there yet.
fn kind_to_create(draft: &Draft, creations: &Creations, name: &Name) -> Option<Kind>
    ensures { MatchOption result (IsMade draft.now.target (noted creations.now draft.now).net name.now)
        (ComesAs (noted creations.now draft.now) name.now) }
{
    let there = draft.target().link(name)?;
    match found(draft, creations, name) {
        Some(_) => None,
        None => Some(there.kind),
    }
}

// Puts the links that come into the network, and adds the calls that make them.
fn settle(alloc: Global, draft: &mut Draft, creations: &mut Creations) -> Result<(), OutOfMemory>
    requires { Holds (noted creations.old draft.old) }
    ensures { OnOk result (draft.new ≡ noted creations.old draft.old) }
{
    let mut links = made_links(alloc, &creations.links)?;
    draft.put_in(alloc, &mut links, &mut creations.calls)
}

// Notes that the link of a name is made, which is of this kind.
fn create(
    draft: &Draft,
    creations: &mut Creations,
    name: &Name,
    kind: &Kind,
) -> Result<(), OutOfMemory>
    requires may { MayServe (noted creations.old draft.now) name.now }
    requires comes { ComesAs (noted creations.old draft.now) name.now kind.now }
    ensures { OnOk result (HasServed name.now (noted creations.old draft.now) (noted creations.new draft.now)) }
{
    plan_laws();
    let first = first_of(draft, creations, name, kind);
    creations.note(name, first)
}

// Notes that the link of a name is made, where the target has it and it isn't there yet.
fn create_next(draft: &Draft, creations: &mut Creations, name: &Name) -> Result<(), OutOfMemory>
    requires { MayServe (noted creations.old draft.now) name.now }
    ensures { OnOk result (HasServed name.now (noted creations.old draft.now) (noted creations.new draft.now)) }
{
    match kind_to_create(draft, creations, name) {
        Some(kind) => create(draft, creations, name, &kind),
        None => Ok(()),
    }
}

/// Carries out the phase in which links are made, for the names, one after the other. The calls are those of `run`, but the
/// links are put into the network together, so that none behind them has to move for each.
pub fn create_links(alloc: Global, draft: &mut Draft, names: &[Name]) -> Result<(), OutOfMemory>
    requires stands { Stands (builds Phase.CreateLinks) (rank Phase.CreateLinks) draft.old }
    requires order { IsOrder Phase.CreateLinks draft.old names.now }
    ensures { OnOk result (HasRun Phase.CreateLinks names.now draft.old draft.new) }
{
    draft.laws();
    let mut creations = Creations::none(alloc);
    for name in names {
        create_next(draft, &mut creations, name)?;
    }
    settle(alloc, draft, &mut creations)
}
