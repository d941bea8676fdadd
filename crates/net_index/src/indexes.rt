//! The indexes of a network: what edits add to them and take out.
ghost use Rattle.std.specs.Prelude.{◌≡◌, ◌&&◌, ◌++◌, ◌∷◌, ℕ, List, [], true, false, filter, not, IfOk, OnOk, OnErr};
ghost use Rattle.std.specs.List.{list_any};
ghost use Rattle.std.specs.Option.{option_map_or};
ghost use Rattle.std.specs.Ordering.{is_eq};
ghost use Rattle.net_model.specs.Name.{same_bytes};
ghost use Rattle.net_model.specs.Words.{rises, is_among};
ghost use Rattle.net_model.specs.Order.{name_cmp, link_cmp};
ghost use Rattle.net_model.specs.Links.{find_link, is_port_of, ports_of};
ghost use Rattle.net_model.specs.Dependence.{has_base};
ghost use Rattle.net_model.specs.KeyOrder.{key_cmp, is_other};
ghost use Rattle.net_model.specs.Listed.{ChangesAt, Same, Puts, LeavesOut};
ghost use Rattle.net_index.specs.InIndex.{listed};
ghost use Rattle.net_model.specs.OfName.{over, key_of};
ghost use Rattle.net_index.specs.Indexed.{AreIndexes};
ghost use Rattle.net_model.specs.Twins.{has_key, HasVlans, Loses};
ghost use Rattle.net_model.specs.declared.link.Link.{Link};

use crate::build::{add_bases, add_keys, add_ports};
use crate::index::Index;
use base_model::OutOfMemory;
use net_lists::{add_vlan_keys, is_first_vlan, leave_out_seen, link_position};
use net_model::{Kind, Link, Name, Position, Route, RouteKey, VlanId};
use std::alloc::Global;
use std::collections::BTreeSet;

/// The VLANs over each base, the ports of each controller and the routes of each device, and the keys of the VLANs.
pub struct Indexes {
    pub over: Index<Name>,
    pub ports: Index<Name>,
    pub routes: Index<RouteKey>,
    pub vlans: BTreeSet<(Name, VlanId, bool)>,
}

// By hand, so that a proof sees one call where one is dropped, and not a step for each part.
impl Drop for Indexes {
    fn drop(self) {
        let Indexes {
            over: _,
            ports: _,
            routes: _,
            vlans: _,
        } = self;
    }
}

impl Indexes {
    /// The indexes of a network without links. It takes no memory.
    pub fn new(alloc: Global) -> Indexes
        ensures { AreIndexes [] [] result }
    {
        Indexes {
            over: Index::new(alloc),
            ports: Index::new(alloc),
            routes: Index::new(alloc),
            vlans: BTreeSet::new(alloc),
        }
    }

    /// The indexes of these lists.
    pub fn of(alloc: Global, links: &[Link], routes: &[Route]) -> Result<Indexes, OutOfMemory>
        ensures { IfOk result (AreIndexes links.now routes.now) }
    {
        let mut indexes = Indexes::new(alloc);
        indexes.fill(links, routes)?;
        Ok(indexes)
    }

    // Fills the indexes of a network without links with these lists.
    fn fill(&mut self, links: &[Link], routes: &[Route]) -> Result<(), OutOfMemory>
        requires { AreIndexes [] [] self.old }
        ensures { OnOk result (AreIndexes links.now routes.now self.new) }
    {
        add_bases(&mut self.over, links)?;
        add_ports(&mut self.ports, links)?;
        add_keys(&mut self.routes, routes)?;
        add_vlan_keys(&mut self.vlans, links)?;
        Ok(())
    }
}

/// Puts a name into the list of another.
pub fn put_name(index: &mut Index<Name>, of: &Name, name: &Name) -> Result<(), OutOfMemory>
    requires in_order { rises name_cmp (listed index.old of.now) ≡ true }
    requires new { list_any (λ n. is_eq (name_cmp n name.now)) (listed index.old of.now) ≡ false }
    ensures ok { OnOk result (Puts name_cmp name.now (same_bytes of.now) (listed index.old) (listed index.new)) }
    ensures err { OnErr result (Same (listed index.old) (listed index.new)) }
{
    index.put(of, *name)
}

// Puts a link's name into its base's list.
fn put_vlan(index: &mut Index<Name>, link: &Link) -> Result<(), OutOfMemory>
    requires in_order { (k : List ℕ) → rises name_cmp (listed index.old k) ≡ true }
    requires new { (k : List ℕ) → list_any (λ n. is_eq (name_cmp n link.now.name)) (listed index.old k) ≡ false }
    ensures ok { OnOk result (Puts name_cmp link.now.name (has_base link.now.kind) (listed index.old) (listed index.new)) }
    ensures err { OnErr result (Same (listed index.old) (listed index.new)) }
{
    match &link.kind {
        Kind::Vlan { base, .. } => put_name(index, base, &link.name),
        _ => Ok(()),
    }
}

// Takes a link's key out of the set again, if it is a VLAN whose key was new there.
fn take_back(seen: &mut BTreeSet<(Name, VlanId, bool)>, link: &Link, first: bool)
    ensures { Loses (λ key. first && has_key key link.now.kind) seen.old seen.new }
{
    if first {
        leave_out_seen(seen, link);
    }
}

/// Puts a link's key into the set and its name into its base's list, if it is a VLAN. After out of memory both are as they
/// were.
pub fn add_vlan(
    index: &mut Index<Name>,
    seen: &mut BTreeSet<(Name, VlanId, bool)>,
    link: &Link,
) -> Result<(), OutOfMemory>
    requires in_order { (k : List ℕ) → rises name_cmp (listed index.old k) ≡ true }
    requires new { (k : List ℕ) → list_any (λ n. is_eq (name_cmp n link.now.name)) (listed index.old k) ≡ false }
    ensures ok { OnOk result (Puts name_cmp link.now.name (has_base link.now.kind) (listed index.old) (listed index.new)) }
    ensures err { OnErr result (Same (listed index.old) (listed index.new)) }
    ensures seen { OnOk result ((links : List Link) → HasVlans seen.old links → HasVlans seen.new (links ++ link.now ∷ [])) }
    ensures unseen { OnErr result ((links : List Link) → HasVlans seen.old links → HasVlans seen.new links) }
{
    let first = is_first_vlan(seen, link)?;
    match put_vlan(index, link) {
        Ok(()) => Ok(()),
        Err(OutOfMemory) => {
            take_back(seen, link, first);
            Err(OutOfMemory)
        }
    }
}

/// Puts a route's key into its device's list.
pub fn put_key(index: &mut Index<RouteKey>, route: &Route) -> Result<(), OutOfMemory>
    requires in_order { rises key_cmp (listed index.old route.now.dev) ≡ true }
    requires new { list_any (λ k. is_eq (key_cmp k (key_of route.now))) (listed index.old route.now.dev) ≡ false }
    ensures ok { OnOk result (Puts key_cmp (key_of route.now) (same_bytes route.now.dev) (listed index.old) (listed index.new)) }
    ensures err { OnErr result (Same (listed index.old) (listed index.new)) }
{
    index.put(&route.dev, RouteKey::of(route))
}

// Takes a name out of the list of another.
fn leave_out_name(index: &mut Index<Name>, of: &Name, name: &Name)
    requires { rises name_cmp (listed index.old of.now) ≡ true }
    ensures { ChangesAt of.now (filter (λ n. not (same_bytes n name.now)) (listed index.old of.now)) (listed index.old) (listed index.new) }
{
    index.leave_out(of, name);
}

// Takes a link's name out of its base's list, the only one that may have it.
fn leave_out_of_base(index: &mut Index<Name>, link: &Link)
    requires in_order { (k : List ℕ) → rises name_cmp (listed index.old k) ≡ true }
    requires alone { (k : List ℕ) → has_base link.now.kind k ≡ false → is_among (listed index.old k) link.now.name ≡ false }
    ensures { LeavesOut link.now.name (listed index.old) (listed index.new) }
{
    match &link.kind {
        Kind::Vlan { base, .. } => leave_out_name(index, base, &link.name),
        _ => {}
    }
}

// Takes the name out of the lists of bases, of which only those may have it that list it for these links.
fn leave_out_vlan(index: &mut Index<Name>, links: &[Link], name: &Name)
    requires in_order { rises link_cmp links.now ≡ true }
    requires lists { (k : List ℕ) → rises name_cmp (listed index.old k) ≡ true }
    requires within { (k : List ℕ) → is_among (over links.now k) name.now ≡ false → is_among (listed index.old k) name.now ≡ false }
    ensures { LeavesOut name.now (listed index.old) (listed index.new) }
{
    match link_position(links, name) {
        Position::At(i) => leave_out_of_base(index, &links[i]),
        Position::Gap(_) => {}
    }
}

/// Takes the names of links that go out of the lists of their bases.
pub fn leave_out_vlans(index: &mut Index<Name>, links: &[Link], goes: &[Name])
    requires in_order { rises link_cmp links.now ≡ true }
    requires lists { (k : List ℕ) → listed index.old k ≡ over links.now k }
    ensures { (k : List ℕ) → listed index.new k ≡ filter (λ n. not (is_among goes.now n)) (over links.now k) }
{
    for at in 0..goes.len() {
        leave_out_vlan(index, links, &goes[at]);
    }
}

// Takes the key of the named link out of the set, if it is a VLAN.
fn leave_out_key_at(seen: &mut BTreeSet<(Name, VlanId, bool)>, links: &[Link], name: &Name)
    requires { rises link_cmp links.now ≡ true }
    ensures { Loses (λ key. option_map_or (λ l. has_key key l.kind) (find_link name.now links.now) false) seen.old seen.new }
{
    match link_position(links, name) {
        Position::At(i) => leave_out_seen(seen, &links[i]),
        Position::Gap(_) => {}
    }
}

/// Takes the keys of the VLANs of these names out of the set.
pub fn leave_out_keys(seen: &mut BTreeSet<(Name, VlanId, bool)>, links: &[Link], goes: &[Name])
    requires { rises link_cmp links.now ≡ true }
    ensures { Loses (λ key. list_any (λ l. is_among goes.now l.name && has_key key l.kind) links.now) seen.old seen.new }
{
    for at in 0..goes.len() {
        leave_out_key_at(seen, links, &goes[at]);
    }
}

// Takes a link's name out of its controller's list, the only one that may have it.
fn leave_out_of_controller(index: &mut Index<Name>, link: &Link)
    requires in_order { (k : List ℕ) → rises name_cmp (listed index.old k) ≡ true }
    requires alone { (k : List ℕ) → is_port_of k link.now ≡ false → is_among (listed index.old k) link.now.name ≡ false }
    ensures { LeavesOut link.now.name (listed index.old) (listed index.new) }
{
    match &link.controller {
        Some(controller) => leave_out_name(index, controller, &link.name),
        None => {}
    }
}

/// Takes the name out of the lists of controllers, of which only those may have it that list it for these links.
pub fn leave_out_port(index: &mut Index<Name>, links: &[Link], name: &Name)
    requires in_order { rises link_cmp links.now ≡ true }
    requires lists { (k : List ℕ) → rises name_cmp (listed index.old k) ≡ true }
    requires within { (k : List ℕ) → is_among (ports_of links.now k) name.now ≡ false → is_among (listed index.old k) name.now ≡ false }
    ensures { LeavesOut name.now (listed index.old) (listed index.new) }
{
    match link_position(links, name) {
        Position::At(i) => leave_out_of_controller(index, &links[i]),
        Position::Gap(_) => {}
    }
}

/// Takes the names of links that go out of the lists of their controllers.
pub fn leave_out_ports(index: &mut Index<Name>, links: &[Link], goes: &[Name])
    requires in_order { rises link_cmp links.now ≡ true }
    requires lists { (k : List ℕ) → listed index.old k ≡ ports_of links.now k }
    ensures { (k : List ℕ) → listed index.new k ≡ filter (λ n. not (is_among goes.now n)) (ports_of links.now k) }
{
    for at in 0..goes.len() {
        leave_out_port(index, links, &goes[at]);
    }
}

/// Takes a route's key out of its device's list.
pub fn leave_out_key(index: &mut Index<RouteKey>, route: &Route)
    requires { rises key_cmp (listed index.old route.now.dev) ≡ true }
    ensures { ChangesAt route.now.dev (filter (is_other (key_of route.now)) (listed index.old route.now.dev)) (listed index.old) (listed index.new) }
{
    index.leave_out(&route.dev, &RouteKey::of(route));
}
