//! An index: for each name a list, which is empty for most.
ghost use Rattle.std.specs.Prelude.{◌≡◌, ℕ, ◌≤◌, List, [], ◌∷◌, ◌++◌, length, insert, filter, not, true, false, OnOk, OnErr, if◌then◌else◌};
ghost use Rattle.std.specs.List.{list_any};
ghost use Rattle.std.specs.Ordering.{is_eq};
ghost use Rattle.net_model.specs.Name.{same_bytes};
ghost use Rattle.net_model.specs.Words.{rises, put, is_among};
ghost use Rattle.net_model.specs.Order.{link_cmp, route_cmp};
ghost use Rattle.indexmap.specs.IndexMap.{ContainsKey};
ghost use Rattle.net_model.specs.Listed.{ChangesAt, Same, Puts};
ghost use Rattle.net_index.specs.InIndex.{list_in, listed};
ghost use Rattle.net_model.specs.RoutePosition.{key_stays};

use base_model::OutOfMemory;
use indexmap::IndexMap;
use net_lists::key_stays;
use net_model::{Link, Name, Route, RouteKey};
use std::alloc::Global;

/// For each name a list. A name without a list and a name with an empty one are the same.
#[derive(Drop)]
pub struct Index<V> {
    lists: IndexMap<Name, Vec<V>>,
}

impl<V: Drop> Index<V> {
    /// An index of empty lists. It takes no memory.
    pub fn new(alloc: Global) -> Index<V>
        ensures { (k : List ℕ) → listed result k ≡ [] }
    {
        Index {
            lists: IndexMap::new(alloc),
        }
    }

    /// The list of a name. It takes no memory.
    pub fn at(&self, name: &Name) -> &[V]
        ensures { result.now ≡ listed self.now name.now }
    {
        match self.lists.get(name) {
            Some(list) => list,
            None => &[],
        }
    }

    /// Appends a value to the list of a name. After out of memory each list is as it was.
    pub fn push(&mut self, name: &Name, value: V) -> Result<(), OutOfMemory>
        ensures ok { OnOk result (ChangesAt name.now (listed self.old name.now ++ value ∷ []) (listed self.old) (listed self.new)) }
        ensures err { OnErr result (Same (listed self.old) (listed self.new)) }
    {
        add_list(&mut self.lists, name)?;
        push_to(&mut self.lists, name, value)
    }

    /// Puts a value that isn't there into its place in the list of a name, which is strictly sorted. After out of memory each
    /// list is as it was.
    pub fn put(&mut self, name: &Name, value: V) -> Result<(), OutOfMemory>
    where
        V: Ord,
        requires in_order { rises V.cmp (listed self.old name.now) ≡ true }
        requires new { list_any (λ v. is_eq (V.cmp v value)) (listed self.old name.now) ≡ false }
        ensures ok { OnOk result (Puts V.cmp value (same_bytes name.now) (listed self.old) (listed self.new)) }
        ensures err { OnErr result (Same (listed self.old) (listed self.new)) }
    {
        let at = gap_of(self.at(name), &value);
        self.insert(name, at, value)
    }

    // What has to grow grows before the first change: an empty list for the name, then room in its list.
    fn insert(&mut self, name: &Name, at: usize, value: V) -> Result<(), OutOfMemory>
        requires { at ≤ length (listed self.old name.now) }
        ensures ok { OnOk result (ChangesAt name.now (insert (listed self.old name.now) at value) (listed self.old) (listed self.new)) }
        ensures err { OnErr result (Same (listed self.old) (listed self.new)) }
    {
        add_list(&mut self.lists, name)?;
        insert_into(&mut self.lists, name, at, value)
    }

    /// Takes a value out of the list of a name, which is strictly sorted, so that binary search finds it. It takes no memory.
    pub fn leave_out(&mut self, name: &Name, value: &V)
    where
        V: Ord,
        requires { rises V.cmp (listed self.old name.now) ≡ true }
        ensures { ChangesAt name.now (filter (λ v. not (V.eq v value.now)) (listed self.old name.now)) (listed self.old) (listed self.new) }
    {
        leave_out_of(&mut self.lists, name, value);
    }

    /// Empties the list of a name. It takes no memory.
    pub fn clear(&mut self, name: &Name)
        ensures { ChangesAt name.now [] (listed self.old) (listed self.new) }
    {
        clear_list(&mut self.lists, name);
    }

    /// Empties the lists of these names. It takes no memory.
    pub fn clear_all(&mut self, names: &[Name])
        ensures { (k : List ℕ) → listed self.new k ≡ (if is_among names.now k then [] else listed self.old k) }
    {
        for at in 0..names.len() {
            self.clear(&names[at]);
        }
    }
}

impl Index<RouteKey> {
    /// Keeps in the list of a device the keys of routes that are on-link there. It takes no memory.
    pub fn keep_on_link(&mut self, links: &[Link], routes: &[Route], name: &Name)
        requires links { rises link_cmp links.now ≡ true }
        requires routes { rises route_cmp routes.now ≡ true }
        ensures { ChangesAt name.now (filter (key_stays name.now links.now routes.now) (listed self.old name.now)) (listed self.old) (listed self.new) }
    {
        keep_on_link_of(&mut self.lists, links, routes, name);
    }
}

// Where a value belongs in a strictly sorted list that doesn't have it, by binary search.
fn gap_of<V: Ord>(list: &[V], value: &V) -> usize
    requires in_order { rises V.cmp list.now ≡ true }
    requires new { list_any (λ v. is_eq (V.cmp v value.now)) list.now ≡ false }
    ensures within { result ≤ length list.now }
    ensures puts { insert list.now result value.now ≡ put V.cmp value.now list.now }
{
    match list.binary_search(value) {
        Ok(i) => i,
        Err(i) => i,
    }
}

// Gives the name a list, where it has none.
fn add_list<V: Drop>(lists: &mut IndexMap<Name, Vec<V>>, name: &Name) -> Result<(), OutOfMemory>
    ensures there { OnOk result (ContainsKey same_bytes lists.new name.now) }
    ensures same { Same (list_in lists.old) (list_in lists.new) }
{
    if !lists.contains_key(name) {
        let alloc = *lists.allocator();
        lists.insert(*name, Vec::new(alloc))?;
    }
    Ok(())
}

fn insert_into<V: Drop>(
    lists: &mut IndexMap<Name, Vec<V>>,
    name: &Name,
    at: usize,
    value: V,
) -> Result<(), OutOfMemory>
    requires there { ContainsKey same_bytes lists.old name.now }
    requires within { at ≤ length (list_in lists.old name.now) }
    ensures ok { OnOk result (ChangesAt name.now (insert (list_in lists.old name.now) at value) (list_in lists.old) (list_in lists.new)) }
    ensures err { OnErr result (Same (list_in lists.old) (list_in lists.new)) }
{
    match lists.get_mut(name) {
        Some(list) => {
            list.insert(at, value)?;
            Ok(())
        }
        None => Ok(()),
    }
}

fn push_to<V: Drop>(
    lists: &mut IndexMap<Name, Vec<V>>,
    name: &Name,
    value: V,
) -> Result<(), OutOfMemory>
    requires { ContainsKey same_bytes lists.old name.now }
    ensures ok { OnOk result (ChangesAt name.now (list_in lists.old name.now ++ value ∷ []) (list_in lists.old) (list_in lists.new)) }
    ensures err { OnErr result (Same (list_in lists.old) (list_in lists.new)) }
{
    match lists.get_mut(name) {
        Some(list) => {
            list.push(value)?;
            Ok(())
        }
        None => Ok(()),
    }
}

// Takes a value out of a strictly sorted list, where binary search finds it, and moves those after it up.
fn keep_others<V: Drop + Ord>(list: &mut Vec<V>, value: &V)
    requires { rises V.cmp list.old.items ≡ true }
    ensures { list.new.items ≡ filter (λ v. not (V.eq v value.now)) list.old.items }
{
    match list.binary_search(value) {
        Ok(i) => {
            list.remove(i);
        }
        Err(_) => {}
    }
}

fn leave_out_of<V: Drop + Ord>(lists: &mut IndexMap<Name, Vec<V>>, name: &Name, value: &V)
    requires { rises V.cmp (list_in lists.old name.now) ≡ true }
    ensures { ChangesAt name.now (filter (λ v. not (V.eq v value.now)) (list_in lists.old name.now)) (list_in lists.old) (list_in lists.new) }
{
    match lists.get_mut(name) {
        Some(list) => keep_others(list, value),
        None => {}
    }
}

fn keep_keys(list: &mut Vec<RouteKey>, links: &[Link], routes: &[Route], name: &Name)
    requires links { rises link_cmp links.now ≡ true }
    requires routes { rises route_cmp routes.now ≡ true }
    ensures { list.new.items ≡ filter (key_stays name.now links.now routes.now) list.old.items }
{
    list.retain(|key| key_stays(links, routes, name, key));
}

fn keep_on_link_of(
    lists: &mut IndexMap<Name, Vec<RouteKey>>,
    links: &[Link],
    routes: &[Route],
    name: &Name,
)
    requires links { rises link_cmp links.now ≡ true }
    requires routes { rises route_cmp routes.now ≡ true }
    ensures { ChangesAt name.now (filter (key_stays name.now links.now routes.now) (list_in lists.old name.now)) (list_in lists.old) (list_in lists.new) }
{
    match lists.get_mut(name) {
        Some(list) => keep_keys(list, links, routes, name),
        None => {}
    }
}

fn clear_list<V: Drop>(lists: &mut IndexMap<Name, Vec<V>>, name: &Name)
    ensures { ChangesAt name.now [] (list_in lists.old) (list_in lists.new) }
{
    match lists.get_mut(name) {
        Some(list) => list.clear(),
        None => {}
    }
}
