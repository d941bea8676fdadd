//! The links of the merged state, found by their names.
ghost use Rattle.std.specs.Prelude.{◌≡◌, [], false, map, find, option_copied, IfOk};
ghost use Rattle.std.specs.List.{list_any};
ghost use Rattle.std.specs.Option.{option_map_or, option_and_then, unwrap_or};
ghost use Rattle.merge_model.specs.Members.{Member, find_member};
ghost use Rattle.merge_model.specs.Controllers.{lists};
ghost use Rattle.merge_model.specs.LinkOptions.{merged_ports};
ghost use Rattle.link_members.specs.Listers.{rivals, port_place};
ghost use Rattle.link_members.specs.Positions.{FindsAt};

use crate::controlled::ports_by_controller;
use crate::listers::{contested_names, first_lister, first_listers};
use crate::port_lists::port_indexes;
use link_order::{Index, Member};
use net_model::{Items, Name};
use std::alloc::{AllocError, Global};
use std::collections::{BTreeMap, BTreeSet};
use std::marker::Model;

/// The links of the merged state by rank, with an index of their names, one of each stated list of ports, one of the
/// names in all of these lists, those that the lists of two links have, and the merged ports of each controller.
pub struct Members<'a> {
    list: Vec<Member<'a>>,
    index: Index,
    ports: Vec<Index>,
    firsts: BTreeMap<Name, usize>,
    contested: BTreeSet<Name>,
    controlled: BTreeMap<Name, Items<Name>>,
}

// By hand, so that a proof sees one call where one is dropped, and not a step for each part.
impl<'a> Drop for Members<'a> {
    fn drop(self) {
        let Members {
            list: _,
            index: _,
            ports: _,
            firsts: _,
            contested: _,
            controlled: _,
        } = self;
    }
}

impl<'a> Model for Members<'a> {
    ghost use Rattle.std.specs.Prelude.{◌≡◌, List, map};
    ghost use Rattle.merge_model.specs.Members.{Member};
    ghost use Rattle.link_members.specs.Controlled.{HasPorts};
    ghost use Rattle.link_members.specs.Listers.{HasFirsts, HasContested, port_names};

    ghost Value = { List Member };

    ghost view = { λ ms. ms.list.items };

    ghost invariant = { λ ms. (ms.index ≡ map (λ (m : Member). m.name) ms.list.items)
        × HasFirsts ms.list.items ms.firsts × HasContested ms.list.items ms.contested
        × (ms.ports.items ≡ map port_names ms.list.items) × HasPorts ms.list.items ms.controlled };
}

/// The names of the links.
pub(crate) fn names(alloc: Global, members: &[Member]) -> Result<Vec<Name>, AllocError>
    ensures { IfOk result (λ names. names.items ≡ map (λ (m : Member). m.name) members.now) }
{
    members.iter().map(|member| member.name()).collect(alloc)
}

impl<'a> Members<'a> {
    /// The links with their indexes. The error is that memory is out.
    pub fn of(alloc: Global, list: Vec<Member<'a>>) -> Result<Members<'a>, AllocError>
        ensures { IfOk result (λ ms. ms ≡ list.entry.items) }
    {
        let names = names(alloc, &list)?;
        let index = Index::of(alloc, names)?;
        let ports = port_indexes(alloc, &list)?;
        let firsts = first_listers(alloc, &list)?;
        let contested = contested_names(alloc, &list, &firsts)?;
        let controlled = ports_by_controller(alloc, &list)?;
        Ok(Members {
            list,
            index,
            ports,
            firsts,
            contested,
            controlled,
        })
    }

    /// The links, by rank.
    pub fn list<'b>(&'b self) -> &'b Vec<Member<'a>>
        ensures { result.now.items ≡ self.now }
    {
        &self.list
    }

    /// The place of the link of this name.
    pub fn place(&self, name: &Name) -> Option<usize>
        ensures { FindsAt result name.now self.now }
    {
        self.index.place(name)
    }

    /// The link of this name.
    pub fn find<'b>(&'b self, name: &Name) -> Option<&'b Member<'a>>
        ensures { option_copied result ≡ find_member name.now self.now }
    {
        match self.index.place(name) {
            Some(at) => Some(&self.list[at]),
            None => None,
        }
    }

    /// The place of the port in the stated list of the link of this name.
    pub fn port_place(&self, controller: &Name, port: &Name) -> Option<usize>
        ensures { result ≡ option_and_then (port_place port.now) (find_member controller.now self.now) }
    {
        match self.index.place(controller) {
            Some(at) => self.ports[at].place(port),
            None => None,
        }
    }

    /// Whether the stated list of the link of this name names the port.
    pub fn lists(&self, controller: &Name, port: &Name) -> bool
        ensures { result ≡ option_map_or (λ c. lists c port.now) (find_member controller.now self.now) false }
    {
        self.port_place(controller, port).is_some()
    }

    /// The names of the merged ports of the controller of this name, where it has any.
    pub fn ports_of<'b>(&'b self, name: &Name) -> Option<&'b Items<Name>>
        ensures { unwrap_or (option_copied result) [] ≡ merged_ports self.now name.now }
    {
        self.controlled.get(name)
    }

    /// The first link whose stated list names the link.
    pub fn first_lister<'b>(&'b self, name: &Name) -> Option<&'b Member<'a>>
        ensures { option_copied result ≡ find (λ c. lists c name.now) self.now }
    {
        first_lister(&self.list, &self.firsts, name)
    }

    /// Whether the lists of two links of different names name the link.
    pub fn is_contested(&self, name: &Name) -> bool
        ensures { result ≡ list_any (rivals self.now name.now) self.now }
    {
        self.contested.contains(name)
    }
}
