//! The merged links, found by their names.
ghost use Rattle.std.specs.Prelude.{◌≡◌, true, map, option_copied, IfOk};
ghost use Rattle.std.specs.Option.{option_to_list};
ghost use Rattle.reach.specs.Positions.{positions};
ghost use Rattle.net_model.specs.Links.{find_link, is_named};
ghost use Rattle.net_model.specs.Valid.{names_differ};
ghost use Rattle.net_model.specs.declared.Link.{Link};

use link_order::Index;
use net_model::{Link, Name};
use std::alloc::{AllocError, Global};
use std::marker::Model;

/// The merged links by rank, whose names differ, with an index of these.
pub struct Merged {
    links: Vec<Link>,
    index: Index,
}

// By hand, so that a proof sees one call where one is dropped, and not a step for each part.
impl Drop for Merged {
    fn drop(self) {
        let Merged { links: _, index: _ } = self;
    }
}

impl Model for Merged {
    ghost use Rattle.std.specs.Prelude.{◌≡◌, true, List, map};
    ghost use Rattle.net_model.specs.Valid.{names_differ};
    ghost use Rattle.net_model.specs.declared.Link.{Link};

    ghost Value = { List Link };

    ghost view = { λ m. m.links.items };

    ghost invariant = { λ m. (m.index ≡ map (λ (l : Link). l.name) m.links.items) × (names_differ m.links.items ≡ true) };
}

fn names(alloc: Global, links: &[Link]) -> Result<Vec<Name>, AllocError>
    ensures { IfOk result (λ names. names.items ≡ map (λ (l : Link). l.name) links.now) }
{
    links.iter().map(|link| link.name).collect(alloc)
}

impl Merged {
    /// The links with an index of their names. The error is that memory is out.
    pub fn of(alloc: Global, links: Vec<Link>) -> Result<Merged, AllocError>
        requires { names_differ links.items ≡ true }
        ensures { IfOk result (λ m. m ≡ links.items) }
    {
        let names = names(alloc, &links)?;
        let index = Index::of(alloc, names)?;
        Ok(Merged { links, index })
    }

    /// The links, by rank.
    pub fn links(&self) -> &Vec<Link>
        ensures links { result.now.items ≡ self.now }
        ensures differ { names_differ self.now ≡ true }
    {
        &self.links
    }

    /// The vector of the links. It takes no memory.
    pub fn into_links(self) -> Vec<Link>
        ensures { result.items ≡ self }
    {
        let Merged { links, index } = self;
        links
    }

    /// The place of the link of this name.
    pub fn place(&self, name: &Name) -> Option<usize>
        ensures { option_to_list result ≡ positions (is_named name.now) 0 self.now }
    {
        self.index.place(name)
    }

    /// The link of this name.
    pub fn find(&self, name: &Name) -> Option<&Link>
        ensures found { option_copied result ≡ find_link name.now self.now }
        ensures differ { names_differ self.now ≡ true }
    {
        match self.index.place(name) {
            Some(at) => Some(&self.links[at]),
            None => None,
        }
    }
}
