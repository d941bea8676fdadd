//! The entries of links, found by their names.
ghost use Rattle.std.specs.Prelude.{◌≡◌, map, take, option_copied, IfOk};
ghost use Rattle.std.specs.List.{list_any};
ghost use Rattle.net_model.specs.Name.{same_bytes};
ghost use Rattle.document_model.specs.declared.LinkEntry.{LinkEntry};
ghost use Rattle.merge_model.specs.Stated.{find_entry};

use crate::index::Index;
use document_model::LinkEntry;
use net_model::Name;
use std::alloc::{AllocError, Global};
use std::marker::Model;

/// The entries of links in the order of the document, with an index of their names.
#[derive(Drop)]
pub struct Entries<'a> {
    list: &'a [LinkEntry],
    index: Index,
}

impl<'a> Model for Entries<'a> {
    ghost use Rattle.std.specs.Prelude.{◌≡◌, List, map};
    ghost use Rattle.document_model.specs.declared.LinkEntry.{LinkEntry};

    ghost Value = { List LinkEntry };

    ghost view = { λ es. es.list.now };

    ghost invariant = { λ es. es.index ≡ map (λ (e : LinkEntry). e.name) es.list.now };
}

fn names(alloc: Global, entries: &[LinkEntry]) -> Result<Vec<Name>, AllocError>
    ensures { IfOk result (λ names. names.items ≡ map (λ (e : LinkEntry). e.name) entries.now) }
{
    let mut names = Vec::new(alloc);
    for entry in entries {
        names.push(entry.name)?;
    }
    Ok(names)
}

impl<'a> Entries<'a> {
    /// The entries with an index of their names. The error is that memory is out.
    pub fn of(alloc: Global, entries: &'a [LinkEntry]) -> Result<Entries<'a>, AllocError>
        ensures { IfOk result (λ es. es ≡ entries.now) }
    {
        let names = names(alloc, entries)?;
        let index = Index::of(alloc, names)?;
        Ok(Entries {
            list: entries,
            index,
        })
    }

    /// The entries, in order.
    pub fn list(&self) -> &'a [LinkEntry]
        ensures { result.now ≡ self.now }
    {
        self.list
    }

    /// The entry of this name.
    pub fn find(&self, name: &Name) -> Option<&'a LinkEntry>
        ensures { option_copied result ≡ find_entry name.now self.now }
    {
        match self.index.place(name) {
            Some(at) => Some(&self.list[at]),
            None => None,
        }
    }

    /// Whether an entry before this place has the name.
    pub fn is_named_before(&self, name: &Name, at: usize) -> bool
        ensures { result ≡ list_any (λ e. same_bytes e.name name.now) (take at self.now) }
    {
        match self.index.place(name) {
            Some(first) => first < at,
            None => false,
        }
    }
}
