//! Links, found by their names.
ghost use Rattle.std.specs.Prelude.{◌≡◌, ◌++◌, ◌∷◌, [], IfOk};
ghost use Rattle.std.specs.List.{list_any};
ghost use Rattle.net_model.specs.Links.{is_named};

use net_model::{Link, Name};
use std::alloc::{AllocError, Global};
use std::collections::BTreeSet;
use std::marker::Model;

/// Links, and an ordered set of their names.
#[derive(Drop)]
pub(crate) struct Named {
    links: Vec<Link>,
    names: BTreeSet<Name>,
}

impl Model for Named {
    ghost use Rattle.std.specs.Prelude.{List};
    ghost use Rattle.net_model.specs.declared.link.Link.{Link};
    ghost use Rattle.link_schema.specs.Named.{HasNames};

    ghost Value = { List Link };

    ghost view = { λ n. n.links.items };

    ghost invariant = { λ n. HasNames n.names n.links.items };
}

impl Named {
    /// No link.
    pub(crate) fn none(alloc: Global) -> Named
        ensures { result ≡ [] }
    {
        Named {
            links: Vec::new(alloc),
            names: BTreeSet::new(alloc),
        }
    }

    /// Whether one has this name, by the set.
    pub(crate) fn has(&self, name: &Name) -> bool
        ensures { result ≡ list_any (is_named name.now) self.now }
    {
        self.names.contains(name)
    }

    /// The links, and behind them one more.
    pub(crate) fn with(self, link: Link) -> Result<Named, AllocError>
        ensures { IfOk result (λ more. more ≡ self ++ link ∷ []) }
    {
        let Named {
            mut links,
            mut names,
        } = self;
        names.insert(link.name)?;
        links.push(link)?;
        Ok(Named { links, names })
    }

    /// The links alone.
    pub(crate) fn into_links(self) -> Vec<Link>
        ensures { result.items ≡ self }
    {
        let Named { links, .. } = self;
        links
    }
}
