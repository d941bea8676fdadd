//! A link of the merged state, before its fields.
ghost use Rattle.std.specs.Prelude.{◌≡◌, option_copied};
ghost use Rattle.merge_model.specs.Members.{member};
ghost use Rattle.merge_model.specs.Lifted.{is_unstated, was_up};

use document_model::{LinkEntry, Wish};
use net_model::{Kind, Link, Name};
use std::marker::Model;

/// A link of the merged state: the running network's link of this name, the entry unless that is absent, and what is
/// stated of the state; and, once they are known, the controller and whether the link is lifted.
#[derive(Drop)]
pub struct Member<'a> {
    name: Name,
    kind: Kind,
    old: Option<&'a Link>,
    entry: Option<&'a LinkEntry>,
    wish: Option<Wish>,
    controller: Option<Name>,
    lifted: bool,
}

impl<'a> Model for Member<'a> {
    ghost use Rattle.std.specs.Prelude.{option_copied};
    ghost use Rattle.merge_model.specs.Members.{Member};

    ghost Value = { Member };

    ghost view = { λ m. record { name = m.name; kind = m.kind; old = option_copied m.old; entry = option_copied m.entry; wish = m.wish; controller = m.controller; lifted = m.lifted } };
}

impl<'a> Member<'a> {
    /// A link before its controller and its lifting are known.
    pub fn of(
        name: Name,
        kind: Kind,
        old: Option<&'a Link>,
        entry: Option<&'a LinkEntry>,
        wish: Option<Wish>,
    ) -> Member<'a>
        ensures { result ≡ member name kind (option_copied old.entry) (option_copied entry.entry) wish }
    {
        Member {
            name,
            kind,
            old,
            entry,
            wish,
            controller: None,
            lifted: false,
        }
    }

    /// The name of the link.
    pub fn name(&self) -> Name
        ensures { result ≡ self.now.name }
    {
        self.name
    }

    /// The kind of the merged link.
    pub fn kind(&self) -> Kind
        ensures { result ≡ self.now.kind }
    {
        self.kind
    }

    /// The running network's link of this name.
    pub fn old(&self) -> Option<&'a Link>
        ensures { option_copied result ≡ self.now.old }
    {
        self.old
    }

    /// The entry of the link, unless that is absent.
    pub fn entry(&self) -> Option<&'a LinkEntry>
        ensures { option_copied result ≡ self.now.entry }
    {
        self.entry
    }

    /// What is stated of the state.
    pub fn wish(&self) -> Option<Wish>
        ensures { result ≡ self.now.wish }
    {
        self.wish
    }

    /// The controller, once it is known.
    pub fn controller(&self) -> Option<Name>
        ensures { result ≡ self.now.controller }
    {
        self.controller
    }

    /// Whether the link is lifted, once that is known.
    pub fn is_lifted(&self) -> bool
        ensures { result ≡ self.now.lifted }
    {
        self.lifted
    }

    /// Whether nothing is stated of the state.
    pub fn is_unstated(&self) -> bool
        ensures { result ≡ is_unstated self.now }
    {
        self.wish.is_none()
    }

    /// Whether the link was up.
    pub fn was_up(&self) -> bool
        ensures { result ≡ was_up self.now }
    {
        match self.old {
            Some(link) => link.up,
            None => false,
        }
    }

    /// The link with this controller.
    pub fn under(&self, controller: Option<Name>) -> Member<'a>
        ensures { result ≡ record self.now { controller = controller } }
    {
        Member {
            name: self.name,
            kind: self.kind,
            old: self.old,
            entry: self.entry,
            wish: self.wish,
            controller,
            lifted: self.lifted,
        }
    }

    /// The link with whether it is lifted.
    pub fn raised(&self, lifted: bool) -> Member<'a>
        ensures { result ≡ record self.now { lifted = lifted } }
    {
        Member {
            name: self.name,
            kind: self.kind,
            old: self.old,
            entry: self.entry,
            wish: self.wish,
            controller: self.controller,
            lifted,
        }
    }
}
