//! The settings of DNS.
ghost use Rattle.std.specs.Prelude.{◌≡◌, IfOk};

use crate::address::Addr;
use crate::domain::Domain;
use base_model::Items;
use std::alloc::AllocError;

/// The servers that are asked and the names that are searched under, each in the order of asking.
#[derive(Clone)]
pub struct Dns {
    pub servers: Items<Addr>,
    pub search: Items<Domain>,
}

// By hand, so that a proof sees one call where one is dropped, and not a step for each part.
impl Drop for Dns {
    fn drop(self) {
        let Dns {
            servers: _,
            search: _,
        } = self;
    }
}

impl Dns {
    /// The same settings, in lists of their own.
    pub fn copy(&self) -> Result<Dns, AllocError>
        ensures { IfOk result (λ copy. copy ≡ self.now) }
    {
        self.clone()
    }
}
