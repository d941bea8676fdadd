//! Finding names among those of a list.
ghost use Rattle.std.specs.Prelude.{◌≡◌, ℕ, List, Some, None, if◌then◌else◌, position, IfOk, OnOk};
ghost use Rattle.std.specs.Option.{option_or};
ghost use Rattle.std.specs.BTreeMap.{get};
ghost use Rattle.net_model.specs.Name.{same_bytes};
ghost use Rattle.net_model.specs.Order.{name_cmp};
ghost use Rattle.link_order.specs.Index.{HasPlaces};

use net_model::Name;
use std::alloc::{AllocError, Global};
use std::collections::BTreeMap;
use std::marker::Model;

/// Names, to find the first place of each.
pub struct Index {
    names: Vec<Name>,
    places: BTreeMap<Name, usize>,
}

// By hand, so that a proof sees one call where one is dropped, and not a step for each part.
impl Drop for Index {
    fn drop(self) {
        let Index {
            names: _,
            places: _,
        } = self;
    }
}

impl Model for Index {
    ghost use Rattle.std.specs.Prelude.{ℕ, List};
    ghost use Rattle.link_order.specs.Index.{HasPlaces};

    ghost Value = { List (List ℕ) };

    ghost view = { λ i. i.names.items };

    ghost invariant = { λ i. HasPlaces i.names.items i.places };
}

/// The place of the name in the map.
pub fn first_place(places: &BTreeMap<Name, usize>, name: &Name) -> Option<usize>
    ensures { result ≡ get name_cmp places.now name.now }
{
    places.get(name).copied()
}

/// Takes the place of the name, unless the name has one. The error is that memory is out.
pub fn note(places: &mut BTreeMap<Name, usize>, name: Name, at: usize) -> Result<(), AllocError>
    ensures { OnOk result ((q : List ℕ) → get name_cmp places.new q ≡ option_or (get name_cmp places.old q) (if same_bytes name q then Some at else None)) }
{
    match first_place(places, &name) {
        Some(_) => Ok(()),
        None => {
            places.insert(name, at)?;
            Ok(())
        }
    }
}

fn places(alloc: Global, names: &[Name]) -> Result<BTreeMap<Name, usize>, AllocError>
    ensures { IfOk result (λ places. HasPlaces names.now places) }
{
    let mut places = BTreeMap::new(alloc);
    for at in 0..names.len() {
        note(&mut places, names[at], at)?;
    }
    Ok(places)
}

impl Index {
    /// An index of these names. The error is that memory is out.
    pub fn of(alloc: Global, names: Vec<Name>) -> Result<Index, AllocError>
        ensures { IfOk result (λ index. index ≡ names.items) }
    {
        let places = places(alloc, &names)?;
        Ok(Index { names, places })
    }

    /// The first place of the name.
    pub fn place(&self, name: &Name) -> Option<usize>
        ensures { result ≡ position (λ n. same_bytes n name.now) self.now }
    {
        first_place(&self.places, name)
    }
}
