//! The rule 12 of the merge: two VLANs agree in base, protocol and number.
ghost use Rattle.std.specs.Prelude.{◌≡◌, IfOk};
ghost use Rattle.merge_model.specs.BrokenLinks.{vlan_twin};

use document_model::Place;
use net_lists::is_first_vlan;
use net_model::Link;
use std::alloc::{AllocError, Global};
use std::collections::BTreeSet;

/// The place of rule 12.
pub(crate) fn vlan_twin(alloc: Global, links: &[Link]) -> Result<Option<Place>, AllocError>
    ensures { IfOk result (λ place. place ≡ vlan_twin links.now) }
{
    let mut seen = BTreeSet::new(alloc);
    for i in 0..links.len() {
        let link = &links[i];
        let first = is_first_vlan(&mut seen, link)?;
        if !first {
            return Ok(Some(Place::Link(link.name)));
        }
    }
    Ok(None)
}
