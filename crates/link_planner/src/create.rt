//! Links that are made.
ghost use Rattle.link_planner.specs.Phases.{IsDue, Serves};

use crate::draft::Draft;
use crate::phase::Phase;
use net_model::{Call, Name};

/// The call that makes the target's link, or none where it is there.
pub fn create_link(draft: &Draft, name: &Name) -> Option<Call>
    requires { IsDue Phase.CreateLinks draft.now name.now }
    ensures { Serves Phase.CreateLinks draft.now name.now result }
{
    draft.laws();
    let there = draft.target().link(name)?;
    match draft.net().link(name) {
        Some(_) => None,
        None => Some(Call::AddLink {
            name: *name,
            kind: there.kind,
        }),
    }
}
