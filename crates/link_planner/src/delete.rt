//! Links that are deleted.
ghost use Rattle.std.specs.Prelude.{◌≡◌};
ghost use Rattle.std.specs.Bool.{OnTrue, OnFalse};
ghost use Rattle.net_model.specs.Links.{is_ethernet};
ghost use Rattle.link_planner.specs.Phases.{IsDue, Serves};
ghost use Rattle.link_planner.specs.Shrinking.{MustGo, HasStayed};

use crate::draft::Draft;
use crate::phase::Phase;
use net_lists::is_ethernet;
use net_model::{Call, Name};

// Whether the link is virtual and isn't kept.
fn must_go(draft: &Draft, name: &Name) -> bool
    ensures yes { OnTrue result (MustGo draft.now.start draft.now.target draft.now.net name.now) }
    ensures no { OnFalse result (HasStayed draft.now.start draft.now.target draft.now.net name.now) }
{
    let Some(link) = draft.net().link(name) else {
        return false;
    };
    !is_ethernet(&link.kind) && !draft.keeps(name)
}

/// The call that deletes the link, or none where it may stay, or went with another.
pub fn delete_link(draft: &Draft, name: &Name) -> Option<Call>
    requires { IsDue Phase.DeleteLinks draft.now name.now }
    ensures { Serves Phase.DeleteLinks draft.now name.now result }
{
    draft.laws();
    if must_go(draft, name) {
        Some(Call::DelLink { name: *name })
    } else {
        None
    }
}
