//! Links that are taken down.
ghost use Rattle.std.specs.Prelude.{◌≡◌};
ghost use Rattle.std.specs.Bool.{OnTrue, OnFalse};
ghost use Rattle.net_model.specs.Links.{is_bond};
ghost use Rattle.link_planner.specs.Phases.{IsDue, Serves};
ghost use Rattle.link_planner.specs.Shrinking.{KeepsPorts, IsLow, MustFall, Joins, HasBonds};

use crate::draft::Draft;
use crate::phase::Phase;
use net_lists::is_bond;
use net_model::{Call, Link, Name};

// Whether the link has in the target a bond that isn't its controller at the start or isn't kept.
fn joins_bond(draft: &Draft, link: &Link, there: &Link) -> bool
    ensures yes { OnTrue result (Joins draft.now.start draft.now.target link.now there.now) }
    ensures no { OnFalse result (HasBonds draft.now.start draft.now.target link.now there.now) }
{
    let Some(controller) = there.controller else {
        return false;
    };
    let Some(bond) = draft.target().link(&controller) else {
        return false;
    };
    is_bond(&bond.kind) && (link.controller != Some(controller) || !draft.keeps(&controller))
}

// Whether the link is kept and up, and is down in the target or has such a bond there.
fn must_fall(draft: &Draft, name: &Name) -> bool
    requires ports { KeepsPorts draft.now.start draft.now.target draft.now.net }
    ensures yes { OnTrue result (MustFall draft.now.start draft.now.target draft.now.net name.now) }
    ensures no { OnFalse result (IsLow draft.now.start draft.now.target draft.now.net name.now) }
{
    draft.laws();
    let Some((link, there)) = draft.pair(name) else {
        return false;
    };
    let Some(old) = draft.start().link(name) else {
        return false;
    };
    draft.keeps(name) && link.up && (!there.up || joins_bond(draft, old, there))
}

/// The call that takes the link down, or none where it may stay as it is.
pub fn take_down(draft: &Draft, name: &Name) -> Option<Call>
    requires { IsDue Phase.TakeLinksDown draft.now name.now }
    ensures { Serves Phase.TakeLinksDown draft.now name.now result }
{
    draft.laws();
    if must_fall(draft, name) {
        Some(Call::Down { name: *name })
    } else {
        None
    }
}
