//! Links that are taken up.
ghost use Rattle.std.specs.Prelude.{◌≡◌, true, false};
ghost use Rattle.std.specs.Bool.{OnTrue, OnFalse};
ghost use Rattle.link_planner.specs.Growing.{SameUp};
ghost use Rattle.link_planner.specs.Phases.{IsDue, Serves};

use crate::draft::Draft;
use crate::phase::Phase;
use net_model::{Call, Link, Name};

// Whether the link is down, and up in the target.
fn must_rise(link: &Link, there: &Link) -> bool
    requires { link.now.up ≡ true → there.now.up ≡ true }
    ensures yes { OnTrue result ((link.now.up ≡ false) × (there.now.up ≡ true)) }
    ensures no { OnFalse result (SameUp link.now there.now) }
{
    there.up && !link.up
}

/// The call that takes the link up, or none where it is up already, or down in the target.
pub fn take_up(draft: &Draft, name: &Name) -> Option<Call>
    requires { IsDue Phase.TakeLinksUp draft.now name.now }
    ensures { Serves Phase.TakeLinksUp draft.now name.now result }
{
    draft.laws();
    let (link, there) = draft.pair(name)?;
    if must_rise(link, there) {
        Some(Call::Up { name: *name })
    } else {
        None
    }
}
