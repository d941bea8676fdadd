//! Ports that leave their controller.
ghost use Rattle.std.specs.Bool.{OnTrue, OnFalse};
ghost use Rattle.link_planner.specs.Phases.{IsDue, Serves};
ghost use Rattle.link_planner.specs.Shrinking.{IsFree, MustLeave};

use crate::draft::Draft;
use crate::phase::Phase;
use net_model::{Call, Name};

// Whether the port is kept, and has a controller that is kept and isn't the one in the target.
fn must_leave(draft: &Draft, name: &Name) -> bool
    ensures yes { OnTrue result (MustLeave draft.now.start draft.now.target draft.now.net name.now) }
    ensures no { OnFalse result (IsFree draft.now.start draft.now.target draft.now.net name.now) }
{
    let Some((link, there)) = draft.pair(name) else {
        return false;
    };
    let Some(controller) = link.controller else {
        return false;
    };
    draft.keeps(name) && draft.keeps(&controller) && there.controller != Some(controller)
}

/// The call that detaches the port, or none where it may stay.
pub fn detach_port(draft: &Draft, name: &Name) -> Option<Call>
    requires { IsDue Phase.DetachPorts draft.now name.now }
    ensures { Serves Phase.DetachPorts draft.now name.now result }
{
    draft.laws();
    if must_leave(draft, name) {
        Some(Call::Detach { port: *name })
    } else {
        None
    }
}
