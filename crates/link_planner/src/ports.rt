//! Ports: attached, and their options; then the primaries of bonds.
ghost use Rattle.std.specs.Prelude.{◌≡◌, ◌≢◌, Some};
ghost use Rattle.std.specs.Bool.{OnTrue, OnFalse};
ghost use Rattle.link_planner.specs.Growing.{SamePort};
ghost use Rattle.link_planner.specs.Phases.{IsDue, Serves};

use crate::draft::Draft;
use crate::phase::Phase;
use crate::settings::has_other_bond;
use net_model::{Call, Link, Name};

fn has_other_controller(link: &Link, controller: &Name) -> bool
    ensures yes { OnTrue result (link.now.controller ≢ Some controller.now) }
    ensures no { OnFalse result (link.now.controller ≡ Some controller.now) }
{
    link.controller != Some(*controller)
}

/// The call that attaches the port to the target's controller, or none where it has it, or the target has none.
pub fn attach_port(draft: &Draft, name: &Name) -> Option<Call>
    requires { IsDue Phase.AttachPorts draft.now name.now }
    ensures { Serves Phase.AttachPorts draft.now name.now result }
{
    draft.laws();
    let (link, there) = draft.pair(name)?;
    let Some(controller) = there.controller else {
        return None;
    };
    if has_other_controller(link, &controller) {
        Some(Call::Attach {
            port: *name,
            controller,
        })
    } else {
        None
    }
}

fn has_other_port(link: &Link, there: &Link) -> bool
    ensures yes { OnTrue result (link.now.port ≢ there.now.port) }
    ensures no { OnFalse result (SamePort link.now there.now) }
{
    link.port != there.port
}

/// The call that gives the port the target's options, or none where it has them.
pub fn set_port(draft: &Draft, name: &Name) -> Option<Call>
    requires { IsDue Phase.SetPorts draft.now name.now }
    ensures { Serves Phase.SetPorts draft.now name.now result }
{
    draft.laws();
    let (link, there) = draft.pair(name)?;
    if has_other_port(link, there) {
        Some(Call::SetPort {
            port: *name,
            opts: there.port,
        })
    } else {
        None
    }
}

/// The call that gives a bond all of the target's options, also the primary, or none where it has them.
pub fn set_primary(draft: &Draft, name: &Name) -> Option<Call>
    requires { IsDue Phase.SetPrimaries draft.now name.now }
    ensures { Serves Phase.SetPrimaries draft.now name.now result }
{
    draft.laws();
    let (link, there) = draft.pair(name)?;
    if has_other_bond(link, &there.bond) {
        Some(Call::SetBond {
            name: *name,
            opts: there.bond,
        })
    } else {
        None
    }
}
