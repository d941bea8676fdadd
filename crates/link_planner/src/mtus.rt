//! MTUs: first raised, then lowered.
ghost use Rattle.std.specs.Prelude.{◌≢◌};
ghost use Rattle.std.specs.Bool.{OnTrue, OnFalse};
ghost use Rattle.link_planner.specs.Growing.{EnoughMtu, SameMtu};
ghost use Rattle.link_planner.specs.Phases.{IsDue, Serves};

use crate::draft::Draft;
use crate::phase::Phase;
use net_model::{Call, Link, Name};

fn has_less(link: &Link, there: &Link) -> bool
    ensures yes { OnTrue result (link.now.mtu ≢ there.now.mtu) }
    ensures no { OnFalse result (EnoughMtu link.now there.now) }
{
    link.mtu < there.mtu
}

// Where the link has at least the target's MTU.
fn has_more(link: &Link, there: &Link) -> bool
    requires { EnoughMtu link.now there.now }
    ensures yes { OnTrue result (link.now.mtu ≢ there.now.mtu) }
    ensures no { OnFalse result (SameMtu link.now there.now) }
{
    there.mtu < link.mtu
}

/// The call that gives the link the target's MTU, or none where it has as much. Its base has enough.
pub fn raise_mtu(draft: &Draft, name: &Name) -> Option<Call>
    requires { IsDue Phase.RaiseMtus draft.now name.now }
    ensures { Serves Phase.RaiseMtus draft.now name.now result }
{
    draft.laws();
    let (link, there) = draft.pair(name)?;
    if has_less(link, there) {
        Some(Call::SetMtu {
            name: *name,
            mtu: there.mtu,
        })
    } else {
        None
    }
}

/// The call that gives the link the target's MTU, or none where it has it.
pub fn lower_mtu(draft: &Draft, name: &Name) -> Option<Call>
    requires { IsDue Phase.LowerMtus draft.now name.now }
    ensures { Serves Phase.LowerMtus draft.now name.now result }
{
    draft.laws();
    let (link, there) = draft.pair(name)?;
    if has_more(link, there) {
        Some(Call::SetMtu {
            name: *name,
            mtu: there.mtu,
        })
    } else {
        None
    }
}
