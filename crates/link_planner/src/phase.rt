//! The phases of a plan for links, and the loop over names that carries them out.
ghost use Rattle.std.specs.Prelude.{OnOk};
ghost use Rattle.link_planner.specs.Phases.{HasRun, IsDue, IsOrder, IsServed, Serves, Stands, builds, rank};

use crate::create::create_link;
use crate::delete::delete_link;
use crate::detach::detach_port;
use crate::down::take_down;
use crate::draft::Draft;
use crate::mtus::{lower_mtu, raise_mtu};
use crate::ports::{attach_port, set_port, set_primary};
use crate::settings::{set_bond, set_bridge, set_mac};
use crate::up::take_up;
use kernel_model::Steps;
use net_model::{Call, Name, OutOfMemory};

/// The phases, in their order.
#[derive(Clone, Copy)]
pub enum Phase {
    /// Kept ports leave a kept controller that isn't theirs in the target.
    DetachPorts,
    /// Kept links fall that are down in the target, or have a bond there that isn't their controller or isn't kept.
    TakeLinksDown,
    /// Virtual links go that aren't kept.
    DeleteLinks,
    /// The target's links come, each base before what stands on it.
    CreateLinks,
    /// MTUs rise, each base before what stands on it.
    RaiseMtus,
    /// MTUs fall.
    LowerMtus,
    SetMacs,
    /// The options of bonds, each primary only where it is a port already.
    SetBonds,
    /// The options of bridges.
    SetBridges,
    AttachPorts,
    /// The options of ports.
    SetPorts,
    /// The primaries that are still missing.
    SetPrimaries,
    /// Links rise, each base before what stands on it.
    TakeLinksUp,
}

// The call that a phase makes for a name, if there is something to do.
fn call_for(draft: &Draft, phase: Phase, name: &Name) -> Option<Call>
    requires { IsDue phase draft.now name.now }
    ensures { Serves phase draft.now name.now result }
{
    match phase {
        Phase::DetachPorts => detach_port(draft, name),
        Phase::TakeLinksDown => take_down(draft, name),
        Phase::DeleteLinks => delete_link(draft, name),
        Phase::CreateLinks => create_link(draft, name),
        Phase::RaiseMtus => raise_mtu(draft, name),
        Phase::LowerMtus => lower_mtu(draft, name),
        Phase::SetMacs => set_mac(draft, name),
        Phase::SetBonds => set_bond(draft, name),
        Phase::SetBridges => set_bridge(draft, name),
        Phase::AttachPorts => attach_port(draft, name),
        Phase::SetPorts => set_port(draft, name),
        Phase::SetPrimaries => set_primary(draft, name),
        Phase::TakeLinksUp => take_up(draft, name),
    }
}

/// Carries out a phase for a name.
pub fn serve<S: Steps>(draft: &mut Draft, phase: Phase, name: &Name) -> Result<(), OutOfMemory>
    requires { IsDue phase draft.old name.now }
    ensures { OnOk result (IsServed phase name.now draft.old draft.new) }
{
    let call = call_for(draft, phase, name);
    draft.add_some::<S>(call)
}

/// Carries out a phase for the names, one after the other.
pub fn run<S: Steps>(draft: &mut Draft, phase: Phase, names: &[Name]) -> Result<(), OutOfMemory>
    requires stands { Stands (builds phase) (rank phase) draft.old }
    requires order { IsOrder phase draft.old names.now }
    ensures { OnOk result (HasRun phase names.now draft.old draft.new) }
{
    for name in names {
        serve::<S>(draft, phase, name)?;
    }
    Ok(())
}
