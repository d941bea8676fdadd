//! Kernel calls in turn.
ghost use Rattle.std.specs.Prelude.{◌≡◌, ◌⊎◌, ◌+◌, ℕ, [], length, None, Some, OnOk, IsErrOf};
ghost use Rattle.net_model.specs.NetData.{NetData};
ghost use Rattle.kernel_model.specs.Runs.{Runs};
ghost use Rattle.host_core.specs.Faults.{HasFault};
ghost use Rattle.host_core.specs.Stops.{Steps};
ghost use Rattle.host_core.specs.HostView.{SameCell, WasRefused, NoneRefused};
ghost use Rattle.engine_model.specs.Refusals.{RefusedOnce};
ghost use Rattle.engine_model.specs.Stations.{RunStep, FrontStep};

use host_core::{CallFault, Host};
use kernel_laws::step_laws;
use net_model::Call;
use std::alloc::Global;

/// Why not all calls were made.
#[derive(Drop)]
pub enum RunFault {
    /// The kernel refused a call: the number of the refusal, and the number of the call from 1.
    Refused(u8, u64),
    /// The host failed.
    Failed,
    OutOfMemory,
}

/// Makes the calls in turn, up to the first that isn't done.
pub fn run<H: Host>(host: &mut H, alloc: Global, calls: &[Call]) -> Result<(), RunFault>
    requires { (H.told host.old).settled }
    ensures reached { H.honest → (from to : NetData) → (H.told host.old).state.net ≡ Some from
        → Runs calls.now from to → OnOk result ((H.told host.new).state.net ≡ Some to) }
    ensures accepted { H.honest → (from to : NetData) → (H.told host.old).state.net ≡ Some from
        → Runs calls.now from to → (k n : ℕ) → IsErrOf result (RunFault.Refused k n) → ⊥ }
    ensures settled { OnOk result (H.told host.new).settled }
    ensures cell { H.tells → SameCell (H.told host.old).state (H.told host.new).state }
    ensures stops_cell { Steps SameCell (H.told host.old).stops (H.told host.new).stops }
    ensures stops { H.honest → Steps RunStep (H.told host.old).stops (H.told host.new).stops }
    // At each moment the calls are carried out up to some of them.
    ensures fronts { H.honest → (from to : NetData) → (H.told host.old).state.net ≡ Some from → Runs calls.now from to
        → Steps (FrontStep calls.now from) (H.told host.old).stops (H.told host.new).stops }
    ensures refused { (k n : ℕ) → IsErrOf result (RunFault.Refused k n) → (H.told host.old).kernel.calls ≡ 0
        → WasRefused k n (H.told host.old).kernel (H.told host.new).kernel }
    ensures once { (k n : ℕ) → IsErrOf result (RunFault.Refused k n) → RefusedOnce (H.told host.old).kernel (H.told host.new).kernel }
    ensures quiet { ((k n : ℕ) → IsErrOf result (RunFault.Refused k n) → ⊥) → NoneRefused (H.told host.old).kernel (H.told host.new).kernel }
    ensures made { OnOk result ((H.told host.old).kernel.calls ≡ 0 → (H.told host.new).kernel.calls ≡ length calls.now) }
    // No dump is made.
    ensures fresh { H.tells → ((H.told host.new).fresh ≡ (H.told host.old).fresh) ⊎ ((H.told host.new).fresh ≡ None) }
    ensures idle { H.tells → calls.now ≡ [] → (H.told host.new).fresh ≡ (H.told host.old).fresh }
    ensures cause { HasFault (H.told host.old).faults (H.told host.new).faults RunFault.Failed result }
{
    step_laws();
    for (i, call) in calls.iter().enumerate() {
        match host.call(alloc, call) {
            Ok(()) => {}
            Err(CallFault::Refused(k)) => return Err(RunFault::Refused(k, i as u64 + 1)),
            Err(CallFault::Failed) => return Err(RunFault::Failed),
            Err(CallFault::OutOfMemory) => return Err(RunFault::OutOfMemory),
        }
    }
    Ok(())
}
