//! A restoring, from its barrier to the clearing.
ghost use Rattle.std.specs.Prelude.{◌≡◌, ◌≢◌, ◌≤◌, ℕ, not, true, false, None, Some, OnOk, IfOk, IfErr, IsErrOf, IsSome};
ghost use Rattle.net_model.specs.NetData.{NetData, IsNet};
ghost use Rattle.kernel_model.specs.Runs.{Runs};
ghost use Rattle.host_core.specs.Faults.{HasCause};
ghost use Rattle.host_core.specs.Stops.{Steps};
ghost use Rattle.host_core.specs.HostView.{State, SameKernel, Untouched, NoneRefused};
ghost use Rattle.checkpoint_cell.specs.Cell.{Checkpoint, cell_of, saved_net, applying, in_phase};
ghost use Rattle.checkpoint_cell.specs.Steps.{Holds};
ghost use Rattle.checkpoint_cell.specs.Settled.{Standing, standing, settled, taken_back};
ghost use Rattle.engine_model.specs.Machine.{saved_on};
ghost use Rattle.engine_model.specs.Undone.{stand};
ghost use Rattle.engine_model.specs.Sound.{WhereSound};
ghost use Rattle.engine_model.specs.Stations.{Only, Kept, Ends, IsSettled, Waits, FromRead, Any};
ghost use Rattle.checkpoint_cell.specs.Settled.{restored_to};
ghost use Rattle.engine_model.specs.Answers.{IsBefore, IsHealthy, IsClear, IsTaken, IsUndone, Finds};
ghost use Rattle.engine_model.specs.Failing.{IsUnbegun, Fails};
ghost use Rattle.engine_model.specs.Faults.{GaveSaved};
ghost use Rattle.engine_model.specs.Compared.{NoneWaits, WaitsAsBefore, IsSeen, WaitsSeen};
ghost use Rattle.engine_restore.specs.Restoring.{IsSet, Hinders, IsDumped, WayBack, IsReady, Undoes, Interrupts, Restores};

use crate::devices::differing;
use crate::running::{RunFault, run};
use checkpoint_cell::{CellFault, Pending, Phase, Seen, barrier, clear, due, load, mark_applying};
use engine_model::{BackFault, Left, Recovered};
use host_core::{DumpFault, Failed, Host};
use net_core::Net;
use net_model::{Call, OutOfMemory};
use plan_core::plan;
use std::alloc::Global;

// The checkpoint that is held, with its network.
fn load_held<H: Host>(host: &mut H, alloc: Global) -> Result<Pending, BackFault>
    requires { H.tells → (checkpoint : Checkpoint) × Holds (Some checkpoint) (H.told host.old) }
    ensures set { IfOk result (λ pending. H.tells → IsSet pending.net (H.told host.new)) }
    ensures fault { IfErr result (λ fault. Hinders H.tells H.honest (H.told host.old) (H.told host.new) fault) }
    ensures untouched { Untouched H.tells (H.told host.old) (H.told host.new) }
    ensures later { (H.told host.old).faults ≤ (H.told host.new).faults }
{
    match load(host, alloc) {
        Ok(Some(pending)) => Ok(pending),
        Ok(None) => Err(BackFault::Damaged(1)),
        Err(CellFault::Failed) => Err(BackFault::HostFault(Left::NotBegun)),
        Err(CellFault::Damaged) => Err(BackFault::Damaged(1)),
        Err(CellFault::OutOfMemory) => Err(BackFault::OutOfMemory),
    }
}

// The network that stands.
fn dump_net<H: Host>(host: &mut H, alloc: Global) -> Result<Net, BackFault>
    requires { H.tells → (saved : NetData) × IsSet saved (H.told host.old) }
    ensures dumped { IfOk result (λ net. IsDumped H.tells H.honest (H.told host.old) (H.told host.new) net) }
    ensures fault { IfErr result (λ fault. Hinders H.tells H.honest (H.told host.old) (H.told host.new) fault) }
    ensures unbegun { IsUnbegun H.tells (H.told host.old) (H.told host.new) }
    ensures seen { H.honest → (net : NetData) → IsSeen net (H.told host.old) → IsSeen net (H.told host.new) }
    ensures later { (H.told host.old).faults ≤ (H.told host.new).faults }
{
    match host.dump(alloc) {
        Ok(net) => Ok(net),
        Err(DumpFault::Failed) => Err(BackFault::HostFault(Left::NotBegun)),
        Err(DumpFault::Damaged) => Err(BackFault::Damaged(0)),
        Err(DumpFault::OutOfMemory) => Err(BackFault::OutOfMemory),
    }
}

// Plans the calls that lead from the network that was found to the saved one.
fn way_back(alloc: Global, found: &Net, saved: &Net) -> Result<Vec<Call>, BackFault>
    ensures { WayBack found.now saved.now result }
{
    found.laws();
    saved.laws();
    if !found.same_hardware(saved) {
        return match differing(alloc, saved, found) {
            Ok(names) => Err(BackFault::HardwareDiffers(names)),
            Err(OutOfMemory) => Err(BackFault::OutOfMemory),
        };
    }
    match plan(alloc, found, saved) {
        Ok(calls) => Ok(calls),
        Err(OutOfMemory) => Err(BackFault::OutOfMemory),
    }
}

// Plans the calls that lead back to the saved network. It makes none.
fn ready<H: Host>(host: &mut H, alloc: Global) -> Result<Vec<Call>, BackFault>
    requires { H.tells → (checkpoint : Checkpoint) × Holds (Some checkpoint) (H.told host.old) }
    ensures ready { IfOk result (λ calls. IsReady H.tells H.honest calls.items (H.told host.old) (H.told host.new)) }
    ensures fault { IfErr result (λ fault. Hinders H.tells H.honest (H.told host.old) (H.told host.new) fault) }
    ensures unbegun { IsUnbegun H.tells (H.told host.old) (H.told host.new) }
    ensures seen { H.honest → (net : NetData) → IsSeen net (H.told host.old) → IsSeen net (H.told host.new) }
    ensures later { (H.told host.old).faults ≤ (H.told host.new).faults }
{
    let pending = match load_held(host, alloc) {
        Ok(pending) => pending,
        Err(fault) => return Err(fault),
    };
    match dump_net(host, alloc) {
        Ok(found) => way_back(alloc, &found, &pending.net),
        Err(fault) => Err(fault),
    }
}

// Marks a change that waits as one that is being made.
fn take_up<H: Host>(host: &mut H, phase: Phase) -> Result<(), Failed>
    requires { H.tells → (checkpoint : Checkpoint) × Holds (Some checkpoint) (H.told host.old) × (checkpoint.phase ≡ phase) }
    ensures taken { H.tells → (checkpoint : Checkpoint) → Holds (Some checkpoint) (H.told host.old)
        → OnOk result (Holds (Some (in_phase Phase.Applying checkpoint)) (H.told host.new)) }
    ensures kept { WhereSound H.tells (H.told host.old) ((checkpoint : Checkpoint) (net saved : NetData) → Holds (Some checkpoint) (H.told host.old)
        → Ends (stand net (Some checkpoint)) (H.told host.old) → checkpoint.net ≡ Some saved
        → Kept (Only (restored_to saved)) (H.told host.old) (H.told host.new)) }
    ensures ends { H.tells → (checkpoint : Checkpoint) (net : NetData) → Holds (Some checkpoint) (H.told host.old)
        → Ends (stand net (Some checkpoint)) (H.told host.old)
        → OnOk result (Ends (stand net (Some (in_phase Phase.Applying checkpoint))) (H.told host.new)) }
    ensures waits { H.tells → WaitsAsBefore (H.told host.old) (H.told host.new) }
    ensures moves { Steps Any (H.told host.old).stops (H.told host.new).stops }
    ensures kernel { SameKernel H.tells (H.told host.old) (H.told host.new) }
    ensures cause { HasCause (H.told host.old).faults (H.told host.new).faults result }
{
    match phase {
        Phase::Applying => Ok(()),
        Phase::Waiting => mark_applying(host),
    }
}

// Makes the calls that lead back to the saved network, and clears the checkpoint.
fn undo<H: Host>(host: &mut H, alloc: Global, calls: &[Call]) -> Result<(), BackFault>
    requires settled { (H.told host.old).settled }
    requires zero { (H.told host.old).kernel.calls ≡ 0 }
    requires cell { H.tells → (checkpoint : Checkpoint) × Holds (Some checkpoint) (H.told host.old) }
    ensures undone { OnOk result (Undoes H.tells H.honest calls.now (H.told host.old) (H.told host.new)) }
    ensures fault { IfErr result (λ fault.
        Interrupts H.tells H.honest calls.now (H.told host.old) (H.told host.new) fault) }
    ensures kept { WhereSound H.honest (H.told host.old) ((made deadline : ℕ) (from saved : NetData)
        → Ends (stand from (Some (applying made deadline saved))) (H.told host.old) → (H.told host.old).state.net ≡ Some from → IsNet from
        → Runs calls.now from saved → Kept (Only (restored_to saved)) (H.told host.old) (H.told host.new)) }
    ensures waits { H.tells → (checkpoint : Checkpoint) → Holds (Some checkpoint) (H.told host.old) → checkpoint.phase ≡ Phase.Applying
        → NoneWaits (H.told host.new) }
    ensures moves { Steps Any (H.told host.old).stops (H.told host.new).stops }
    ensures later { (H.told host.old).faults ≤ (H.told host.new).faults }
{
    match run(host, alloc, calls) {
        Ok(()) => {}
        Err(RunFault::Refused(k, n)) => return Err(BackFault::KernelRefused(k, n, Left::Pending)),
        Err(RunFault::Failed) => return Err(BackFault::HostFault(Left::Pending)),
        Err(RunFault::OutOfMemory) => return Err(BackFault::OutOfMemory),
    }
    match clear(host) {
        Ok(()) => Ok(()),
        Err(Failed) => Err(BackFault::HostFault(Left::Pending)),
    }
}

// Leads back to the network of the checkpoint, and clears it.
fn restore<H: Host>(host: &mut H, alloc: Global, phase: Phase) -> Result<(), BackFault>
    requires { H.tells → (checkpoint : Checkpoint) × Holds (Some checkpoint) (H.told host.old) × (checkpoint.phase ≡ phase) }
    ensures restored { OnOk result (Restores H.tells H.honest (H.told host.old) (H.told host.new)) }
    ensures fault { IfErr result (λ fault. Hinders H.tells H.honest (H.told host.old) (H.told host.new) fault) }
    ensures kept { WhereSound H.honest (H.told host.old) ((checkpoint : Checkpoint) (saved : NetData) → Holds (Some checkpoint) (H.told host.old)
        → checkpoint.net ≡ Some saved → Kept (Only (restored_to saved)) (H.told host.old) (H.told host.new)) }
    // Without a network nothing is done.
    ensures bare { H.tells → (H.told host.old).state.net ≡ None → (H.told host.new).state ≡ (H.told host.old).state }
    // A change that waits then could be left before, and a network that was seen then still is.
    ensures waits { H.tells → WaitsAsBefore (H.told host.old) (H.told host.new) }
    ensures seen { H.honest → (net : NetData) → IsSeen net (H.told host.old) → WaitsSeen net (H.told host.new) }
    ensures moves { Steps Any (H.told host.old).stops (H.told host.new).stops }
    ensures later { (H.told host.old).faults ≤ (H.told host.new).faults }
{
    let calls = match ready(host, alloc) {
        Ok(calls) => calls,
        Err(fault) => return Err(fault),
    };
    match take_up(host, phase) {
        Ok(()) => undo(host, alloc, &calls),
        Err(Failed) => Err(BackFault::HostFault(Left::Pending)),
    }
}

#[tactic(auto, using(engine_model::proofs::lemmas::Leading::same_state))]
/// Takes back whatever change is set, and says whether one was. It never answers `NoCheckpoint`.
pub fn go_back<H: Host>(host: &mut H, alloc: Global) -> Result<bool, BackFault>
    ensures cleared { H.tells → OnOk result (Holds None (H.told host.new)) }
    ensures empty { H.tells → IfOk result (λ was. was ≡ false → cell_of (H.told host.old).state.cell ≡ None) }
    ensures set { H.tells → IfOk result (λ was. was ≡ true → IsSome (cell_of (H.told host.old).state.cell)) }
    ensures kept { WhereSound H.honest (H.told host.old) (Kept (IsUndone (H.told host.old).state) (H.told host.old) (H.told host.new)) }
    ensures ends { WhereSound H.honest (H.told host.old) (IfOk result (λ was. was ≡ true → (stands : Standing) × IsUndone (H.told host.old).state stands
        × Ends stands (H.told host.new))) }
    // Where all that stands goes back to one network, that network stands then.
    ensures back { WhereSound H.honest (H.told host.old) ((saved : NetData) → ((s : State) → (H.told host.old).stops.may_leave s
        → IsUndone s (restored_to saved)) → OnOk result (Ends (restored_to saved) (H.told host.new))) }
    ensures healthy { WhereSound H.honest (H.told host.old) (IfErr result (λ fault. IsHealthy fault)) }
    // But for faults and memory its answer is what the restoring finds, also where the host isn't sound.
    ensures exact { H.honest → (checkpoint : Checkpoint) → cell_of (H.told host.old).state.cell ≡ Some checkpoint
        → Finds (saved_on checkpoint.net (H.told host.old).state.net) result }
    ensures unset { H.tells → cell_of (H.told host.old).state.cell ≡ None → IfErr result (λ fault. fault ≡ BackFault.HostFault Left.NotBegun) }
    ensures memory { H.tells → IsErrOf result BackFault.OutOfMemory → IsSome (cell_of (H.told host.old).state.cell) }
    // What its faults say on every host, and by what calls the saved network was given. Without a network nothing is done.
    ensures fails { IfErr result (λ fault. Fails H.tells (H.told host.old) (H.told host.new) fault) }
    ensures quiet { OnOk result (NoneRefused (H.told host.old).kernel (H.told host.new).kernel) }
    ensures gave { H.tells → IfOk result (λ was. was ≡ true → GaveSaved (H.told host.new)) }
    ensures idle { IfOk result (λ was. was ≡ false → IsUnbegun H.tells (H.told host.old) (H.told host.new)) }
    ensures bare { H.tells → (H.told host.old).state.net ≡ None → (H.told host.new).state ≡ (H.told host.old).state }
    ensures going { WhereSound H.honest (H.told host.old) (IfErr result (λ fault. (IsBefore fault → ⊥)
        → FromRead (IsUndone (H.told host.old).state) (H.told host.old) (H.told host.new))) }
    // On an honest host, where a change may still wait, the network was seen if it was before.
    ensures seen { H.honest → (net : NetData) → WaitsSeen net (H.told host.old) → WaitsSeen net (H.told host.new) }
    ensures moves { Steps Any (H.told host.old).stops (H.told host.new).stops }
    ensures saved { H.tells → OnOk result (saved_net (H.told host.new).state.cell ≡ saved_net (H.told host.old).state.cell) }
    // On an honest host, sound or not, what is taken back is the saved network.
    ensures reads { H.honest → IfOk result (λ was. was ≡ true → (H.told host.new).state.net ≡ saved_net (H.told host.new).state.cell) }
    ensures later { (H.told host.old).faults ≤ (H.told host.new).faults }
{
    let seen = match barrier(host) {
        Ok(seen) => seen,
        Err(Failed) => return Err(BackFault::HostFault(Left::NotBegun)),
    };
    match seen {
        Seen::Empty => Ok(false),
        Seen::Set {
            phase,
            made: _,
            deadline: _,
        } => match restore(host, alloc, phase) {
            Ok(()) => Ok(true),
            Err(fault) => Err(fault),
        },
    }
}

// Whether a change waits and its time isn't up.
fn waits(phase: Phase, made: u64, deadline: u64, now: u64) -> bool
    ensures { result ≡ not (taken_back now phase made deadline) }
{
    match phase {
        Phase::Applying => false,
        Phase::Waiting => !due(made, deadline, now),
    }
}

/// Takes back a change that is being made or is due. The moment is in seconds. It never answers `NoCheckpoint`.
pub fn take_back<H: Host>(host: &mut H, alloc: Global, now: u64) -> Result<Recovered, BackFault>
    ensures cleared { H.tells → IfOk result (λ done. IsClear done → Holds None (H.told host.new)) }
    ensures nothing { H.tells → result ≡ Ok Recovered.Nothing → cell_of (H.told host.old).state.cell ≡ None }
    ensures waiting { H.tells → (deadline : ℕ) → result ≡ Ok (Recovered.Waiting deadline)
        → (waits : Waits now (cell_of (H.told host.old).state.cell)) × (waits.checkpoint.deadline ≡ deadline) }
    ensures restored { H.tells → result ≡ Ok Recovered.Restored → IsTaken now (cell_of (H.told host.old).state.cell) }
    ensures kept { WhereSound H.honest (H.told host.old) (Kept (IsSettled now (H.told host.old).state) (H.told host.old) (H.told host.new)) }
    // On an honest host that is sound, what stands then is what a recovery at this moment makes of what stood.
    ensures ends { WhereSound H.honest (H.told host.old) (OnOk result ((stands : Standing) × IsSettled now (H.told host.old).state stands
        × Ends stands (H.told host.new))) }
    ensures healthy { WhereSound H.honest (H.told host.old) (IfErr result (λ fault. IsHealthy fault)) }
    // But for faults and memory its answer is what the restoring finds, also where the host isn't sound.
    ensures exact { H.honest → (taken : IsTaken now (cell_of (H.told host.old).state.cell))
        → Finds (saved_on taken.checkpoint.net (H.told host.old).state.net) result }
    ensures untaken { H.tells → (IsTaken now (cell_of (H.told host.old).state.cell) → ⊥) → IfErr result (λ fault. fault ≡ BackFault.HostFault Left.NotBegun) }
    ensures memory { H.tells → IsErrOf result BackFault.OutOfMemory → IsTaken now (cell_of (H.told host.old).state.cell) }
    ensures pending { H.tells → IsErrOf result (BackFault.HostFault Left.Pending) → IsTaken now (cell_of (H.told host.old).state.cell) }
    ensures unaccepted { H.tells → (k n : ℕ) (left : Left) → IsErrOf result (BackFault.KernelRefused k n left)
        → IsTaken now (cell_of (H.told host.old).state.cell) }
    // What its faults say on every host, and by what calls the saved network was given.
    ensures fails { IfErr result (λ fault. Fails H.tells (H.told host.old) (H.told host.new) fault) }
    ensures quiet { OnOk result (NoneRefused (H.told host.old).kernel (H.told host.new).kernel) }
    ensures gave { H.tells → result ≡ Ok Recovered.Restored → GaveSaved (H.told host.new) }
    ensures unmade { IfOk result (λ done. done ≢ Recovered.Restored → (H.told host.new).kernel ≡ (H.told host.old).kernel) }
    ensures idle { IfOk result (λ done. done ≢ Recovered.Restored → IsUnbegun H.tells (H.told host.old) (H.told host.new)) }
    ensures going { WhereSound H.honest (H.told host.old) (IfErr result (λ fault. (IsBefore fault → ⊥)
        → FromRead (IsSettled now (H.told host.old).state) (H.told host.old) (H.told host.new))) }
    // A change that waits then could be left before.
    ensures waits { H.tells → WaitsAsBefore (H.told host.old) (H.told host.new) }
    ensures moves { Steps Any (H.told host.old).stops (H.told host.new).stops }
    // On an honest host, sound or not, what is taken back reads as the saved network.
    ensures restored_reads { H.honest → (taken : IsTaken now (cell_of (H.told host.old).state.cell)) (saved : NetData)
        → taken.checkpoint.net ≡ Some saved → result ≡ Ok Recovered.Restored
        → standing (H.told host.new).state ≡ restored_to saved }
    ensures restored_saved { H.honest → result ≡ Ok Recovered.Restored → (H.told host.new).state.net ≡ saved_net (H.told host.new).state.cell }
    ensures later { (H.told host.old).faults ≤ (H.told host.new).faults }
{
    let seen = match barrier(host) {
        Ok(seen) => seen,
        Err(Failed) => return Err(BackFault::HostFault(Left::NotBegun)),
    };
    match seen {
        Seen::Empty => Ok(Recovered::Nothing),
        Seen::Set {
            phase,
            made,
            deadline,
        } => {
            if waits(phase, made, deadline, now) {
                return Ok(Recovered::Waiting { deadline });
            }
            match restore(host, alloc, phase) {
                Ok(()) => Ok(Recovered::Restored),
                Err(fault) => Err(fault),
            }
        }
    }
}
