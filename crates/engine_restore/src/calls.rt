//! The calls that take a change back.
ghost use Rattle.std.specs.Prelude.{◌≡◌, ◌≢◌, ◌≤◌, ℕ, None, Ok, IfOk, IfErr, OnOk, IsErrOf, IsSome};
ghost use Rattle.checkpoint_cell.specs.Steps.{Holds};
ghost use Rattle.checkpoint_cell.specs.Settled.{standing};
ghost use Rattle.engine_model.specs.Machine.{rollback, recover, settle, due_at};
ghost use Rattle.engine_model.specs.Sound.{WhereSound};
ghost use Rattle.engine_model.specs.Stations.{Only, Kept, at, entry_of, left_by};
ghost use Rattle.engine_model.specs.Exit.{BackExit};
ghost use Rattle.engine_model.specs.Answers.{IsBefore, IsClear};
ghost use Rattle.engine_model.specs.Compared.{WaitsAsBefore};
ghost use Rattle.engine_model.specs.Refusals.{BackCounts};
ghost use Rattle.engine_model.specs.Failing.{IsUnbegun};
ghost use Rattle.engine_model.specs.Faults.{BackAnswers, BackExact, BackSays, HasSet, HasTaken, GaveSaved};

use crate::restoring::{go_back, take_back};
use engine_model::{BackFault, Recovered};
use host_core::Host;
use std::alloc::Global;

/// Takes back a change, whether it waits or is being made.
///
/// It answers `NoCheckpoint` where there is none, `Damaged` where the checkpoint has no whole image or there is no network,
/// `HardwareDiffers` where the saved network is of other devices, `KernelRefused` where the kernel refuses a call on the way
/// back, `HostFault` where the host failed, and `OutOfMemory`.
pub fn rollback<H: Host>(host: &mut H, alloc: Global) -> Result<(), BackFault>
    ensures says { BackSays H.tells (rollback (standing (H.told host.old).state)).answer (H.told host.old) (H.told host.new) result }
    ensures answer { WhereSound H.honest (H.told host.old) (BackAnswers (HasSet (standing (H.told host.old).state).cell) (rollback (standing
        (H.told host.old).state)) (H.told host.old) (H.told host.new) result) }
    // Also where the host isn't sound: but for faults and memory the answer is the machine's.
    ensures exact { H.honest → BackExact (rollback (standing (H.told host.old).state)).answer result }
    ensures exit { WhereSound H.honest (H.told host.old) (BackExit (rollback (standing (H.told host.old).state)).after (entry_of (H.told host.old)) (left_by
        (H.told host.new)) result) }
    ensures reads { WhereSound H.honest (H.told host.old) (BackExit (rollback (standing (H.told host.old).state)).after (at (standing
        (H.told host.old).state)) (Only (standing (H.told host.new).state)) result) }
    ensures kept { WhereSound H.honest (H.told host.old) (Kept (Only (rollback (standing (H.told host.old).state)).after) (H.told host.old) (H.told host.new)) }
    // What every host counts, and by what calls the saved network was given.
    ensures counts { BackCounts (H.told host.old).kernel (H.told host.new).kernel result }
    ensures gave { H.tells → OnOk result (GaveSaved (H.told host.new)) }
    // It is done only where one stands, and then none does.
    ensures done { H.tells → OnOk result (HasSet (standing (H.told host.old).state).cell) }
    ensures cleared { H.tells → OnOk result (Holds None (H.told host.new)) }
    // Also where the host isn't sound: once it is done, the host reads as what the machine leaves.
    ensures after { H.honest → OnOk result (standing (H.told host.new).state ≡ (rollback (standing (H.told host.old).state)).after) }
    // It begins only where one stands.
    ensures begun { H.tells → IfErr result (λ fault. (IsBefore fault → ⊥) → HasSet (standing (H.told host.old).state).cell) }
    // It takes memory only where a checkpoint stands.
    ensures memory { H.tells → IsErrOf result BackFault.OutOfMemory → HasSet (standing (H.told host.old).state).cell }
    // What is answered before anything was begun leaves the host as it was.
    ensures unbegun { IfErr result (λ fault. IsBefore fault → IsUnbegun H.tells (H.told host.old) (H.told host.new)) }
    ensures moment { (H.told host.old).stops.moment ≤ (H.told host.new).stops.moment }
    ensures later { (H.told host.old).faults ≤ (H.told host.new).faults }
{
    match go_back(host, alloc) {
        Ok(true) => Ok(()),
        Ok(false) => Err(BackFault::NoCheckpoint),
        Err(fault) => Err(fault),
    }
}

/// Takes back a change that is being made or is due. The moment is in seconds.
///
/// It answers the faults of `rollback`, but never `NoCheckpoint`.
pub fn recover<H: Host>(host: &mut H, alloc: Global, now: u64) -> Result<Recovered, BackFault>
    ensures says { BackSays H.tells (recover now (standing (H.told host.old).state)).answer (H.told host.old) (H.told host.new) result }
    ensures answer { WhereSound H.honest (H.told host.old) (BackAnswers (HasTaken now (standing (H.told host.old).state).cell) (recover now (standing
        (H.told host.old).state)) (H.told host.old) (H.told host.new) result) }
    // Also where the host isn't sound: but for faults and memory the answer is the machine's.
    ensures exact { H.honest → BackExact (recover now (standing (H.told host.old).state)).answer result }
    ensures exit { WhereSound H.honest (H.told host.old) (BackExit (recover now (standing (H.told host.old).state)).after (entry_of (H.told host.old))
        (left_by (H.told host.new)) result) }
    ensures reads { WhereSound H.honest (H.told host.old) (BackExit (recover now (standing (H.told host.old).state)).after (at (standing
        (H.told host.old).state)) (Only (standing (H.told host.new).state)) result) }
    ensures kept { WhereSound H.honest (H.told host.old) (Kept (Only (recover now (standing (H.told host.old).state)).after) (H.told host.old)
        (H.told host.new)) }
    // What every host counts, and by what calls the saved network was given.
    ensures counts { BackCounts (H.told host.old).kernel (H.told host.new).kernel result }
    ensures gave { H.tells → result ≡ Ok Recovered.Restored → GaveSaved (H.told host.new) }
    // It takes memory only where a change is to be taken back.
    ensures memory { H.tells → IsErrOf result BackFault.OutOfMemory → HasTaken now (standing (H.told host.old).state).cell }
    // It never answers, as a rollback does, that there is no checkpoint.
    ensures set_there { IsErrOf result BackFault.NoCheckpoint → ⊥ }
    // Where it restores nothing, it makes no kernel call, and says so of each host that tells its content.
    ensures unmade { IfOk result (λ done. done ≢ Recovered.Restored → (H.told host.new).kernel ≡ (H.told host.old).kernel) }
    ensures nothing { H.tells → result ≡ Ok Recovered.Nothing → (recover now (standing (H.told host.old).state)).answer ≡ Ok Recovered.Nothing }
    ensures waiting { H.tells → (deadline : ℕ) → result ≡ Ok (Recovered.Waiting deadline)
        → (recover now (standing (H.told host.old).state)).answer ≡ Ok (Recovered.Waiting deadline) }
    ensures restored { H.tells → result ≡ Ok Recovered.Restored → HasTaken now (standing (H.told host.old).state).cell }
    // For a command that goes on behind it: no checkpoint stands then, and where none stood nothing was changed, nor where one
    // waits.
    ensures cleared { H.tells → IfOk result (λ done. IsClear done → Holds None (H.told host.new)) }
    ensures idle { IfOk result (λ done. done ≢ Recovered.Restored → IsUnbegun H.tells (H.told host.old) (H.told host.new)) }
    // Also where the host isn't sound: once it is done, the host reads as what the machine leaves.
    ensures after { H.honest → OnOk result (standing (H.told host.new).state ≡ (recover now (standing (H.told host.old).state)).after) }
    // It begins only where a change is to be taken back.
    ensures begun { H.tells → IfErr result (λ fault. (IsBefore fault → ⊥) → HasTaken now (standing (H.told host.old).state).cell) }
    // What is answered before anything was begun leaves the host as it was.
    ensures unbegun { IfErr result (λ fault. IsBefore fault → IsUnbegun H.tells (H.told host.old) (H.told host.new)) }
    // A change that waits then could be left before.
    ensures waits { H.tells → WaitsAsBefore (H.told host.old) (H.told host.new) }
    ensures moment { (H.told host.old).stops.moment ≤ (H.told host.new).stops.moment }
    ensures later { (H.told host.old).faults ≤ (H.told host.new).faults }
{
    take_back(host, alloc, now)
}

// When the change is due, where one waits.
fn due_at(done: Recovered) -> Option<u64>
    ensures { result ≡ due_at done }
{
    match done {
        Recovered::Waiting { deadline } => Some(deadline),
        Recovered::Nothing => None,
        Recovered::Restored => None,
    }
}

/// Takes back a change that is being made or is due, and answers when one that waits is due. Moments are in seconds. The
/// faults are those of `recover`.
pub fn settle<H: Host>(host: &mut H, alloc: Global, now: u64) -> Result<Option<u64>, BackFault>
    ensures says { BackSays H.tells (settle now (standing (H.told host.old).state)).answer (H.told host.old) (H.told host.new) result }
    ensures answer { WhereSound H.honest (H.told host.old) (BackAnswers (HasTaken now (standing (H.told host.old).state).cell) (settle now (standing
        (H.told host.old).state)) (H.told host.old) (H.told host.new) result) }
    // Also where the host isn't sound: but for faults and memory the answer is the machine's.
    ensures exact { H.honest → BackExact (settle now (standing (H.told host.old).state)).answer result }
    ensures exit { WhereSound H.honest (H.told host.old) (BackExit (recover now (standing (H.told host.old).state)).after (entry_of (H.told host.old))
        (left_by (H.told host.new)) result) }
    ensures reads { WhereSound H.honest (H.told host.old) (BackExit (recover now (standing (H.told host.old).state)).after (at (standing
        (H.told host.old).state)) (Only (standing (H.told host.new).state)) result) }
    ensures kept { WhereSound H.honest (H.told host.old) (Kept (Only (recover now (standing (H.told host.old).state)).after) (H.told host.old)
        (H.told host.new)) }
    // What every host counts, and by what calls the saved network was given.
    ensures counts { BackCounts (H.told host.old).kernel (H.told host.new).kernel result }
    ensures gave { H.tells → HasTaken now (standing (H.told host.old).state).cell → OnOk result (GaveSaved (H.told host.new)) }
    // It takes memory only where a change is to be taken back.
    ensures memory { H.tells → IsErrOf result BackFault.OutOfMemory → HasTaken now (standing (H.told host.old).state).cell }
    // It never answers, as a rollback does, that there is no checkpoint.
    ensures set_there { IsErrOf result BackFault.NoCheckpoint → ⊥ }
    // Once it is done, no checkpoint stands but one that waits. Where one waits, or nothing was to be taken back, nothing was
    // changed.
    ensures cleared { H.tells → IfOk result (λ due. due ≡ None → Holds None (H.told host.new)) }
    ensures idle { IfOk result (λ due. IsSome due → IsUnbegun H.tells (H.told host.old) (H.told host.new)) }
    ensures untaken { H.tells → (HasTaken now (standing (H.told host.old).state).cell → ⊥)
        → OnOk result (IsUnbegun H.tells (H.told host.old) (H.told host.new)) }
    // Also where the host isn't sound: once it is done, the host reads as what the machine leaves.
    ensures after { H.honest → OnOk result (standing (H.told host.new).state ≡ (recover now (standing (H.told host.old).state)).after) }
    // It begins only where a change is to be taken back.
    ensures begun { H.tells → IfErr result (λ fault. (IsBefore fault → ⊥) → HasTaken now (standing (H.told host.old).state).cell) }
    // What is answered before anything was begun leaves the host as it was.
    ensures unbegun { IfErr result (λ fault. IsBefore fault → IsUnbegun H.tells (H.told host.old) (H.told host.new)) }
    ensures moment { (H.told host.old).stops.moment ≤ (H.told host.new).stops.moment }
    ensures later { (H.told host.old).faults ≤ (H.told host.new).faults }
{
    match recover(host, alloc, now) {
        Ok(done) => Ok(due_at(done)),
        Err(fault) => Err(fault),
    }
}
