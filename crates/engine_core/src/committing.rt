//! The end of a change that waits: it is committed, and its checkpoint cleared.
ghost use Rattle.std.specs.Prelude.{◌≡◌, ◌⊎◌, ◌≤◌, ℕ, true, None, Some, OnOk, IfErr, IsErrOf};
ghost use Rattle.host_core.specs.Faults.{Rose};
ghost use Rattle.host_core.specs.HostView.{SameKernel};
ghost use Rattle.checkpoint_cell.specs.Cell.{Checkpoint, cell_of, is_due};
ghost use Rattle.checkpoint_cell.specs.Steps.{Holds};
ghost use Rattle.engine_model.specs.Sound.{WhereSound};
ghost use Rattle.engine_model.specs.Failing.{IsUnbegun};
ghost use Rattle.engine_core.specs.Committing.{IsRefusal, IsLook};
ghost use Rattle.engine_model.specs.Stations.{Waits, Ends, Kept, committed, IsCommitted, FromRead};
ghost use Rattle.checkpoint_cell.specs.Settled.{standing};

use checkpoint_cell::{Phase, Seen, barrier, clear, due};
use engine_model::CommitFault;
use host_core::{Failed, Host};

/// Ends a change that waits and whose time isn't up.
pub fn end_waiting<H: Host>(host: &mut H, now: u64) -> Result<(), CommitFault>
    // When each answer comes.
    ensures waited { H.tells → OnOk result (Waits now (cell_of (H.told host.old).state.cell)) }
    ensures none { H.tells → IsErrOf result CommitFault.NoCheckpoint → cell_of (H.told host.old).state.cell ≡ None }
    ensures unfinished { H.tells → (made deadline : ℕ) → IsErrOf result (CommitFault.Unfinished made deadline)
        → (checkpoint : Checkpoint) × (cell_of (H.told host.old).state.cell ≡ Some checkpoint)
        × (checkpoint.phase ≡ Phase.Applying) × (checkpoint.made ≡ made) × (checkpoint.deadline ≡ deadline) }
    ensures expired { H.tells → (made deadline : ℕ) → IsErrOf result (CommitFault.Expired made deadline)
        → (checkpoint : Checkpoint) × (cell_of (H.told host.old).state.cell ≡ Some checkpoint)
        × (checkpoint.phase ≡ Phase.Waiting) × (is_due made deadline now ≡ true) × (checkpoint.made ≡ made)
        × (checkpoint.deadline ≡ deadline) }
    ensures fault { IsErrOf result CommitFault.HostFault ⊎ IsErrOf result CommitFault.InDoubt → Rose (H.told host.old).faults (H.told host.new).faults }
    ensures later { (H.told host.old).faults ≤ (H.told host.new).faults }
    ensures kernel { SameKernel H.tells (H.told host.old) (H.told host.new) }

    // What a stop leaves, at each moment and at the exit.
    ensures kept { WhereSound H.tells (H.told host.old) (Kept (IsCommitted now (H.told host.old).state) (H.told host.old) (H.told host.new)) }
    ensures done { WhereSound H.tells (H.told host.old) (OnOk result (Ends (committed (H.told host.old).state) (H.told host.new))) }
    ensures unbegun { IfErr result (λ fault. IsRefusal fault → IsUnbegun H.tells (H.told host.old) (H.told host.new)) }
    ensures looked { H.tells → IfErr result (λ fault. IsLook fault → Holds (cell_of (H.told host.old).state.cell) (H.told host.new)) }
    ensures left { H.tells → OnOk result (standing (H.told host.new).state ≡ committed (H.told host.old).state) }
    ensures doubted { WhereSound H.tells (H.told host.old) (IsErrOf result CommitFault.InDoubt
        → FromRead (IsCommitted now (H.told host.old).state) (H.told host.old) (H.told host.new)) }
    ensures doubt { H.tells → IsErrOf result CommitFault.InDoubt → Waits now (cell_of (H.told host.old).state.cell) }
{
    let seen = match barrier(host) {
        Ok(seen) => seen,
        Err(Failed) => return Err(CommitFault::HostFault),
    };
    match seen {
        Seen::Empty => Err(CommitFault::NoCheckpoint),
        Seen::Set {
            phase,
            made,
            deadline,
        } => match phase {
            Phase::Applying => Err(CommitFault::Unfinished(made, deadline)),
            Phase::Waiting => {
                if due(made, deadline, now) {
                    return Err(CommitFault::Expired(made, deadline));
                }
                match clear(host) {
                    Ok(()) => Ok(()),
                    Err(Failed) => Err(CommitFault::InDoubt),
                }
            }
        },
    }
}
