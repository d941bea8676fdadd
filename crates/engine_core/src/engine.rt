//! The calls that begin a change, and end one that waits.
ghost use Rattle.std.specs.Prelude.{◌≡◌, ◌≢◌, ◌≤◌, ℕ, true, Some, Ok, Err, IfErr, IsErrOf};
ghost use Rattle.net_model.specs.NetData.{NetData};
ghost use Rattle.document_model.specs.Entries.{is_document};
ghost use Rattle.host_core.specs.Faults.{Rose, RoseTwice};
ghost use Rattle.host_core.specs.HostView.{State, SameKernel};
ghost use Rattle.checkpoint_cell.specs.Settled.{standing, restored_to};
ghost use Rattle.plan_model.specs.Undisturbed.{IsUndisturbed};
ghost use Rattle.merge_model.specs.MergedNet.{merge};
ghost use Rattle.engine_model.specs.Machine.{asked, apply, commit, recover};
ghost use Rattle.engine_model.specs.Sound.{WhereSound};
ghost use Rattle.engine_model.specs.Stations.{Only, Settled, Either, Kept, at, entry_of, left_by};
ghost use Rattle.engine_model.specs.Compared.{Compared};
ghost use Rattle.engine_model.specs.Exit.{ApplyExit, CommitExit};
ghost use Rattle.engine_model.specs.Refusals.{ApplyCounts};
ghost use Rattle.engine_model.specs.Failing.{IsUnbegun, ApplyIdle, ApplyIntact, ApplyWaits};
ghost use Rattle.engine_model.specs.Faults.{ApplyAnswers, ApplyExact, CommitAnswers, ApplySays, MayStandHalf, Tries, FailsTwice, Dumps, Backs, HasTaken};
ghost use Rattle.engine_core.specs.Calm.{CalmSince, UpToNow};
ghost use Rattle.engine_core.specs.Committing.{IsRefusal};
ghost use Rattle.engine_core.specs.Saying.{DamagedSince};

use crate::applying::settle_and_change;
use crate::committing::end_waiting;
use document_model::Doc;
use engine_model::{Applied, ApplyFault, ApplyOpts, CommitFault};
use host_core::Host;
use std::alloc::Global;

/// Makes the change that a document wants, whole or not at all. The document is one that the readers give. The moment is
/// in seconds. A change that is being made or is due is taken back first.
///
/// It answers `Pending` where a change waits, `MergeRefused` where the document breaks a rule of the merge, `NotVerified`
/// where what was found after the change isn't what was wanted, `InDoubt` where the change is made and the host failed when
/// its checkpoint was cleared, and the faults of `rollback` but `NoCheckpoint`, of the change or of taking one back.
pub fn apply<H: Host>(
    host: &mut H,
    alloc: Global,
    doc: &Doc,
    opts: &ApplyOpts,
    now: u64,
) -> Result<Applied, ApplyFault>
    requires { is_document doc.now ≡ true }
    // What is answered: on every host, and on an honest host that is sound.
    ensures says { ApplySays H.tells (asked doc.now opts.now now) (H.told host.old) (H.told host.new) result }
    // How many calls were refused, or that none was made, which every host counts.
    ensures counts { ApplyCounts (H.told host.old).kernel (H.told host.new).kernel result }
    ensures answer { WhereSound H.honest (H.told host.old) (ApplyAnswers (asked doc.now opts.now now) (H.told host.old) (H.told host.new) result) }
    // On an honest host that needn't be sound: but for faults and memory the answer is the machine's, and so is what the host reads as.
    ensures exact { H.honest → ApplyExact (Rose (H.told host.old).faults (H.told host.new).faults)
        (apply (asked doc.now opts.now now) (standing (H.told host.old).state)) (H.told host.new) result }
    // On every host: where the answer comes before anything was begun, the host is as it was. Of a refused document this is said on
    // hosts that tell their content, where no change was to be taken back first.
    ensures unbegun { ApplyIdle H.tells now (H.told host.old) (H.told host.new) result }
    // Where a change waits that isn't due: whatever is answered, the host is as it was.
    ensures waits { ApplyWaits H.tells now (H.told host.old) (H.told host.new) }
    // On an honest host, sound or not, whose count didn't rise: damage and other devices leave the host as it was.
    ensures intact { H.honest → (Rose (H.told host.old).faults (H.told host.new).faults → ⊥)
        → ApplyIntact H.tells (H.told host.old) (H.told host.new) result }
    // What stops leave at the exit, what the host reads as then, and what stops leave at each moment.
    ensures exit { WhereSound H.honest (H.told host.old) (ApplyExit (asked doc.now opts.now now) (entry_of (H.told host.old)) (left_by (H.told host.new))
        (Rose (H.told host.old).faults (H.told host.new).faults) (RoseTwice (H.told host.old).faults (H.told host.new).faults) result) }
    ensures reads { WhereSound H.honest (H.told host.old) (ApplyExit (asked doc.now opts.now now) (at (standing (H.told host.old).state)) (Only (standing
        (H.told host.new).state)) (Rose (H.told host.old).faults (H.told host.new).faults) (RoseTwice (H.told host.old).faults
        (H.told host.new).faults) result) }
    ensures kept { WhereSound H.honest (H.told host.old) (Kept (Either (Settled now (entry_of (H.told host.old))) (Only (apply (asked doc.now opts.now now)
        (standing (H.told host.old).state)).after)) (H.told host.old) (H.told host.new)) }
    // A change that waits and wasn't left at the entry is left only where the last dump gave its network and no kernel call came after
    // it, also behind a fault, unless it isn't to be verified.
    ensures seen { WhereSound H.honest (H.told host.old) (Compared (asked doc.now opts.now now) (H.told host.old) (H.told host.new)) }
    // Where no checkpoint stood and nothing failed, each pair that was left on the way has each link that the change needn't
    // touch, its addresses and its routes that stand in both networks as they were.
    ensures undisturbed { WhereSound H.honest (H.told host.old) ((from to : NetData) → standing (H.told host.old).state ≡ restored_to from
        → merge from doc.now ≡ Ok to → (Rose (H.told host.old).faults (H.told host.new).faults → ⊥) → result ≢ Err ApplyFault.OutOfMemory → (s : State)
        → (H.told host.new).stops.left_since (H.told host.old).stops.moment s → (net : NetData) × (s.net ≡ Some net) × IsUndisturbed from to net) }
    // For a command that began earlier: the same of each pair that was left since that moment, where it holds of those before
    // this call; and what is damaged was left since that moment, too.
    ensures calm { WhereSound H.honest (H.told host.old) ((from to : NetData) → standing (H.told host.old).state ≡ restored_to from → merge from doc.now ≡ Ok to
        → (Rose (H.told host.old).faults (H.told host.new).faults → ⊥) → result ≢ Err ApplyFault.OutOfMemory
        → UpToNow (H.told host.old) (λ since. CalmSince from to since (H.told host.old) → CalmSince from to since (H.told host.new))) }
    ensures damaged { H.tells → UpToNow (H.told host.old) (λ since. (area : ℕ) → IsErrOf result (ApplyFault.Damaged area)
        → DamagedSince since area (H.told host.new)) }
    // That a change may stand half way is told only where a restoring was tried.
    ensures tries { Tries (MayStandHalf H.tells (asked doc.now opts.now now) (H.told host.old))
        (H.told host.old).faults (H.told host.old).kernel.refusals (H.told host.new) result }
    // On an honest host, sound or not, of a host fault only where it failed twice, unless a change was to be taken back first.
    ensures twice { H.honest → FailsTwice (HasTaken now (standing (H.told host.old).state).cell) (H.told host.old).faults (H.told host.new) result }
    // What the option to skip verifying skips, by what the host counts and what its last dump gave.
    ensures dumps { Dumps H.tells opts.now.no_verify (H.told host.new) result }
    // On an honest host, sound or not, where it says that all is taken back, the network is the one from before.
    ensures backs { H.honest → Backs (recover now (standing (H.told host.old).state)).after.net (H.told host.new) result }
    ensures moment { (H.told host.old).stops.moment ≤ (H.told host.new).stops.moment }
    ensures later { (H.told host.old).faults ≤ (H.told host.new).faults }
{
    settle_and_change(host, alloc, doc, opts, now)
}

/// Ends a change that waits and isn't due. The moment is in seconds. It takes no memory.
///
/// It answers `NoCheckpoint` where there is none, `Unfinished` where the change is being made, `Expired` where it is due,
/// `HostFault` where the host failed before that was seen, and `InDoubt` where it failed when the checkpoint was cleared.
pub fn commit<H: Host>(host: &mut H, now: u64) -> Result<(), CommitFault>
    // What is answered on every host.
    ensures answer { CommitAnswers H.tells now (H.told host.old) (H.told host.new) result }
    // What stops leave at the exit, what the host reads as then, and what stops leave at each moment.
    ensures exit { WhereSound H.tells (H.told host.old) (CommitExit now (entry_of (H.told host.old)) (left_by (H.told host.new)) result) }
    ensures reads { WhereSound H.tells (H.told host.old) (CommitExit now (at (standing (H.told host.old).state)) (Only (standing
        (H.told host.new).state)) result) }
    ensures kept { WhereSound H.tells (H.told host.old) (Kept (Only (commit now (standing (H.told host.old).state)).after) (H.told host.old)
        (H.told host.new)) }
    // A refusal, and a fault before the clearing, leave the host as it was.
    ensures unbegun { IfErr result (λ fault. IsRefusal fault → IsUnbegun H.tells (H.told host.old) (H.told host.new)) }
    ensures kernel { SameKernel H.tells (H.told host.old) (H.told host.new) }
    ensures later { (H.told host.old).faults ≤ (H.told host.new).faults }
{
    end_waiting(host, now)
}
