//! Journals, carried out on a network.
ghost use Rattle.std.specs.Prelude.{◌≡◌, ◌-◌, Some, None, IfOk, OnErr, IsErrOf};
ghost use Rattle.call_journal.specs.Replay.{replayed, LedTo};
ghost use Rattle.call_journal.specs.Weight.{journal_weight};

use crate::fault::ReplayFault;
use crate::record::{is_open_at, record_at};
use crate::weight::record_weight;
use kernel_step::step;
use net_core::Net;
use std::alloc::Global;

/// Carries out the records that begin the bytes, up to the first gate that isn't open, and answers the place of that
/// gate, or the length of the bytes where they have none; and what is left of the spare weight.
pub fn replay(
    alloc: Global,
    net: &mut Net,
    bytes: &[u8],
    spare: u64,
) -> Result<(u64, u64), ReplayFault>
    // The network is the one that the calls of the records lead to, each of them accepted in turn.
    ensures replayed { IfOk result (λ end. replayed net.old bytes.now ≡ Some (net.new, end.0)) }
    ensures weighed { IfOk result (λ end. end.1 ≡ spare - journal_weight bytes.now) }
    // An open gate isn't followed by a whole record of a call that is accepted there.
    ensures bad { IsErrOf result ReplayFault.Bad → replayed net.old bytes.now ≡ None }
    // After a fault the network is one that a prefix of the records leads to.
    ensures led { LedTo net.old bytes.now net.new }
{
    let mut at: usize = 0;
    let mut left = spare;
    'records: while is_open_at(bytes, at) {
        let (call, behind) = record_at(alloc, bytes, at)?;
        step(net, &call)?;
        left = left.saturating_sub(record_weight(&call, (behind - at) as u64));
        at = behind;
    }
    Ok((at as u64, left))
}
