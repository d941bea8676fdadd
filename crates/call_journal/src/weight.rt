//! What the records of a journal weigh.
ghost use Rattle.std.specs.Prelude.{◌≡◌, ℕ};
ghost use Rattle.call_journal.specs.Weight.{is_wide, weight_of};

use net_model::Call;

// What the record of a wide call weighs: about as many bytes of others take as long to replay.
const WIDE: u64 = 1024;

// Whether a call may change more than the link that it names: what hangs on that, or the routes over it.
fn is_wide(call: &Call) -> bool
    ensures { result ≡ is_wide call.now }
{
    matches!(
        call,
        Call::DelLink { .. } | Call::Down { .. } | Call::SetMtu { .. } | Call::DelAddress { .. }
    )
}

/// What the record of a call weighs, which has so many bytes.
pub fn record_weight(call: &Call, size: u64) -> u64
    ensures { result ≡ weight_of call.now size }
{
    if is_wide(call) { WIDE } else { size }
}
