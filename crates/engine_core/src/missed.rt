//! Why a change that was begun didn't come to its end.

use net_core::Net;

/// Why a change that was begun didn't come to its end.
#[derive(Drop)]
pub enum Missed {
    /// A call of the host failed.
    Failed,
    /// The kernel refused a call of the plan: the number of the refusal, and the number of the call from 1.
    Refused(u8, u64),
    /// The host told no network when the result was to be verified.
    Damaged,
    /// This network was found, and isn't the wanted one.
    Differs(Net),
    OutOfMemory,
}
