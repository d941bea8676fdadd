//! Texts of calls.
ghost use Rattle.std.specs.Prelude.{◌≡◌};
ghost use Rattle.top_model.specs.Orders.{batch_cause, calls_of};
ghost use Rattle.order_reading.specs.Reading.{Answers, itself};

use ip_batch::{BatchFault, read_batch};
use net_model::{Call, Items};
use std::alloc::Global;
use top_model::Cause;

// Why a text of calls is refused.
fn batch_cause(fault: BatchFault) -> Cause
    ensures { result ≡ batch_cause fault }
{
    match fault {
        BatchFault::Line(line) => Cause::BatchLine(line),
        BatchFault::TooLarge => Cause::BatchLarge,
        BatchFault::OutOfMemory => Cause::OutOfMemory,
    }
}

/// The calls that the bytes are the lines of.
pub fn calls_in(alloc: Global, bytes: &[u8]) -> Result<Items<Call>, Cause>
    ensures { Answers itself (calls_of bytes.now) result }
{
    match read_batch(alloc, bytes) {
        Ok(calls) => Ok(Items::of(calls)),
        Err(fault) => Err(batch_cause(fault)),
    }
}
