//! What is counted of a run, and why one wasn't made to its end.

use engine_model::{ApplyFault, BackFault};
use host_core::{DumpFault, MakeFault};
use merge_model::MergeFault;

/// After so many seconds a change that waits is taken back.
pub const TIMEOUT: u32 = 60;
/// The moment at which the first document is applied to stay, in seconds.
pub const FIRST_AT: u64 = 100;
/// The moment at which the second document is applied, in seconds.
pub const SECOND_AT: u64 = 200;

/// What is counted of a run.
#[derive(Clone, Copy)]
pub struct Summary {
    /// The links of the last network.
    pub links: u32,
    /// The calls of a plan from the first network to what the first document makes of it.
    pub first_calls: u32,
    /// The calls of a plan from there to what the second document makes of that.
    pub second_calls: u32,
    /// The sum of the ids of those VLANs of the last network whose names have two parts, of which the second is `v`.
    pub ids: u64,
    /// The sum of the metrics of the routes of the last network.
    pub metrics: u64,
}

/// Why a run wasn't carried out: the fault of the call that failed.
pub enum WorkFault {
    Make(MakeFault),
    Dump(DumpFault),
    Apply(ApplyFault),
    Merge(MergeFault),
    Back(BackFault),
    OutOfMemory,
}

// By hand, so that a proof sees one call where one is dropped, and not a step for each part.
impl Drop for WorkFault {
    fn drop(self) {
        match self {
            WorkFault::Make(_)
            | WorkFault::Dump(_)
            | WorkFault::Apply(_)
            | WorkFault::Merge(_)
            | WorkFault::Back(_)
            | WorkFault::OutOfMemory => {}
        }
    }
}
