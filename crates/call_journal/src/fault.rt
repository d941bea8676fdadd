//! Why bytes are no call, and no journal.

use kernel_model::StepFault;
use net_image::FieldFault;

/// Why no call was read.
#[derive(Clone, Copy)]
pub enum RecordFault {
    /// The bytes are those of no call.
    Bad,
    OutOfMemory,
}

impl From<FieldFault> for RecordFault {
    ghost use Rattle.std.specs.Prelude.{◌≡◌};
    ghost use Rattle.call_journal.specs.FaultOf.{record_fault_of};

    ghost from_gives = { λ field fault. fault ≡ record_fault_of field };

    fn from(fault: FieldFault) -> Self {
        match fault {
            FieldFault::Bad => RecordFault::Bad,
            FieldFault::OutOfMemory => RecordFault::OutOfMemory,
        }
    }
}

/// Why a journal wasn't replayed to its end.
#[derive(Clone, Copy)]
pub enum ReplayFault {
    /// An open gate isn't followed by a whole record of a call that is accepted there.
    Bad,
    OutOfMemory,
}

impl From<RecordFault> for ReplayFault {
    ghost use Rattle.std.specs.Prelude.{◌≡◌};
    ghost use Rattle.call_journal.specs.FaultOf.{replay_fault_of};

    ghost from_gives = { λ record_fault fault. fault ≡ replay_fault_of record_fault };

    fn from(fault: RecordFault) -> Self {
        match fault {
            RecordFault::Bad => ReplayFault::Bad,
            RecordFault::OutOfMemory => ReplayFault::OutOfMemory,
        }
    }
}

impl From<StepFault> for ReplayFault {
    ghost use Rattle.std.specs.Prelude.{◌≡◌};
    ghost use Rattle.call_journal.specs.FaultOf.{step_fault_of};

    ghost from_gives = { λ step_fault fault. fault ≡ step_fault_of step_fault };

    fn from(fault: StepFault) -> Self {
        match fault {
            StepFault::Refused(_) => ReplayFault::Bad,
            StepFault::OutOfMemory => ReplayFault::OutOfMemory,
        }
    }
}
