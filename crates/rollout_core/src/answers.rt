//! Which event the answer of each call is.
ghost use Rattle.std.specs.Prelude.{◌≡◌};
ghost use Rattle.rollout_core.specs.Answers.{opening, opening_fault, in_time, probing, closing, returning};

use checkpoint_cell::{Phase, Seen, due};
use engine_model::{Applied, ApplyFault, BackFault, CheckFault, Checked, CommitFault, Left};
use rollout_model::Event;

fn opening_fault(i: u32, fault: ApplyFault) -> Event
    ensures { result ≡ opening_fault i fault }
{
    match fault {
        ApplyFault::Pending(_) => Event::Refused(i),
        ApplyFault::MergeRefused(_) => Event::Refused(i),
        ApplyFault::HostFault(Left::NotBegun) => Event::Refused(i),
        ApplyFault::HostFault(Left::RolledBack) => Event::Refused(i),
        ApplyFault::KernelRefused(_, _, Left::RolledBack) => Event::Refused(i),
        ApplyFault::NotVerified(_, Left::RolledBack) => Event::Refused(i),
        ApplyFault::OutOfMemory => Event::Starved(i),
        _ => Event::Unclear(i),
    }
}

/// Of a change that is to wait.
pub(crate) fn opening(i: u32, answer: Result<Applied, ApplyFault>) -> Event
    ensures { result ≡ opening i answer }
{
    match answer {
        Ok(_) => Event::Open(i),
        Err(fault) => opening_fault(i, fault),
    }
}

// Whether a change waits, and its time isn't up.
fn in_time(now: u64, cell: Seen) -> bool
    ensures { result ≡ in_time now cell }
{
    match cell {
        Seen::Set {
            phase: Phase::Waiting,
            made,
            deadline,
        } => !due(made, deadline, now),
        _ => false,
    }
}

/// Of a look at a node at a moment, in seconds.
pub(crate) fn probing(now: u64, i: u32, answer: Result<Checked, CheckFault>) -> Event
    ensures { result ≡ probing now i answer }
{
    match answer {
        Ok(checked) => {
            if in_time(now, checked.cell) {
                Event::Good(i)
            } else {
                Event::Bad(i)
            }
        }
        Err(CheckFault::OutOfMemory) => Event::Starved(i),
        Err(_) => Event::Unclear(i),
    }
}

/// Of a commit.
pub(crate) fn closing(i: u32, answer: Result<(), CommitFault>) -> Event
    ensures { result ≡ closing i answer }
{
    match answer {
        Ok(()) => Event::Closed(i),
        Err(CommitFault::Expired(_, _)) => Event::Late(i),
        Err(_) => Event::Unclear(i),
    }
}

/// Of a rollback.
pub(crate) fn returning(i: u32, answer: Result<(), BackFault>) -> Event
    ensures { result ≡ returning i answer }
{
    match answer {
        Ok(()) => Event::Back(i),
        Err(BackFault::OutOfMemory) => Event::Starved(i),
        Err(_) => Event::Unclear(i),
    }
}
