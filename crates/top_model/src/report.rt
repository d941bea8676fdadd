//! What a command answers.

use base_model::{Items, OutOfMemory};
use doc_tree::JsonFault;
use document_model::Refused;
use engine_model::Left;
use net_core::Net;
use net_model::Name;
use policy_model::PolicyFault;
use rollout_model::Event;
use std::alloc::{AllocError, AllocFailed};
use tree_schema::SchemaFault;
use yaml_read::YamlFault;

/// Why an input is no document, no policy or no hardware list, or why a policy has no value that is a document. Out of memory
/// is a cause of its own.
pub enum DocFault {
    Json(JsonFault),
    Yaml(YamlFault),
    Schema(SchemaFault),
    Policy(PolicyFault),
}

// By hand, so that a proof sees one call where one is dropped, and not a step for each part.
impl Drop for DocFault {
    fn drop(self) {
        match self {
            DocFault::Json(_) | DocFault::Yaml(_) | DocFault::Schema(_) | DocFault::Policy(_) => {}
        }
    }
}

/// Why a command ended as it did.
pub enum Cause {
    /// What was asked is done.
    Done,
    /// The input is no document, no policy or no hardware list, or a policy has no value that is a document.
    DocRefused(DocFault),
    /// The document can't be merged with the running state.
    MergeRefused(Refused),
    /// The words are no command, or none that may stand there.
    Usage,
    /// The line of a script, from 1, that is none.
    BadLine(u64),
    /// The line of a text of calls, from 1, that is no spelling of a call.
    BatchLine(u64),
    /// The text of calls has too many bytes.
    BatchLarge,
    /// Of calls that are tried out the one of this number, from 1, is refused, with the number of the refusal.
    CallRefused(u64, u8),
    /// A folder of documents failed. A single command has none, so it never ends so.
    FolderFault,
    /// A rollout was halted by this event. A single command never ends so.
    Halted(Event),
    /// A change waits until this moment, in seconds.
    Pending(u64),
    /// There is no checkpoint.
    NoCheckpoint,
    /// A change that is being made, with its making and its deadline, in seconds.
    Unfinished(u64, u64),
    /// A change that is due, with its making and its deadline, in seconds.
    Expired(u64, u64),
    /// There is a network already.
    Exists,
    /// The source has no such input.
    NoSuchName,
    /// The source failed.
    ReadFault,
    /// A sink failed; the status is that of the answer that was to be written.
    WriteFault(u8),
    /// The host failed.
    HostFault(Left),
    /// The end of a change failed.
    InDoubt,
    /// The kernel refused a call: the number of the refusal, and the number of the call from 1.
    KernelRefused(u8, u64, Left),
    /// What was found isn't what was wanted.
    NotVerified(Net, Left),
    /// The area of this number is no image: 0 is the kernel's, 1 the checkpoint's.
    Damaged(u8),
    /// The Ethernet devices on which the saved and the running network differ, in order.
    HardwareDiffers(Items<Name>),
    /// Out of memory.
    OutOfMemory,
}

// By hand, so that a proof sees one call where one is dropped, and not a step for each part.
impl Drop for Cause {
    fn drop(self) {
        match self {
            Cause::Done
            | Cause::DocRefused(_)
            | Cause::MergeRefused(_)
            | Cause::Usage
            | Cause::BadLine(_)
            | Cause::BatchLine(_)
            | Cause::BatchLarge
            | Cause::CallRefused(_, _)
            | Cause::FolderFault
            | Cause::Halted(_)
            | Cause::Pending(_)
            | Cause::NoCheckpoint
            | Cause::Unfinished(_, _)
            | Cause::Expired(_, _)
            | Cause::Exists
            | Cause::NoSuchName
            | Cause::ReadFault
            | Cause::WriteFault(_)
            | Cause::HostFault(_)
            | Cause::InDoubt
            | Cause::KernelRefused(_, _, _)
            | Cause::NotVerified(_, _)
            | Cause::Damaged(_)
            | Cause::HardwareDiffers(_)
            | Cause::OutOfMemory => {}
        }
    }
}

impl Cause {
    ghost use Rattle.std.specs.Prelude.{◌≡◌};
    ghost use Rattle.top_model.specs.Texts.{status_of};

    /// The exit status of a cause.
    pub fn status(&self) -> u8
        ensures { result ≡ status_of self.now }
    {
        match self {
            Cause::Done => 0,
            Cause::DocRefused(_) | Cause::MergeRefused(_) => 1,
            Cause::BatchLine(_) | Cause::BatchLarge => 1,
            Cause::Usage | Cause::BadLine(_) => 2,
            Cause::Pending(_) | Cause::NoCheckpoint | Cause::Unfinished(_, _) => 3,
            Cause::Expired(_, _) | Cause::Exists => 3,
            Cause::HostFault(Left::RolledBack) | Cause::KernelRefused(_, _, Left::RolledBack) => 4,
            Cause::HostFault(_) | Cause::KernelRefused(_, _, _) => 5,
            Cause::NoSuchName | Cause::ReadFault => 6,
            Cause::WriteFault(_) => 7,
            Cause::OutOfMemory => 8,
            Cause::NotVerified(_, _) => 9,
            Cause::InDoubt => 10,
            Cause::Damaged(_) | Cause::HardwareDiffers(_) => 11,
            Cause::FolderFault => 12,
            Cause::CallRefused(_, _) => 13,
            Cause::Halted(_) => 14,
        }
    }
}

impl From<AllocError> for Cause {
    ghost use Rattle.std.specs.Prelude.{◌≡◌};
    ghost use Rattle.top_model.specs.declared.report.Cause.TheVariants.{OutOfMemory as NoMemory};

    ghost from_gives = { λ _ cause. cause ≡ NoMemory };

    fn from(_error: AllocError) -> Cause {
        Cause::OutOfMemory
    }
}

impl<T: Drop> From<AllocFailed<T>> for Cause {
    ghost use Rattle.std.specs.Prelude.{◌≡◌};
    ghost use Rattle.top_model.specs.declared.report.Cause.TheVariants.{OutOfMemory as NoMemory};

    ghost from_gives = { λ _ cause. cause ≡ NoMemory };

    fn from(_error: AllocFailed<T>) -> Cause {
        Cause::OutOfMemory
    }
}

impl From<OutOfMemory> for Cause {
    ghost use Rattle.std.specs.Prelude.{◌≡◌};
    ghost use Rattle.top_model.specs.declared.report.Cause.TheVariants.{OutOfMemory as NoMemory};

    ghost from_gives = { λ _ cause. cause ≡ NoMemory };

    fn from(_error: OutOfMemory) -> Cause {
        Cause::OutOfMemory
    }
}

/// The end of a command: its status for the caller, and why.
#[derive(Drop)]
pub struct Report {
    pub status: u8,
    pub cause: Cause,
}

/// A line of a script: the moment of a command, in seconds, and its words.
#[derive(Drop)]
pub struct Step {
    pub at: u64,
    pub words: Vec<String>,
}
