//! What is asked of the commands, and what they answer.

use base_model::Items;
use checkpoint_cell::Seen;
use document_model::Refused;
use net_core::Net;
use net_model::Name;

/// What a command that met a fault leaves.
#[derive(Clone, Copy)]
pub enum Left {
    /// No kernel call was made and nothing was written to the checkpoint area.
    NotBegun,
    /// The state from before it, or the one that a change was taken back to first.
    RolledBack,
    /// Perhaps a change that stands half way: a recovery leads to the state from before it, or the changed one waits.
    Pending,
}

/// How a change is made.
#[derive(Clone, Copy)]
pub struct ApplyOpts {
    /// The change waits until it is committed.
    pub no_commit: bool,
    /// What stands after the change isn't compared with what is wanted.
    pub no_verify: bool,
    /// How long the change waits for its commit, in seconds.
    pub timeout: u32,
}

/// A change that was made.
#[derive(Clone, Copy)]
pub struct Applied {
    /// When a change that waits is taken back, in seconds.
    pub deadline: Option<u64>,
}

/// What a recovery came to.
#[derive(Clone, Copy)]
pub enum Recovered {
    /// There is no checkpoint.
    Nothing,
    /// A change waits until this moment, in seconds.
    Waiting { deadline: u64 },
    /// The change was taken back.
    Restored,
}

/// Why a change wasn't made, or isn't known to have ended.
#[derive(Drop)]
pub enum ApplyFault {
    /// Another change waits until this moment, in seconds.
    Pending(u64),
    /// The document breaks a rule of the merge.
    MergeRefused(Refused),
    /// The host failed.
    HostFault(Left),
    /// The kernel refused a call: the number of the refusal, and the number of the call from 1.
    KernelRefused(u8, u64, Left),
    /// This network was found after the change, and isn't the wanted one.
    NotVerified(Net, Left),
    /// The change is made, and the host failed when its checkpoint was cleared.
    InDoubt,
    /// The area of this number has no whole image: 0 is the kernel's, 1 that of the checkpoint, which is open.
    Damaged(u8),
    /// The Ethernet devices on which the saved and the running network differ, in order.
    HardwareDiffers(Items<Name>),
    OutOfMemory,
}

/// Why a change wasn't committed, or isn't known to be.
#[derive(Clone, Copy)]
pub enum CommitFault {
    NoCheckpoint,
    /// The change is being made: its making and its deadline, in seconds.
    Unfinished(u64, u64),
    /// The change is due: its making and its deadline, in seconds.
    Expired(u64, u64),
    /// The host failed before the checkpoint was to be cleared.
    HostFault,
    /// The host failed when the checkpoint was cleared.
    InDoubt,
}

/// Why a change wasn't taken back. What the faults carry is as in [`ApplyFault`].
#[derive(Drop)]
pub enum BackFault {
    NoCheckpoint,
    HostFault(Left),
    KernelRefused(u8, u64, Left),
    Damaged(u8),
    HardwareDiffers(Items<Name>),
    OutOfMemory,
}

/// What stands: the number of links of the network, and the checkpoint.
#[derive(Clone, Copy)]
pub struct Checked {
    pub links: u32,
    pub cell: Seen,
}

/// Why what is stored can't be worked with, or wasn't seen. What the faults carry is as in [`ApplyFault`].
#[derive(Drop)]
pub enum CheckFault {
    HostFault,
    Damaged(u8),
    HardwareDiffers(Items<Name>),
    OutOfMemory,
}
