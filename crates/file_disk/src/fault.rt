//! Why a call on the files of a disk failed.

use std::alloc::AllocError;
use std::io;
use thiserror::Error;

/// Why a call on the files of a disk failed. No disk says which: it answers that it failed.
#[derive(Debug, Drop, Error)]
pub enum FileFault {
    /// The file system refused a call.
    #[error("the file system: {0}")]
    System(#[from] io::Error),
    /// The path of a file took memory that was refused.
    #[error("out of memory")]
    OutOfMemory(#[from] AllocError),
    /// The files couldn't be opened, made or locked at the first call.
    #[error("the files of the folder aren't open")]
    NotOpen,
    /// The folder couldn't be locked: another program works on it, or its file system has no locks.
    #[error("the folder is in use")]
    InUse,
    /// A write took none of its bytes.
    #[error("a write stood still")]
    NothingWritten,
}
