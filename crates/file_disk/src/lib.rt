//! A disk over two files of a folder. Each call of the system may do a part of what it was asked; the disk goes on until
//! the whole is done, and counts what fails.
#![tactic(auto)]

// Why a call on the files of a disk failed.
mod fault;
// The files of a folder.
mod folder;
// Disks by the single calls of a system.
mod raw;
// Reads that go on until they are whole.
mod read;
// A disk whose calls are whole.
mod whole;
// Writes that go on until they are whole.
mod write;

pub use folder::FileDisk;
