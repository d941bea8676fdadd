//! What the program makes of its words: the hosts over the folders that they name, of files.
#![tactic(auto)]

use disk_host::DiskHost;
use file_disk::FileDisk;
use std::alloc::AllocError;
use std::{env, io};

/// The words after the program's name. Words that aren't all UTF-8 are no command, as no words are.
pub fn words(rt: &HostRuntime) -> io::Result<Vec<String>> {
    match env::args(rt) {
        Ok(args) => Ok(args.skip(1).collect(rt.alloc())?),
        Err(error) if error.kind() == io::ErrorKind::InvalidData => Ok(Vec::new(rt.alloc())),
        Err(error) => Err(error),
    }
}

// The folder of the state, where the words name none.
const HERE: &str = ".";

/// The host whose state stands in the folder that was named, or in the one where the program runs. It opens nothing: its
/// first call does.
pub fn host_in<'a>(rt: &'a HostRuntime, named: &'a Option<String>) -> DiskHost<FileDisk<'a>> {
    let folder = match named {
        Some(folder) => folder.as_str(),
        None => HERE,
    };
    DiskHost::new(FileDisk::open(rt, folder))
}

/// A node of a rollout for each of these folders, in their order. They open nothing: the first call of each does.
pub fn nodes_in<'a>(
    rt: &'a HostRuntime,
    folders: &'a [String],
) -> Result<Vec<DiskHost<FileDisk<'a>>>, AllocError> {
    let mut nodes = Vec::new(rt.alloc());
    for folder in folders {
        nodes.push(DiskHost::new(FileDisk::open(rt, folder.as_str())))?;
    }
    Ok(nodes)
}
