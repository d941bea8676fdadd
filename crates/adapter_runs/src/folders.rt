//! The folder of documents that the heading names, or none: `names`, `start NAME`, `read` of 16 bytes, `mark NAME`, `faults`.

use crate::answers::{self, Answer};
use crate::lines::Calls;
use base_model::OutOfMemory;
use case_table::first_word;
use host_core::{Folder, NamesFault};
use net_model::Domain;
use std::alloc::Global;
use system_adapters::{FileFolder, StreamSink};

fn push_names(names: &[Domain], out: &mut Vec<u8>) -> Result<(), OutOfMemory> {
    for name in names {
        out.push(b' ')?;
        out.extend_from_slice(name.as_bytes())?;
    }
    Ok(())
}

// How many names there are, and these.
fn listed(alloc: Global, names: &[Domain]) -> Answer {
    let mut out = answers::number(alloc, names.len() as u64)?;
    push_names(names, &mut out)?;
    Ok(out)
}

fn names(alloc: Global, folder: &mut FileFolder<'_>) -> Answer {
    match folder.names(alloc) {
        Ok(names) => listed(alloc, &names),
        Err(NamesFault::Failed) => answers::done(alloc, false),
        Err(NamesFault::OutOfMemory) => Err(OutOfMemory),
    }
}

fn read(alloc: Global, folder: &mut FileFolder<'_>) -> Answer {
    let mut buffer = [b'.'; 16];
    let given = folder.read(&mut buffer);
    answers::read(alloc, given, &buffer)
}

// A call with a name.
fn named(alloc: Global, folder: &mut FileFolder<'_>, verb: &str, name: &str) -> Answer {
    let bytes = Vec::from_slice(alloc, name.as_bytes())?;
    match (verb, Domain::of(bytes)) {
        ("start", Some(name)) => answers::started(alloc, folder.start(&name)),
        ("mark", Some(name)) => answers::done(alloc, folder.mark(&name).is_ok()),
        _ => answers::unknown(alloc),
    }
}

fn called(alloc: Global, folder: &mut FileFolder<'_>, call: &str) -> Answer {
    let (verb, rest) = first_word(call);
    match verb {
        "names" => names(alloc, folder),
        "read" => read(alloc, folder),
        "faults" => answers::number(alloc, folder.faults()),
        _ => named(alloc, folder, verb, rest),
    }
}

/// A folder of documents, or none.
#[derive(Drop)]
pub struct Documents<'a> {
    alloc: Global,
    folder: FileFolder<'a>,
}

impl<'a> Documents<'a> {
    /// The documents of this folder, if any.
    pub fn new(rt: &'a HostRuntime, folder: Option<&'a str>) -> Documents<'a> {
        Documents {
            alloc: rt.alloc(),
            folder: FileFolder::new(rt, folder),
        }
    }
}

impl<'a> Calls<'a> for Documents<'a> {
    fn answer(&mut self, call: &'a str, _out: &mut StreamSink) -> Answer {
        called(self.alloc, &mut self.folder, call)
    }
}
