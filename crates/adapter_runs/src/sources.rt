//! A source: `start NAME`, in which `%HH` stands for a byte, `read` of eight bytes, `faults`.

use crate::answers::{self, Answer};
use crate::lines::Calls;
use case_table::{bytes_of, first_word};
use host_core::Source;
use std::alloc::Global;
use std::str;
use system_adapters::{FileSource, StreamSink};

fn start(alloc: Global, source: &mut FileSource<'_>, name: &str) -> Answer {
    let name = bytes_of(alloc, name)?;
    match str::from_utf8(&name) {
        Ok(name) => answers::started(alloc, source.start(name)),
        Err(_) => answers::unknown(alloc),
    }
}

fn read(alloc: Global, source: &mut FileSource<'_>) -> Answer {
    let mut buffer = [b'.'; 8];
    let given = source.read(&mut buffer);
    answers::read(alloc, given, &buffer)
}

/// A source.
#[derive(Drop)]
pub struct Inputs<'a> {
    alloc: Global,
    source: FileSource<'a>,
}

impl<'a> Inputs<'a> {
    /// A source that begins with standard input.
    pub fn new(rt: &'a HostRuntime) -> Inputs<'a> {
        Inputs {
            alloc: rt.alloc(),
            source: FileSource::new(rt),
        }
    }
}

impl<'a> Calls<'a> for Inputs<'a> {
    fn answer(&mut self, call: &'a str, _out: &mut StreamSink) -> Answer {
        let (verb, rest) = first_word(call);
        match verb {
            "start" => start(self.alloc, &mut self.source, rest),
            "read" => read(self.alloc, &mut self.source),
            "faults" => answers::number(self.alloc, self.source.faults()),
            _ => answers::unknown(self.alloc),
        }
    }
}
