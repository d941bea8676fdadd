//! The standard streams: `output TEXT` and `errors TEXT`, in which `%n` stands for a line's end, `faults output` and
//! `faults errors`. All that is printed goes by the former.

use crate::answers::{self, Answer};
use crate::lines::Calls;
use case_table::{bytes_of, first_word};
use host_core::Sink;
use std::alloc::Global;
use system_adapters::{Stream, StreamSink};

fn write(alloc: Global, text: &str, stream: &mut StreamSink) -> Answer {
    let bytes = bytes_of(alloc, text)?;
    answers::done(alloc, stream.write(&bytes).is_ok())
}

/// The errors.
#[derive(Drop)]
pub struct Errors {
    alloc: Global,
    err: StreamSink,
}

impl Errors {
    /// The errors, at which nothing failed.
    pub fn new(rt: &HostRuntime) -> Errors {
        Errors {
            alloc: rt.alloc(),
            err: StreamSink::new(Stream::Err(rt.stderr())),
        }
    }
}

impl<'a> Calls<'a> for Errors {
    fn answer(&mut self, call: &'a str, out: &mut StreamSink) -> Answer {
        let (verb, rest) = first_word(call);
        match (verb, rest) {
            ("output", text) => write(self.alloc, text, out),
            ("errors", text) => write(self.alloc, text, &mut self.err),
            ("faults", "output") => answers::number(self.alloc, out.faults()),
            ("faults", "errors") => answers::number(self.alloc, self.err.faults()),
            _ => answers::unknown(self.alloc),
        }
    }
}
