//! The standard streams as sinks. They tell nothing of what is written, and count their faults.
ghost use Rattle.std.specs.Prelude.{◌≡◌};

use host_core::{Failed, Sink, raised};
use std::io::{Stderr, Stdout, Write};

/// A standard stream that is written to.
#[derive(Drop)]
pub enum Stream {
    Out(Stdout),
    Err(Stderr),
}

impl Stream {
    /// Writes all bytes, and flushes them.
    fn write_out(&mut self, bytes: &[u8]) -> bool {
        match self {
            Stream::Out(out) => out.write_all(bytes).is_ok() && out.flush().is_ok(),
            Stream::Err(err) => err.write_all(bytes).is_ok() && err.flush().is_ok(),
        }
    }
}

/// A sink over a standard stream. It opens nothing: it writes to what the program was started with.
pub struct StreamSink {
    stream: Stream,
    faults: u64,
}

impl Drop for StreamSink {
    fn drop(self) {
        let StreamSink {
            stream: _,
            faults: _,
        } = self;
    }
}

impl StreamSink {
    /// A sink over this stream, at which nothing failed.
    pub fn new(stream: Stream) -> StreamSink
        ensures { (⟦<StreamSink as Sink>⟧.told result).faults ≡ 0 }
    {
        StreamSink { stream, faults: 0 }
    }

    /// How many of its writes failed.
    pub fn faults(&self) -> u64
        ensures { result ≡ (⟦<StreamSink as Sink>⟧.told self.now).faults }
    {
        self.faults
    }
}

impl Sink for StreamSink {
    ghost use Rattle.system_adapters.specs.Silent.{silent_sink};

    ghost tells = { ⊥ };

    ghost told = { λ s. silent_sink s.faults };

    fn write(&mut self, bytes: &[u8]) -> Result<(), Failed> {
        if self.stream.write_out(bytes) {
            return Ok(());
        }
        self.faults = raised(self.faults);
        Err(Failed)
    }
}
