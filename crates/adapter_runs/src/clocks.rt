//! The clock: `goes on`, whether two moments are past a second of November 2023 and in their order, and `faults`.

use crate::answers::{self, Answer};
use crate::lines::Calls;
use host_core::Clock;
use std::alloc::Global;
use system_adapters::{StreamSink, SystemClock};

// A second of November 2023.
const EARLIEST: u64 = 1_700_000_000;

fn goes_on(clock: &mut SystemClock<&HostRuntime>) -> bool {
    let first = clock.now();
    let second = clock.now();
    EARLIEST < first && first <= second
}

/// A clock.
#[derive(Drop)]
pub struct Moments<'a> {
    alloc: Global,
    clock: SystemClock<&'a HostRuntime>,
}

impl<'a> Moments<'a> {
    /// A clock that was read without a fault so far.
    pub fn new(rt: &'a HostRuntime) -> Moments<'a> {
        Moments {
            alloc: rt.alloc(),
            clock: SystemClock::new(rt),
        }
    }
}

impl<'a> Calls<'a> for Moments<'a> {
    fn answer(&mut self, call: &'a str, _out: &mut StreamSink) -> Answer {
        match call {
            "goes on" => answers::done(self.alloc, goes_on(&mut self.clock)),
            "faults" => answers::number(self.alloc, self.clock.faults()),
            _ => answers::unknown(self.alloc),
        }
    }
}
