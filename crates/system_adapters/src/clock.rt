//! The system's clock.
ghost use Rattle.std.specs.Prelude.{◌≡◌, ◌⊎◌, []};
ghost use Rattle.host_core.specs.Clocks.{Ticks};
ghost use Rattle.host_core.specs.Faults.{Rose};

use host_core::{Clock, raised};
use std::rt::Clock as Ticks;
use std::time::{SystemTime, UNIX_EPOCH};

/// The system's clock, in seconds since the beginning of 1970. It tells nothing of the moments to come, and counts the
/// times at which it couldn't be read, or stood before 1970. It opens nothing.
#[derive(Drop)]
pub struct SystemClock<R> {
    rt: R,
    faults: u64,
}

impl<R> SystemClock<R> {
    /// A clock that was read without a fault so far.
    pub fn new(rt: R) -> SystemClock<R>
        ensures { result.faults ≡ 0 }
    {
        SystemClock { rt, faults: 0 }
    }

    /// How many times it couldn't be read, or stood before 1970.
    pub fn faults(&self) -> u64
        ensures { result ≡ self.now.faults }
    {
        self.faults
    }

    // Counts that the clock gave no moment, and gives the one that stands for that.
    fn unread(&mut self) -> u64
        ensures rose { Rose self.old.faults self.new.faults }
        ensures zero { result ≡ 0 }
    {
        self.faults = raised(self.faults);
        0
    }
}

// The seconds since the beginning of 1970, or none where the clock can't be read or stands before that.
fn seconds<R: Ticks>(rt: &R) -> Option<u64> {
    let now = SystemTime::now(rt).ok()?;
    let since = now.duration_since(UNIX_EPOCH).ok()?;
    Some(since.as_secs())
}

impl<R: Ticks> Clock for SystemClock<R> {
    ghost tells = { ⊥ };

    ghost coming = { λ _. [] };

    /// It gives 0 where the clock can't be read, or stands before 1970.
    fn now(&mut self) -> u64
        ensures ticks { ⊥ → Ticks [] result [] }
        ensures counted { (self.new.faults ≡ self.old.faults) ⊎ (Rose self.old.faults self.new.faults × (result ≡ 0)) }
    {
        match seconds(&self.rt) {
            Some(now) => now,
            None => self.unread(),
        }
    }
}
