//! Faults and stops at each place of a command, and what a recovery makes of them.

use crate::machine::{Ran, ask, devices, is_same};
use crate::not_done::NotDone;
use crate::sessions::{led_to, prepared, stopped};
use case_table::Text;
use host_memory::{Fuse, MemoryHost};
use std::alloc::Global;

// A recovery past every deadline.
const RECOVERY: &str = "5000 recover";

// How many calls are tried: more than any command of the cases makes.
const MOST_CALLS: u64 = 60;

// The command that is run anew for each fault or stop, and what stands without one.
struct Sweep<'a> {
    // What stands before the session, before the command, and after it.
    first: MemoryHost,
    before: MemoryHost,
    after: Ran,
    line: &'a str,
}

// By hand, so that a proof sees one call where one is dropped, and not a step for each part.
impl Drop for Sweep<'_> {
    fn drop(self) {
        let Sweep {
            first: _,
            before: _,
            after: _,
            line: _,
        } = self;
    }
}

// Which networks stood after recoveries.
#[derive(Clone, Copy)]
struct Seen {
    before: bool,
    after: bool,
    other: bool,
    unrecovered: bool,
}

// Everything before the last line, and that line.
fn last_of(case: &str) -> (&str, &str) {
    case.rsplit_once('\n').unwrap_or(("", case))
}

fn sweep_of(alloc: Global, case: &str) -> Result<Sweep<'_>, NotDone> {
    let (lines, line) = last_of(case);
    let before = prepared(alloc, lines)?;
    let after = led_to(alloc, &before, line)?;
    Ok(Sweep {
        first: devices(alloc)?,
        before,
        after,
        line,
    })
}

impl Seen {
    fn none() -> Seen {
        Seen {
            before: false,
            after: false,
            other: false,
            unrecovered: false,
        }
    }

    fn push(self, out: &mut Text) {
        if self.before {
            out.push_str(" before");
        }
        if self.after {
            out.push_str(" after");
        }
        if self.other {
            out.push_str(" other");
        }
        if self.unrecovered {
            out.push_str(" unrecovered");
        }
    }
}

impl Sweep<'_> {
    // Recovers from what was left, and sees which network then stands.
    fn see(&self, alloc: Global, left: &MemoryHost, seen: &mut Seen) -> Result<(), NotDone> {
        let ran = ask(alloc, left, RECOVERY, Vec::new(alloc))?;
        if ran.status != 0 {
            seen.unrecovered = true;
        }
        if is_same(ran.host.net(), self.first.net()) {
            seen.before = true;
        } else if is_same(ran.host.net(), self.after.host.net()) {
            seen.after = true;
        } else {
            seen.other = true;
        }
        Ok(())
    }

    // The command with one call that fails.
    fn fail(&self, alloc: Global, call: u64, done: bool, seen: &mut Seen) -> Result<(), NotDone> {
        let fuses = Vec::from_slice(alloc, &[Fuse { call, done }])?;
        let ran = ask(alloc, &self.before, self.line, fuses)?;
        self.see(alloc, &ran.host, seen)
    }

    // The command with a stop.
    fn stop(&self, alloc: Global, after: u64, seen: &mut Seen) -> Result<(), NotDone> {
        for pick in 0..4u8 {
            let left = stopped(alloc, &self.after.host, after, pick)?;
            self.see(alloc, &left, seen)?;
        }
        Ok(())
    }
}

/// Fails each call of the last command, not done and done, and says which networks stand after a recovery.
pub fn push_faults(alloc: Global, case: &str, out: &mut Text) -> Result<(), NotDone> {
    let sweep = sweep_of(alloc, case)?;
    let mut not_done = Seen::none();
    let mut done = Seen::none();
    for n in 0..MOST_CALLS {
        sweep.fail(alloc, n.saturating_add(1), false, &mut not_done)?;
        sweep.fail(alloc, n.saturating_add(1), true, &mut done)?;
    }
    out.push_str("not done:");
    not_done.push(out);
    out.push_str("; done:");
    done.push(out);
    Ok(())
}

/// Stops after each change, write and sync of the last command, and says which networks stand after a recovery.
pub fn push_stops(alloc: Global, case: &str, out: &mut Text) -> Result<(), NotDone> {
    let sweep = sweep_of(alloc, case)?;
    let mut seen = Seen::none();
    for after in 0..sweep.after.host.calls().saturating_add(1) {
        sweep.stop(alloc, after, &mut seen)?;
    }
    out.push_str("stops:");
    seen.push(out);
    Ok(())
}
