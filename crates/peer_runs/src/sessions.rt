//! Sessions of commands.
//!
//! | line | does |
//! |---|---|
//! | `MOMENT WORDS`, `MOMENT WORDS < INPUT` | a command at a moment, with its standard input |
//! | `fail N`, `fail N done` | in the next command the Nth call on the host at the far end fails, done or not |
//! | `stop N PICK` | what stands is what a stop left after the Nth change, write and sync of the last command, by the pick of a host in memory |
//! | `without a network` | nothing stands |

use crate::machine::{Ran, ask, bare, copied, devices};
use crate::not_done::NotDone;
use crate::reading::number;
use case_table::{Text, first_word};
use host_memory::{Fuse, MemoryHost};
use std::alloc::Global;
use std::mem;

/// What stands, and what fails in the next command.
pub struct Session {
    pub host: MemoryHost,
    pub fuses: Vec<Fuse>,
}

// By hand, so that a proof sees one call where one is dropped, and not a step for each part.
impl Drop for Session {
    fn drop(self) {
        let Session { host: _, fuses: _ } = self;
    }
}

/// What a stop after so many changes leaves, by the pick of a host in memory.
pub fn stopped(
    alloc: Global,
    host: &MemoryHost,
    after: u64,
    pick: u8,
) -> Result<MemoryHost, NotDone> {
    if after <= host.calls() && pick < 4 {
        return Ok(host.stopped(alloc, after, pick)?);
    }
    Err(NotDone)
}

fn pick_of(word: &str) -> u8 {
    match word {
        "0" => 0,
        "1" => 1,
        "2" => 2,
        _ => 3,
    }
}

impl Session {
    /// A session on a machine with two devices.
    pub fn new(alloc: Global) -> Result<Session, NotDone> {
        Ok(Session {
            host: devices(alloc)?,
            fuses: Vec::new(alloc),
        })
    }

    // `N`, or `N done`.
    fn fail(&mut self, rest: &str) -> Result<(), NotDone> {
        let (call, how) = first_word(rest);
        let call = number(call)?;
        let done = how == "done";
        Ok(self.fuses.push(Fuse { call, done })?)
    }

    // `N PICK`.
    fn stop(&mut self, alloc: Global, rest: &str) -> Result<(), NotDone> {
        let (after, pick) = first_word(rest);
        self.host = stopped(alloc, &self.host, number(after)?, pick_of(pick))?;
        Ok(())
    }

    // Runs a command, and pushes what it writes.
    fn run(&mut self, alloc: Global, line: &str, out: &mut Text) -> Result<(), NotDone> {
        let fuses = mem::replace(&mut self.fuses, Vec::new(alloc));
        let ran = ask(alloc, &self.host, line, fuses)?;
        ran.push(out);
        self.host = ran.into_host();
        Ok(())
    }

    /// Takes a line, and pushes what is written for it.
    pub fn take(&mut self, alloc: Global, line: &str, out: &mut Text) -> Result<(), NotDone> {
        let (word, rest) = first_word(line);
        match word {
            "fail" => self.fail(rest),
            "stop" => self.stop(alloc, rest),
            "without" => {
                self.host = bare(alloc);
                Ok(())
            }
            _ => self.run(alloc, line, out),
        }
    }
}

/// Runs a session, and pushes what its commands write.
pub fn push_session(alloc: Global, case: &str, out: &mut Text) -> Result<(), NotDone> {
    let mut session = Session::new(alloc)?;
    for line in case.lines() {
        session.take(alloc, line, out)?;
    }
    Ok(())
}

/// Runs all of a session but its last command, and gives what stands.
pub fn prepared(alloc: Global, lines: &str) -> Result<MemoryHost, NotDone> {
    let mut written = Text::new(alloc);
    let mut session = Session::new(alloc)?;
    for line in lines.lines() {
        session.take(alloc, line, &mut written)?;
    }
    copied(alloc, &session.host, Vec::new(alloc))
}

/// What stands after a command that doesn't fail.
pub fn led_to(alloc: Global, host: &MemoryHost, line: &str) -> Result<Ran, NotDone> {
    let ran = ask(alloc, host, line, Vec::new(alloc))?;
    if ran.status != 0 {
        return Err(NotDone);
    }
    Ok(ran)
}
