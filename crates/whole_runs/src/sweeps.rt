//! Faults and stops at each place of a command, and what a recovery makes of them.

use crate::expected::push_named;
use crate::hosts::{copied_net, is_same};
use crate::inputs::copied;
use crate::machine::Machine;
use crate::not_done::NotDone;
use crate::reading::number;
use crate::runs::{Faults, Run, step, step_of};
use case_table::{Text, parted};
use host_memory::Fuse;
use net_core::Net;
use std::alloc::Global;
use std::mem;

/// A network that stood, or none, under a name.
#[derive(Drop)]
pub struct Kept {
    pub name: Text,
    pub net: Option<Net>,
}

/// What was kept under a name.
pub fn find<'a>(all: &'a [Kept], name: &str) -> Result<&'a Kept, NotDone> {
    for kept in all {
        if kept.name.is(name.as_bytes()) {
            return Ok(kept);
        }
    }
    Err(NotDone)
}

// A network that may stand behind a recovery, and whether it did.
#[derive(Drop)]
struct Allowed {
    name: Text,
    net: Option<Net>,
    is_met: bool,
}

/// A command at each place of which a fault or a stop falls, the recovery behind it, and what may then stand, the state
/// before the command first.
struct Sweep {
    run: Run,
    recovery: Run,
    allowed: Vec<Allowed>,
    inputs: Vec<(String, Vec<u8>)>,
    // Where the stop or the faults of the last run fell.
    place: Text,
    said: Text,
}

// By hand, so that a proof sees one call where one is dropped, and not a step for each part.
impl Drop for Sweep {
    fn drop(self) {
        let Sweep {
            run: _,
            recovery: _,
            allowed: _,
            inputs: _,
            place: _,
            said: _,
        } = self;
    }
}

/// A sweep of faults tries the calls of the host below this number.
const MOST_CALLS: u64 = 400;

/// The second fault falls fewer calls than this behind the first.
const WINDOW: u64 = 12;

// The states of these names.
fn states(alloc: Global, names: &str, kept: &[Kept]) -> Result<Vec<Allowed>, NotDone> {
    let mut states = Vec::new(alloc);
    for name in names.split_ascii_whitespace() {
        let net = copied_net(find(kept, name)?.net.as_ref())?;
        states.push(Allowed {
            name: Text::of(alloc, name),
            net,
            is_met: false,
        })?;
    }
    Ok(states)
}

// Marks the first of the states that a network is, and answers whether it is any.
fn meets(states: &mut Vec<Allowed>, net: &Option<Net>) -> bool {
    for allowed in states.iter_mut() {
        if is_same(&allowed.net, net) {
            allowed.is_met = true;
            return true;
        }
    }
    false
}

// Says the states that were never met, each on a line.
fn push_unmet(states: &[Allowed], said: &mut Text) {
    for allowed in states {
        if !allowed.is_met {
            push_named(allowed.name.as_str(), b"never stands", said);
        }
    }
}

fn place_of_stop(alloc: Global, after: u64, pick: u8) -> Text {
    let mut place = Text::of(alloc, "stop ");
    place.push_count(after, " ");
    place.push_number(u64::from(pick));
    place
}

fn place_of_faults(alloc: Global, fuses: &[Fuse]) -> Text {
    let mut place = Text::of(alloc, "faults");
    for fuse in fuses {
        place.push_str(if fuse.done { " done " } else { " not done " });
        place.push_number(fuse.call);
    }
    place
}

impl Sweep {
    // `MOMENT WORDS, recovered at MOMENT: STATE ..`, with the states that were kept.
    fn of(
        alloc: Global,
        line: &str,
        kept: &[Kept],
        inputs: Vec<(String, Vec<u8>)>,
    ) -> Result<Sweep, NotDone> {
        let (command, rest) = parted(line, ", recovered at ");
        let (moment, names) = parted(rest, ": ");
        Ok(Sweep {
            run: Run::Command(step_of(alloc, command)?),
            recovery: Run::Command(step(alloc, number(moment)?, "recover")?),
            allowed: states(alloc, names, kept)?,
            inputs,
            place: Text::new(alloc),
            said: Text::new(alloc),
        })
    }

    fn say(&mut self, what: &str) {
        self.said.push_text(&self.place);
        self.said.push_str(": ");
        self.said.push_line(what);
    }

    // Whether a network is the one from before the command.
    fn is_before(&self, net: &Option<Net>) -> bool {
        match self.allowed.first() {
            Some(before) => is_same(&before.net, net),
            None => false,
        }
    }

    // Recovers without a fault, and looks at what then stands. Answers whether there was nothing to recover.
    fn recover(&mut self, alloc: Global, machine: &Machine) -> Result<bool, NotDone> {
        let none = Faults::none(alloc);
        let after = machine.run(alloc, &self.recovery, none, Vec::new(alloc))?;
        if after.report.status != 0 {
            self.say("the recovery is refused");
        }
        if !meets(&mut self.allowed, &after.machine.net(alloc)?) {
            self.say("another state stands");
        }
        Ok(after.out().as_slice() == b"nothing to recover\n".as_slice())
    }

    // A stop behind so many calls, with each pick of what it may leave.
    fn stop(&mut self, alloc: Global, ran: &Machine, after: u64) -> Result<(), NotDone> {
        for pick in 0..4_u8 {
            self.place = place_of_stop(alloc, after, pick);
            let stopped = ran.stopped(alloc, after, pick)?;
            self.recover(alloc, &stopped)?;
        }
        Ok(())
    }

    // A stop behind each call of the command.
    fn stops(&mut self, alloc: Global, machine: &Machine, faults: Faults) -> Result<(), NotDone> {
        let inputs = copied(alloc, &self.inputs)?;
        let ran = machine.run(alloc, &self.run, faults, inputs)?;
        for after in 0..ran.machine.calls().saturating_add(1) {
            self.stop(alloc, &ran.machine, after)?;
        }
        Ok(())
    }

    // Runs with these calls of the host failing. Answers whether none of them was made.
    fn fails(&mut self, alloc: Global, machine: &Machine, fuses: &[Fuse]) -> Result<bool, NotDone> {
        self.place = place_of_faults(alloc, fuses);
        let mut faults = Faults::none(alloc);
        faults.host = Vec::from_slice(alloc, fuses)?;
        let inputs = copied(alloc, &self.inputs)?;
        let after = machine.run(alloc, &self.run, faults, inputs)?;
        if after.report.status == 0 {
            return Ok(true);
        }
        if !matches!(after.report.status, 4 | 5 | 10) {
            self.say("an answer that isn't of a fault of the host");
        }
        let is_closed = self.recover(alloc, &after.machine)?;
        // What was rolled back has no checkpoint, and stands as before without a recovery.
        if after.report.status == 4 && !(is_closed && self.is_before(&after.machine.net(alloc)?)) {
            self.say("it wasn't rolled back");
        }
        Ok(false)
    }

    // One call of the host fails, done or not. Answers whether the command doesn't make it.
    fn one_fails(&mut self, alloc: Global, machine: &Machine, call: u64) -> Result<bool, NotDone> {
        let is_behind = self.fails(alloc, machine, &[Fuse { call, done: false }])?;
        Ok(self.fails(alloc, machine, &[Fuse { call, done: true }])? && is_behind)
    }

    // Each call of the host in turn fails, done or not.
    fn faults(&mut self, alloc: Global, machine: &Machine) -> Result<(), NotDone> {
        for call in 1..MOST_CALLS {
            if self.one_fails(alloc, machine, call)? {
                return Ok(());
            }
        }
        self.say("the command makes too many calls");
        Ok(())
    }

    // Two calls of the host fail, each of them done or not.
    fn both_fail(
        &mut self,
        alloc: Global,
        machine: &Machine,
        first: u64,
        second: u64,
    ) -> Result<(), NotDone> {
        for pick in 0..4_u8 {
            let one = Fuse {
                call: first,
                done: pick / 2 == 1,
            };
            let other = Fuse {
                call: second,
                done: pick % 2 == 1,
            };
            self.fails(alloc, machine, &[one, other])?;
        }
        Ok(())
    }

    // This call of the host fails, and each of those close behind it too.
    fn two_fail(&mut self, alloc: Global, machine: &Machine, first: u64) -> Result<(), NotDone> {
        for second in first.saturating_add(1)..first.saturating_add(WINDOW) {
            self.both_fail(alloc, machine, first, second)?;
        }
        Ok(())
    }

    // Each call of the host in turn fails, and one behind it too.
    fn pairs(&mut self, alloc: Global, machine: &Machine) -> Result<(), NotDone> {
        for first in 1..MOST_CALLS {
            if self.one_fails(alloc, machine, first)? {
                return Ok(());
            }
            self.two_fail(alloc, machine, first)?;
        }
        self.say("the command makes too many calls");
        Ok(())
    }
}

/// Does the sweep that a line asks for: `stops`, `faults` or `pairs`. Gives what differs: what was said, and the states that were
/// never met.
pub fn swept(
    alloc: Global,
    word: &str,
    line: &str,
    kept: &[Kept],
    inputs: Vec<(String, Vec<u8>)>,
    faults: Faults,
    machine: &Machine,
) -> Result<Text, NotDone> {
    let mut sweep = Sweep::of(alloc, line, kept, inputs)?;
    match word {
        "stops" => sweep.stops(alloc, machine, faults)?,
        "faults" => sweep.faults(alloc, machine)?,
        _ => sweep.pairs(alloc, machine)?,
    }
    push_unmet(&sweep.allowed, &mut sweep.said);
    Ok(mem::replace(&mut sweep.said, Text::new(alloc)))
}
