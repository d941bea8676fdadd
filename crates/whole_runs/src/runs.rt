//! One command on a host, and what it reads and writes.

use crate::files::no_files;
use crate::not_done::NotDone;
use crate::reading::{number, words};
use case_outside::{FixedClock, MemoryFolder, MemorySink, MemorySource, Refusal};
use case_table::first_word;
use host_core::Host;
use host_memory::Fuse;
use nmstate_top::{Report, Step, run_at, run_command, run_script};
use program_top::run_program;
use std::alloc::Global;
use std::mem;

/// What is run: words at a moment, by `run_command` or by `run_at`, or the steps of a script, by `run_script`.
pub enum Run {
    Command(Step),
    At(Step),
    Script(Vec<Step>),
}

// By hand, so that a proof sees one call where one is dropped, and not a step for each part.
impl Drop for Run {
    fn drop(self) {
        match self {
            Run::Command(_) | Run::At(_) | Run::Script(_) => {}
        }
    }
}

/// Words at a moment.
pub fn step(alloc: Global, at: u64, line: &str) -> Result<Step, NotDone> {
    Ok(Step {
        at,
        words: words(alloc, line)?,
    })
}

/// `MOMENT WORDS`.
pub fn step_of(alloc: Global, line: &str) -> Result<Step, NotDone> {
    let (moment, rest) = first_word(line);
    step(alloc, number(moment)?, rest)
}

/// `MOMENT WORDS; MOMENT WORDS ..`.
pub fn steps_of(alloc: Global, line: &str) -> Result<Vec<Step>, NotDone> {
    let mut steps = Vec::new(alloc);
    for part in line.split(';') {
        steps.push(step_of(alloc, part.trim())?)?;
    }
    Ok(steps)
}

/// The calls that are to fail in one command, and whether its host lies or refuses calls of its own.
pub struct Faults {
    pub host: Vec<Fuse>,
    pub source: Vec<Fuse>,
    pub out: Vec<Fuse>,
    pub err: Vec<Fuse>,
    pub lies: bool,
    pub refusals: Vec<Refusal>,
}

// By hand, as that of `Run`.
impl Drop for Faults {
    fn drop(self) {
        let Faults {
            host: _,
            source: _,
            out: _,
            err: _,
            lies: _,
            refusals: _,
        } = self;
    }
}

impl Faults {
    pub fn none(alloc: Global) -> Faults {
        Faults {
            host: Vec::new(alloc),
            source: Vec::new(alloc),
            out: Vec::new(alloc),
            err: Vec::new(alloc),
            lies: false,
            refusals: Vec::new(alloc),
        }
    }

    // `OBJECT N`, or `OBJECT N done`.
    fn fail(&mut self, rest: &str) -> Result<(), NotDone> {
        let (object, rest) = first_word(rest);
        let (call, how) = first_word(rest);
        let fuse = Fuse {
            call: number(call)?,
            done: how == "done",
        };
        let pushed = match object {
            "host" => self.host.push(fuse),
            "source" => self.source.push(fuse),
            "out" => self.out.push(fuse),
            "err" => self.err.push(fuse),
            _ => return Err(NotDone),
        };
        Ok(pushed?)
    }

    // `CALL NUMBER`.
    fn refuse(&mut self, rest: &str) -> Result<(), NotDone> {
        let (call, refusal) = first_word(rest);
        let call = number(call)?;
        match refusal.parse::<u8>() {
            Ok(number) => Ok(self.refusals.push(Refusal { call, number })?),
            Err(_) => Err(NotDone),
        }
    }

    /// Takes a line that says what is to fail.
    pub fn take(&mut self, word: &str, rest: &str) -> Result<(), NotDone> {
        match word {
            "fail" => self.fail(rest),
            "refuses" => self.refuse(rest),
            _ => {
                self.lies = true;
                Ok(())
            }
        }
    }
}

/// Takes fuses out of where they stand.
pub fn taken(alloc: Global, fuses: &mut Vec<Fuse>) -> Vec<Fuse> {
    mem::replace(fuses, Vec::new(alloc))
}

/// What a command has beside its host: inputs, a folder, and what it writes to.
pub struct World {
    src: MemorySource,
    pub folder: MemoryFolder,
    pub out: MemorySink,
    pub err: MemorySink,
}

// By hand, as that of `Run`.
impl Drop for World {
    fn drop(self) {
        let World {
            src: _,
            folder: _,
            out: _,
            err: _,
        } = self;
    }
}

impl World {
    /// These inputs, and a folder without files. The faults of source and sinks are taken.
    pub fn new(alloc: Global, inputs: Vec<(String, Vec<u8>)>, faults: &mut Faults) -> World {
        World {
            src: MemorySource::new(alloc, inputs, taken(alloc, &mut faults.source)),
            folder: no_files(alloc),
            out: MemorySink::new(alloc, taken(alloc, &mut faults.out)),
            err: MemorySink::new(alloc, taken(alloc, &mut faults.err)),
        }
    }

    /// These inputs, and this folder.
    pub fn over(alloc: Global, inputs: Vec<(String, Vec<u8>)>, folder: MemoryFolder) -> World {
        World {
            src: MemorySource::new(alloc, inputs, Vec::new(alloc)),
            folder,
            out: MemorySink::new(alloc, Vec::new(alloc)),
            err: MemorySink::new(alloc, Vec::new(alloc)),
        }
    }
}

// The calls, with nothing said of what they do.

fn command<H: Host>(alloc: Global, step: &Step, host: &mut H, world: &mut World) -> Report {
    let mut clock = FixedClock::new(step.at);
    run_command(
        alloc,
        &step.words,
        host,
        &mut world.src,
        &mut world.out,
        &mut world.err,
        &mut clock,
    )
}

fn at_moment<H: Host>(alloc: Global, step: &Step, host: &mut H, world: &mut World) -> Report {
    run_at(
        alloc,
        &step.words,
        host,
        &mut world.src,
        &mut world.out,
        &mut world.err,
        step.at,
    )
}

fn script<H: Host>(alloc: Global, steps: &Vec<Step>, host: &mut H, world: &mut World) -> Report {
    run_script(
        alloc,
        steps,
        host,
        &mut world.src,
        &mut world.out,
        &mut world.err,
    )
}

/// Runs the whole program on a host, by `run_program`.
pub fn program<H: Host + Drop>(
    alloc: Global,
    step: &Step,
    host: &mut H,
    world: &mut World,
) -> Report {
    let mut nodes: Vec<H> = Vec::new(alloc);
    let mut clock = FixedClock::new(step.at);
    run_program(
        alloc,
        &step.words,
        host,
        &mut nodes,
        &mut world.src,
        &mut world.folder,
        &mut world.out,
        &mut world.err,
        &mut clock,
    )
}

/// Runs on a host.
pub fn run_on<H: Host>(alloc: Global, run: &Run, host: &mut H, world: &mut World) -> Report {
    match run {
        Run::Command(step) => command(alloc, step, host, world),
        Run::At(step) => at_moment(alloc, step, host, world),
        Run::Script(steps) => script(alloc, steps, host, world),
    }
}
