//! Hosts at rest, between two commands.

use crate::files::no_files;
use crate::hosts::{
    copied_disk, copied_host, copied_net, disk_with, dumped, held, liar, refuser, taken_over,
};
use crate::inputs::standard_input;
use crate::not_done::NotDone;
use crate::runs::{Faults, Run, World, program, run_on, step, taken};
use case_outside::{FolderFile, MemoryDisk};
use case_table::Text;
use disk_host::DiskHost;
use host_core::Area;
use host_memory::MemoryHost;
use net_core::Net;
use nmstate_top::{Cause, Report, Step};
use std::alloc::Global;

/// The host of all commands: in memory, or over a disk.
#[derive(Clone, Copy)]
pub enum Kind {
    Memory,
    Disk,
}

/// What stands between two commands, and what the last one did.
pub enum Machine {
    Memory(MemoryHost),
    Disk(MemoryDisk),
}

// By hand, so that a proof sees one call where one is dropped, and not a step for each part.
impl Drop for Machine {
    fn drop(self) {
        match self {
            Machine::Memory(_) | Machine::Disk(_) => {}
        }
    }
}

/// What stands behind a command, how it ended, and what it wrote.
pub struct Ran {
    pub machine: Machine,
    pub report: Report,
    world: World,
}

// By hand, as that of `Machine`.
impl Drop for Ran {
    fn drop(self) {
        let Ran {
            machine: _,
            report: _,
            world: _,
        } = self;
    }
}

/// The moment of commands that are asked without one.
const NOW: u64 = 1000;

// Runs on a host of this network that lies. What stands stays as it is.
fn run_lying(
    alloc: Global,
    host: &MemoryHost,
    run: &Run,
    world: &mut World,
) -> Result<(Machine, Report), NotDone> {
    let mut liar = liar(alloc, host)?;
    let machine = Machine::Memory(copied_host(alloc, host, Vec::new(alloc))?);
    Ok((machine, run_on(alloc, run, &mut liar, world)))
}

// Runs on a host in memory that refuses some kernel calls.
fn run_refusing(
    alloc: Global,
    host: &MemoryHost,
    run: &Run,
    faults: &mut Faults,
    world: &mut World,
) -> Result<(Machine, Report), NotDone> {
    let mut host = refuser(alloc, host, faults)?;
    let report = run_on(alloc, run, &mut host, world);
    Ok((Machine::Memory(taken_over(alloc, &mut host)?), report))
}

fn run_memory(
    alloc: Global,
    host: &MemoryHost,
    run: &Run,
    faults: &mut Faults,
    world: &mut World,
) -> Result<(Machine, Report), NotDone> {
    let mut host = copied_host(alloc, host, taken(alloc, &mut faults.host))?;
    let report = run_on(alloc, run, &mut host, world);
    Ok((Machine::Memory(host), report))
}

fn run_disk(
    alloc: Global,
    disk: &MemoryDisk,
    run: &Run,
    faults: &mut Faults,
    world: &mut World,
) -> Result<(Machine, Report), NotDone> {
    let disk = copied_disk(alloc, disk, taken(alloc, &mut faults.host))?;
    let mut host = DiskHost::new(disk);
    let report = run_on(alloc, run, &mut host, world);
    Ok((Machine::Disk(host.into_disk()), report))
}

impl Ran {
    /// A machine without a network or a checkpoint, on which nothing was run.
    pub fn nothing(alloc: Global, kind: Kind) -> Ran {
        Ran {
            machine: Machine::bare(alloc, kind),
            report: Report {
                status: 0,
                cause: Cause::Done,
            },
            world: World::over(alloc, Vec::new(alloc), no_files(alloc)),
        }
    }

    /// What stands.
    pub fn into_machine(self) -> Machine {
        let Ran {
            machine,
            report: _report,
            world: _world,
        } = self;
        machine
    }

    /// What was written to the output.
    pub fn out(&self) -> &Vec<u8> {
        self.world.out.bytes()
    }

    /// What was written to the errors.
    pub fn err(&self) -> &Vec<u8> {
        self.world.err.bytes()
    }

    /// The files of the folder.
    pub fn files(&self) -> &[FolderFile] {
        self.world.folder.files().as_slice()
    }

    /// The network that didn't verify.
    pub fn found(&self) -> Option<&Net> {
        match &self.report.cause {
            Cause::NotVerified(net, _) => Some(net),
            _ => None,
        }
    }
}

impl Machine {
    /// A machine without a network or a checkpoint.
    pub fn bare(alloc: Global, kind: Kind) -> Machine {
        let empty = Vec::new(alloc);
        let fuses = Vec::new(alloc);
        match kind {
            Kind::Memory => Machine::Memory(MemoryHost::new(alloc, None, empty, fuses)),
            Kind::Disk => Machine::Disk(MemoryDisk::new(alloc, Vec::new(alloc), empty, fuses)),
        }
    }

    /// The same state, of which nothing is in doubt.
    pub fn copy(&self, alloc: Global) -> Result<Machine, NotDone> {
        let fuses = Vec::new(alloc);
        Ok(match self {
            Machine::Memory(host) => Machine::Memory(copied_host(alloc, host, fuses)?),
            Machine::Disk(disk) => Machine::Disk(copied_disk(alloc, disk, fuses)?),
        })
    }

    /// The network of a host in memory.
    pub fn memory_net(&self) -> Option<&Net> {
        match self {
            Machine::Memory(host) => host.net(),
            Machine::Disk(_) => None,
        }
    }

    /// The network that stands, or none.
    pub fn net(&self, alloc: Global) -> Result<Option<Net>, NotDone> {
        match self {
            Machine::Memory(host) => copied_net(host.net()),
            Machine::Disk(disk) => {
                let mut host = DiskHost::new(copied_disk(alloc, disk, Vec::new(alloc))?);
                dumped(alloc, &mut host)
            }
        }
    }

    /// How many calls the last command made that a stop can follow.
    pub fn calls(&self) -> u64 {
        match self {
            Machine::Memory(host) => host.calls(),
            Machine::Disk(disk) => disk.calls(),
        }
    }

    /// What a stop behind so many calls of the last command leaves, by the pick of the instances in memory.
    pub fn stopped(&self, alloc: Global, after: u64, pick: u8) -> Result<Machine, NotDone> {
        match self {
            Machine::Memory(host) if after <= host.calls() && pick < 4 => {
                Ok(Machine::Memory(host.stopped(alloc, after, pick)?))
            }
            Machine::Disk(disk) if after <= disk.calls() && pick < 4 => {
                Ok(Machine::Disk(disk.stopped(alloc, after, pick)?))
            }
            _ => Err(NotDone),
        }
    }

    // Runs on a copy that has these faults. A host over a disk doesn't lie, and refuses by its network alone.
    fn run_copy(
        &self,
        alloc: Global,
        run: &Run,
        faults: &mut Faults,
        world: &mut World,
    ) -> Result<(Machine, Report), NotDone> {
        match self {
            Machine::Memory(host) if faults.lies => run_lying(alloc, host, run, world),
            Machine::Memory(host) if !faults.refusals.is_empty() => {
                run_refusing(alloc, host, run, faults, world)
            }
            Machine::Memory(host) => run_memory(alloc, host, run, faults, world),
            Machine::Disk(disk) if !faults.lies && faults.refusals.is_empty() => {
                run_disk(alloc, disk, run, faults, world)
            }
            Machine::Disk(_) => Err(NotDone),
        }
    }

    /// Runs on a copy with these inputs and faults, and without a folder.
    pub fn run(
        &self,
        alloc: Global,
        run: &Run,
        faults: Faults,
        inputs: Vec<(String, Vec<u8>)>,
    ) -> Result<Ran, NotDone> {
        let mut faults = faults;
        let mut world = World::new(alloc, inputs, &mut faults);
        let (machine, report) = self.run_copy(alloc, run, &mut faults, &mut world)?;
        Ok(Ran {
            machine,
            report,
            world,
        })
    }

    // Runs the whole program on a copy.
    fn serve_copy(
        &self,
        alloc: Global,
        step: &Step,
        world: &mut World,
    ) -> Result<(Machine, Report), NotDone> {
        match self {
            Machine::Memory(host) => {
                let mut host = copied_host(alloc, host, Vec::new(alloc))?;
                let report = program(alloc, step, &mut host, world);
                Ok((Machine::Memory(host), report))
            }
            Machine::Disk(disk) => {
                let mut host = DiskHost::new(copied_disk(alloc, disk, Vec::new(alloc))?);
                let report = program(alloc, step, &mut host, world);
                Ok((Machine::Disk(host.into_disk()), report))
            }
        }
    }

    /// Runs the program with these words on a copy, in this world.
    pub fn ask_in(&self, alloc: Global, line: &str, world: World) -> Result<Ran, NotDone> {
        let mut world = world;
        let step = step(alloc, NOW, line)?;
        let (machine, report) = self.serve_copy(alloc, &step, &mut world)?;
        Ok(Ran {
            machine,
            report,
            world,
        })
    }

    /// Runs the program with these words on a copy, which has these bytes as standard input and no folder.
    pub fn ask(&self, alloc: Global, line: &str, input: &[u8]) -> Result<Ran, NotDone> {
        let inputs = standard_input(alloc, input)?;
        self.ask_in(alloc, line, World::over(alloc, inputs, no_files(alloc)))
    }

    /// The bytes of an area, as they are kept. A host in memory has the checkpoint's alone.
    pub fn area(&self, area: Area) -> Result<&Vec<u8>, NotDone> {
        match (self, area) {
            (Machine::Memory(_), Area::Kernel) => Err(NotDone),
            (Machine::Memory(host), Area::Checkpoint) => Ok(host.cell()),
            (Machine::Disk(disk), area) => Ok(held(disk, area)),
        }
    }

    /// The machine with these bytes in an area; of a host in memory in the checkpoint's.
    pub fn with_area(&self, alloc: Global, area: Area, bytes: Vec<u8>) -> Result<Machine, NotDone> {
        match self {
            Machine::Memory(host) => {
                let net = copied_net(host.net())?;
                Ok(Machine::Memory(MemoryHost::new(alloc, net, bytes, Vec::new(alloc))))
            }
            Machine::Disk(disk) => Ok(Machine::Disk(disk_with(alloc, disk, area, bytes)?)),
        }
    }
}

/// Pushes what `show` prints of a network, or the error where there is none.
pub fn push_shown(alloc: Global, net: Option<Net>, out: &mut Text) -> Result<(), NotDone> {
    let host = MemoryHost::new(alloc, net, Vec::new(alloc), Vec::new(alloc));
    let ran = Machine::Memory(host).ask(alloc, "show", b"")?;
    out.push_bytes(ran.out());
    out.push_bytes(ran.err());
    Ok(())
}
