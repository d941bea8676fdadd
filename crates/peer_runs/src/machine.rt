//! What stands at the far end, and one command on it.

use crate::not_done::NotDone;
use crate::reading::{number, words};
use case_outside::{FixedClock, MemoryFolder, MemorySink, MemorySource};
use case_table::{Text, first_word, parted};
use far_end::FarEnd;
use host_memory::{Fuse, MemoryHost};
use net_core::Net;
use net_equal::same_net;
use peer_host::PeerHost;
use program_top::{Report, run_program};
use std::alloc::Global;

/// Two devices, down.
const DEVICES: &str =
    "hardware:\n- name: eth1\n  mac-address: 52:54:00:00:00:01\n- name: eth2\n  mac-address: 52:54:00:00:00:02\n";

/// The host of the program: it asks a far end, which is over a host in memory.
pub type Host = PeerHost<FarEnd<MemoryHost>>;

// What a command has beside its host.
struct World {
    src: MemorySource,
    folder: MemoryFolder,
    out: MemorySink,
    err: MemorySink,
}

// By hand, so that a proof sees one call where one is dropped, and not a step for each part.
impl Drop for World {
    fn drop(self) {
        let World {
            src: _,
            folder: _,
            out: _,
            err: _,
        } = self;
    }
}

/// What stands after a command at the far end, and what the command told.
pub struct Ran {
    pub host: MemoryHost,
    pub status: u8,
    world: World,
}

// By hand, as that of `World`.
impl Drop for Ran {
    fn drop(self) {
        let Ran {
            host: _,
            status: _,
            world: _,
        } = self;
    }
}

impl Ran {
    /// Pushes what was written to the output and to the errors, and a status that isn't 0.
    pub fn push(&self, out: &mut Text) {
        out.push_bytes(self.world.out.bytes());
        out.push_bytes(self.world.err.bytes());
        if self.status != 0 {
            out.push_byte(b'[');
            out.push_count(u64::from(self.status), "]\n");
        }
    }

    /// What stands.
    pub fn into_host(self) -> MemoryHost {
        let Ran {
            host,
            status: _status,
            world: _world,
        } = self;
        host
    }
}

/// Copies a network, or none.
pub fn copied_net(net: Option<&Net>) -> Result<Option<Net>, NotDone> {
    match net {
        Some(net) => Ok(Some(net.copy()?)),
        None => Ok(None),
    }
}

/// The same network and checkpoint area, of which nothing is in doubt, at which these calls are to fail.
pub fn copied(alloc: Global, host: &MemoryHost, fuses: Vec<Fuse>) -> Result<MemoryHost, NotDone> {
    let net = copied_net(host.net())?;
    let cell = host.cell().clone()?;
    Ok(MemoryHost::new(alloc, net, cell, fuses))
}

/// Whether both have the same network, or none.
pub fn is_same(one: Option<&Net>, other: Option<&Net>) -> bool {
    match (one, other) {
        (Some(one), Some(other)) => same_net(one, other),
        (None, None) => true,
        _ => false,
    }
}

fn world_of(alloc: Global, input: &str) -> Result<World, NotDone> {
    let mut inputs = Vec::new(alloc);
    inputs.push((
        String::from_str(alloc, "-")?,
        Vec::from_slice(alloc, input.as_bytes())?,
    ))?;
    Ok(World {
        src: MemorySource::new(alloc, inputs, Vec::new(alloc)),
        folder: MemoryFolder::new(alloc, Vec::new(alloc), Vec::new(alloc)),
        out: MemorySink::new(alloc, Vec::new(alloc)),
        err: MemorySink::new(alloc, Vec::new(alloc)),
    })
}

fn run(alloc: Global, at: u64, words: &Vec<String>, host: &mut Host, world: &mut World) -> Report {
    let mut nodes: Vec<Host> = Vec::new(alloc);
    let mut clock = FixedClock::new(at);
    run_program(
        alloc,
        words,
        host,
        &mut nodes,
        &mut world.src,
        &mut world.folder,
        &mut world.out,
        &mut world.err,
        &mut clock,
    )
}

/// A machine without a network or a checkpoint.
pub fn bare(alloc: Global) -> MemoryHost {
    MemoryHost::new(alloc, None, Vec::new(alloc), Vec::new(alloc))
}

/// Runs the program for `MOMENT WORDS < INPUT` on a copy of what stands, at whose far end these calls fail. The input is its
/// standard input.
pub fn ask(alloc: Global, host: &MemoryHost, line: &str, fuses: Vec<Fuse>) -> Result<Ran, NotDone> {
    let (moment, rest) = first_word(line);
    let (command, input) = parted(rest, " < ");
    let at = number(moment)?;
    let words = words(alloc, command)?;
    let mut world = world_of(alloc, input)?;
    let mut host = PeerHost::new(FarEnd::new(alloc, copied(alloc, host, fuses)?));
    let status = run(alloc, at, &words, &mut host, &mut world).status;
    Ok(Ran {
        host: host.into_peer().into_host(),
        status,
        world,
    })
}

/// A machine with two devices, which a host in memory has made: no far end makes a first network.
pub fn devices(alloc: Global) -> Result<MemoryHost, NotDone> {
    let mut host = bare(alloc);
    let mut nodes: Vec<MemoryHost> = Vec::new(alloc);
    let mut world = world_of(alloc, DEVICES)?;
    let mut clock = FixedClock::new(0);
    let words = words(alloc, "init")?;
    let report = run_program(
        alloc,
        &words,
        &mut host,
        &mut nodes,
        &mut world.src,
        &mut world.folder,
        &mut world.out,
        &mut world.err,
        &mut clock,
    );
    if report.status != 0 {
        return Err(NotDone);
    }
    copied(alloc, &host, Vec::new(alloc))
}
