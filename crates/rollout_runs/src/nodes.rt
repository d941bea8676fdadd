//! The hosts of nodes, with their faults.
ghost use Rattle.std.specs.Prelude.{◌≡◌};

use crate::documents::{BOTH, SECOND, first};
use host_core::{CallFault, DumpFault, Failed, Host, MakeFault, raised};
use host_memory::{Fuse, MemoryHost};
use net_core::Net;
use net_model::Call;
use std::alloc::Global;

/// A host in memory for whose dump of this number, from 1, there is no memory.
#[derive(Drop)]
pub struct Node {
    host: MemoryHost,
    starves_at: u64,
    dumps: u64,
}

impl Node {
    pub fn host(&self) -> &MemoryHost {
        &self.host
    }

    /// The network that it has, if it has one.
    pub fn net(&self) -> Option<&Net> {
        self.host.net()
    }

    /// What stands on it, as a host that fails nowhere.
    pub fn mended(&self, alloc: Global) -> Option<Node> {
        let net = copied(self.host.net())?;
        let cell = self.host.cell().clone().ok()?;
        Some(Node {
            host: MemoryHost::new(alloc, net, cell, Vec::new(alloc)),
            starves_at: 0,
            dumps: 0,
        })
    }

    /// What a stop behind so many kernel calls, writes and syncs left, by a pick from 0 to 3; nothing where there were fewer.
    pub fn stopped(&self, alloc: Global, after: u64, pick: u8) -> Option<Node> {
        if after > self.host.calls() || pick > 3 {
            return None;
        }
        Some(Node {
            host: self.host.stopped(alloc, after, pick).ok()?,
            starves_at: 0,
            dumps: 0,
        })
    }
}

fn copied(net: Option<&Net>) -> Option<Option<Net>> {
    match net {
        Some(net) => Some(Some(net.copy().ok()?)),
        None => Some(None),
    }
}

impl Host for Node {
    ghost use Rattle.rollout_runs.specs.Nodes.{node_told, lawful_node};

    ghost tells = { Unit {0} };

    ghost honest = { Unit {0} };

    ghost told = { node_told };

    ghost honest_tells = { λ honest. honest };

    ghost lawful = { lawful_node };

    fn make(&mut self, alloc: Global, first: &Net) -> Result<(), MakeFault> {
        self.host.make(alloc, first)
    }

    fn dump(&mut self, alloc: Global) -> Result<Net, DumpFault> {
        self.dumps = raised(self.dumps);
        if self.dumps == self.starves_at {
            return Err(DumpFault::OutOfMemory);
        }
        self.host.dump(alloc)
    }

    fn call(&mut self, alloc: Global, call: &Call) -> Result<(), CallFault> {
        self.host.call(alloc, call)
    }

    fn cell_read(&mut self, at: u64, buf: &mut [u8]) -> Result<u64, Failed> {
        self.host.cell_read(at, buf)
    }

    fn cell_write(&mut self, at: u64, bytes: &[u8]) -> Result<(), Failed> {
        self.host.cell_write(at, bytes)
    }

    fn cell_sync(&mut self) -> Result<(), Failed> {
        self.host.cell_sync()
    }

    fn release(&mut self) {
        self.host.release();
    }
}

// The bytes of a closed checkpoint area.
fn closed_cell(alloc: Global) -> Option<Vec<u8>> {
    Vec::from_slice(alloc, &[0]).ok()
}

fn fused(alloc: Global, fault: Option<Fuse>) -> Option<Vec<Fuse>> {
    let mut fuses = Vec::new(alloc);
    if let Some(fuse) = fault {
        fuses.push(fuse).ok()?;
    }
    Some(fuses)
}

/// A node with the network of these devices, at which this call fails.
pub fn node_with(
    alloc: Global,
    devices: &str,
    fault: Option<Fuse>,
    starves_at: u64,
) -> Option<Node> {
    let net = first(alloc, devices)?;
    let cell = closed_cell(alloc)?;
    let fuses = fused(alloc, fault)?;
    Some(Node {
        host: MemoryHost::new(alloc, Some(net), cell, fuses),
        starves_at,
        dumps: 0,
    })
}

fn bare(alloc: Global) -> Option<Node> {
    let cell = closed_cell(alloc)?;
    Some(Node {
        host: MemoryHost::new(alloc, None, cell, Vec::new(alloc)),
        starves_at: 0,
        dumps: 0,
    })
}

fn failing(alloc: Global, call: &str, done: bool) -> Option<Node> {
    let call = call.parse::<u64>().ok()?;
    node_with(alloc, BOTH, Some(Fuse { call, done }), 0)
}

/// A node by its words: `ok`, `other` with the second device alone, `none` without a network, `fail:N` and `done:N` at whose
/// N-th call the host fails, without or with what was asked, and `starve:N` for whose N-th dump there is no memory.
pub fn node_of(alloc: Global, word: &str) -> Option<Node> {
    match word.split_once(':') {
        Some(("fail", call)) => failing(alloc, call, false),
        Some(("done", call)) => failing(alloc, call, true),
        Some(("starve", dump)) => node_with(alloc, BOTH, None, dump.parse::<u64>().ok()?),
        Some(_) => None,
        None => match word {
            "ok" => node_with(alloc, BOTH, None, 0),
            "other" => node_with(alloc, SECOND, None, 0),
            "none" => bare(alloc),
            _ => None,
        },
    }
}
