//! Hosts that are made anew from what stands.

use crate::not_done::NotDone;
use crate::runs::{Faults, taken};
use crate::stored::cut;
use case_outside::{LyingHost, MemoryDisk, RefusingHost};
use host_core::{Area, DumpFault, Host};
use host_memory::{Fuse, MemoryHost};
use net_core::Net;
use net_equal::same_net;
use std::alloc::Global;
use std::mem;

/// How many bytes of a checkpoint are taken over from a host that refuses calls.
const MOST_TAKEN: usize = 4096;

/// Whether the networks are equal in all their parts, or both are none.
pub fn is_same(one: &Option<Net>, other: &Option<Net>) -> bool {
    match (one, other) {
        (Some(one), Some(other)) => same_net(one, other),
        (None, None) => true,
        _ => false,
    }
}

/// Copies a network, or none.
pub fn copied_net(net: Option<&Net>) -> Result<Option<Net>, NotDone> {
    match net {
        Some(net) => Ok(Some(net.copy()?)),
        None => Ok(None),
    }
}

/// What a host gives as its network, or none where it has none.
pub fn dumped<H: Host>(alloc: Global, host: &mut H) -> Result<Option<Net>, NotDone> {
    match host.dump(alloc) {
        Ok(net) => Ok(Some(net)),
        Err(DumpFault::Damaged) => Ok(None),
        Err(_) => Err(NotDone),
    }
}

/// The bytes of an area.
pub fn held(disk: &MemoryDisk, area: Area) -> &Vec<u8> {
    match area {
        Area::Kernel => disk.area(Area::Kernel.number()),
        Area::Checkpoint => disk.area(Area::Checkpoint.number()),
    }
}

/// The same network and checkpoint area, of which nothing is in doubt, at which these calls are to fail.
pub fn copied_host(
    alloc: Global,
    host: &MemoryHost,
    fuses: Vec<Fuse>,
) -> Result<MemoryHost, NotDone> {
    let net = copied_net(host.net())?;
    let cell = host.cell().clone()?;
    Ok(MemoryHost::new(alloc, net, cell, fuses))
}

/// The same bytes, of which none is in doubt.
pub fn copied_disk(
    alloc: Global,
    disk: &MemoryDisk,
    fuses: Vec<Fuse>,
) -> Result<MemoryDisk, NotDone> {
    let kernel = held(disk, Area::Kernel).clone()?;
    let cell = held(disk, Area::Checkpoint).clone()?;
    Ok(MemoryDisk::new(alloc, kernel, cell, fuses))
}

/// The same bytes, but for those of an area.
pub fn disk_with(
    alloc: Global,
    disk: &MemoryDisk,
    area: Area,
    bytes: Vec<u8>,
) -> Result<MemoryDisk, NotDone> {
    match area {
        Area::Kernel => {
            let cell = held(disk, Area::Checkpoint).clone()?;
            Ok(MemoryDisk::new(alloc, bytes, cell, Vec::new(alloc)))
        }
        Area::Checkpoint => {
            let kernel = held(disk, Area::Kernel).clone()?;
            Ok(MemoryDisk::new(alloc, kernel, bytes, Vec::new(alloc)))
        }
    }
}

/// A host with the same network and checkpoint area that lies.
pub fn liar(alloc: Global, host: &MemoryHost) -> Result<LyingHost, NotDone> {
    let Some(net) = host.net() else {
        return Err(NotDone);
    };
    let cell = host.cell().clone()?;
    Ok(LyingHost::new(alloc, net.copy()?, cell))
}

/// A host with the same network and checkpoint area that refuses these calls, and at which these are to fail.
pub fn refuser(
    alloc: Global,
    host: &MemoryHost,
    faults: &mut Faults,
) -> Result<RefusingHost, NotDone> {
    let Some(net) = host.net() else {
        return Err(NotDone);
    };
    let cell = host.cell().clone()?;
    let net = net.copy()?;
    let fuses = taken(alloc, &mut faults.host);
    let refusals = mem::replace(&mut faults.refusals, Vec::new(alloc));
    Ok(RefusingHost::new(alloc, net, cell, fuses, refusals))
}

/// What stands on a host that refuses calls, as a host that refuses nothing of its own.
pub fn taken_over(alloc: Global, host: &mut RefusingHost) -> Result<MemoryHost, NotDone> {
    let mut bytes = [0_u8; MOST_TAKEN];
    let Ok(filled) = host.cell_read(0, &mut bytes) else {
        return Err(NotDone);
    };
    let cell = Vec::from_slice(alloc, cut(&bytes, filled))?;
    let net = copied_net(host.net())?;
    Ok(MemoryHost::new(alloc, net, cell, Vec::new(alloc)))
}
