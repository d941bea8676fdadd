//! The checkpoint with its network.
ghost use Rattle.std.specs.Prelude.{◌≡◌, ◌≤◌, ◌<◌, ◌+◌, ◌^◌, ℕ, drop, length, None, Some, IfOk, IsErrOf};
ghost use Rattle.image_slot.specs.Slot.{slot_net};
ghost use Rattle.host_core.specs.Faults.{HasFault};
ghost use Rattle.host_core.specs.HostView.{Untouched};
ghost use Rattle.checkpoint_cell.specs.Cell.{Checkpoint, cell_of};
ghost use Rattle.checkpoint_cell.specs.Loaded.{IsLoaded, IsBad};

use crate::{Phase, Seen, peek};
use byteorder::{BigEndian, ByteOrder};
use host_core::{Failed, Host};
use image_slot::LIMIT;
use net_core::Net;
use net_image::{ImageFault, decode};
use std::alloc::Global;

/// Why a checkpoint wasn't loaded.
#[derive(Drop)]
pub enum CellFault {
    Failed,
    /// The gate is open, and no image stands behind it.
    Damaged,
    OutOfMemory,
}

impl From<Failed> for CellFault {
    ghost use Rattle.std.specs.Prelude.{◌≡◌};
    ghost use Rattle.checkpoint_cell.specs.declared.loading.CellFault.TheVariants.{Failed};

    ghost from_gives = { λ _ e. e ≡ Failed };

    fn from(_: Failed) -> Self {
        CellFault::Failed
    }
}

/// A checkpoint with its network. The moments are in seconds.
#[derive(Drop)]
pub struct Pending {
    pub phase: Phase,
    pub made: u64,
    pub deadline: u64,
    pub net: Net,
}

// The network whose image stands behind its length.
fn load_net<H: Host>(host: &mut H, alloc: Global) -> Result<Net, CellFault>
    ensures net { H.tells → IfOk result (λ net. slot_net (drop 18 (H.told host.old).state.cell) ≡ Some net) }
    ensures damaged { H.tells → IsErrOf result CellFault.Damaged → slot_net (drop 18 (H.told host.old).state.cell) ≡ None }
    ensures untouched { Untouched H.tells (H.told host.old) (H.told host.new) }
    ensures cause { HasFault (H.told host.old).faults (H.told host.new).faults CellFault.Failed result }
{
    let mut head = [0; 4];
    let filled = host.cell_read(18, &mut head)?;
    let len = BigEndian::read_u32(&head);
    if filled < 4 || len > LIMIT {
        return Err(CellFault::Damaged);
    }
    let mut image = match Vec::from_elem(alloc, 0, len as usize) {
        Ok(image) => image,
        Err(_) => return Err(CellFault::OutOfMemory),
    };
    let filled = host.cell_read(22, &mut image)?;
    if filled < len as u64 {
        return Err(CellFault::Damaged);
    }
    match decode(alloc, &image) {
        Ok(net) => Ok(net),
        Err(ImageFault::Damaged) => Err(CellFault::Damaged),
        Err(ImageFault::OutOfMemory) => Err(CellFault::OutOfMemory),
    }
}

/// The checkpoint with its network, as the area reads.
pub fn load<H: Host>(host: &mut H, alloc: Global) -> Result<Option<Pending>, CellFault>
    ensures loaded { H.tells → IfOk result (λ pending. IsLoaded pending (cell_of (H.told host.old).state.cell)) }
    ensures damaged { H.tells → IsErrOf result CellFault.Damaged → IsBad (cell_of (H.told host.old).state.cell) }
    ensures untouched { Untouched H.tells (H.told host.old) (H.told host.new) }
    ensures cause { HasFault (H.told host.old).faults (H.told host.new).faults CellFault.Failed result }
{
    match peek(host)? {
        Seen::Empty => Ok(None),
        Seen::Set {
            phase,
            made,
            deadline,
        } => {
            let net = load_net(host, alloc)?;
            Ok(Some(Pending {
                phase,
                made,
                deadline,
                net,
            }))
        }
    }
}
