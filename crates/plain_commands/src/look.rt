//! Looking at the network.
ghost use Rattle.command_laws.specs.Looked.{Finds, ChangesNothing};

use engine_model::Left;
use host_core::{Area, DumpFault, Host};
use net_core::Net;
use std::alloc::Global;
use top_model::Cause;

// The network as the host gives it, or why it gives none. Nothing is changed.
fn dumped<H: Host>(alloc: Global, host: &mut H) -> Result<Net, Cause>
    ensures finds { Finds H.tells H.honest (H.told host.old) (H.told host.new) result }
    ensures looks { ChangesNothing H.tells (H.told host.old) (H.told host.new) }
{
    match host.dump(alloc) {
        Ok(net) => Ok(net),
        Err(DumpFault::Failed) => Err(Cause::HostFault(Left::NotBegun)),
        Err(DumpFault::Damaged) => Err(Cause::Damaged(Area::Kernel.number())),
        Err(DumpFault::OutOfMemory) => Err(Cause::OutOfMemory),
    }
}

// The same, and then the host is let go, so that what is made of the network and told of it keeps nobody off.
pub(crate) fn look<H: Host>(alloc: Global, host: &mut H) -> Result<Net, Cause>
    ensures finds { Finds H.tells H.honest (H.told host.old) (H.told host.new) result }
    ensures looks { ChangesNothing H.tells (H.told host.old) (H.told host.new) }
{
    let found = dumped(alloc, host);
    host.release();
    found
}
