//! The host.
ghost use Rattle.std.specs.Prelude.{◌≡◌, ◌≢◌, ◌⊎◌, ◌<◌, ◌+◌, ◌^◌, ℕ, length, None, Some, IfOk, OnOk, OnErr, IsErrOf, IsSome};
ghost use Rattle.host_core.specs.Bytes.{Torn, Written, Filled};
ghost use Rattle.host_core.specs.Faults.{HasCause, HasFault};
ghost use Rattle.host_core.specs.HostView.{HostView, HasCell, Accepts, Refuses, MaybeCalled, SameCell, SameKernel, Untouched, CellTorn, IsFirst, IsMade, MaybeMade, counted, refused, dumped, IsLawfulHost};
ghost use Rattle.host_core.specs.Stops.{Steps, Stays, Keeps};

use crate::Failed;
use net_core::Net;
use net_model::Call;
use std::alloc::Global;

/// Why a first network wasn't made.
#[derive(Clone, Copy)]
pub enum MakeFault {
    /// There is a network. Nothing changed.
    Exists,
    /// What was there, the same with its checkpoint closed, or behind that no network or the new one.
    Failed,
    /// Nothing changed.
    OutOfMemory,
}

/// Why a host didn't give its network.
#[derive(Clone, Copy)]
pub enum DumpFault {
    Failed,
    /// There is no network.
    Damaged,
    OutOfMemory,
}

/// Why a call on the kernel wasn't answered Ok.
#[derive(Clone, Copy)]
pub enum CallFault {
    /// The kernel refuses the call, with the number of the refusal. Nothing changed.
    Refused(u8),
    /// The call was done, or it wasn't.
    Failed,
    /// Nothing changed.
    OutOfMemory,
}

/// A kernel with its network, and a checkpoint area, whose bytes are written and synced as those of a disk.
pub trait Host {
    /// Whether the host tells what it holds.
    ghost tells: { Type 0 };

    /// Whether the network, once it is made, changes by accepted calls alone, and a dump gives it. No call changes
    /// whether it does.
    ghost honest: { Type 0 };

    ghost told: { Self → HostView };

    /// Where there is no network, closes the checkpoint, if it is open or its area is empty, and then stores the first one.
    fn make(&mut self, alloc: Global, first: &Net) -> Result<(), MakeFault>
        requires { IsFirst first.now }
        ensures exists { tells → IsErrOf result MakeFault.Exists → IsSome (told self.old).state.net }
        ensures met { tells → OnOk result ((told self.old).state.net ≡ None) }
        ensures made { tells → OnOk result (IsMade first.now (told self.old).state (told self.new)) }
        // Where it meets a network, it changes nothing.
        ensures stays { tells → IsSome (told self.old).state.net
            → Steps Stays (told self.old).stops (told self.new).stops
            × ((told self.new).state ≡ (told self.old).state) }
        ensures same { tells → IsErrOf result MakeFault.OutOfMemory
            → Steps Stays (told self.old).stops (told self.new).stops
            × ((told self.new).state ≡ (told self.old).state) }
        // At each answer, and at each moment on the way.
        ensures maybe { tells → MaybeMade first.now (told self.old).state (told self.new).state }
        ensures stops { tells → Steps (MaybeMade first.now) (told self.old).stops (told self.new).stops }
        ensures kernel { (told self.new).kernel ≡ (told self.old).kernel }
        ensures settled { (told self.old).settled → (told self.new).settled }
        ensures fresh { tells → (told self.new).fresh ≡ None }
        ensures cause { HasFault (told self.old).faults (told self.new).faults MakeFault.Failed result };

    /// The network. A dump that succeeds settles the host.
    fn dump(&mut self, alloc: Global) -> Result<Net, DumpFault>
        ensures net { honest → IfOk result (λ net. (told self.old).state.net ≡ Some net) }
        ensures found { tells → OnOk result (IsSome (told self.old).state.net) }
        ensures damaged { tells → IsErrOf result DumpFault.Damaged → (told self.old).state.net ≡ None }
        ensures state { tells → (told self.new).state ≡ (told self.old).state }
        ensures stops { Steps Stays (told self.old).stops (told self.new).stops }
        ensures settles { OnOk result (told self.new).settled }
        ensures settled { (told self.old).settled → (told self.new).settled }
        ensures fresh { tells → IfOk result (λ net. (told self.new).fresh ≡ Some net) }
        ensures stale { tells → OnErr result ((told self.new).fresh ≡ (told self.old).fresh) }
        ensures calls { OnOk result ((told self.new).kernel ≡ dumped (told self.old).kernel) }
        ensures kernel { OnErr result ((told self.new).kernel ≡ (told self.old).kernel) }
        ensures cause { HasFault (told self.old).faults (told self.new).faults DumpFault.Failed result };

    /// One kernel call, whole or not done.
    fn call(&mut self, alloc: Global, call: &Call) -> Result<(), CallFault>
        requires { (told self.old).settled }

        ensures accepted { honest → OnOk result (Accepts call.now (told self.old).state.net (told self.new).state.net) }
        ensures refused { honest → (k : ℕ) → IsErrOf result (CallFault.Refused k) → Refuses call.now (told self.old).state.net k }
        ensures maybe { honest → MaybeCalled call.now (told self.old).state (told self.new).state }
        ensures cell { tells → SameCell (told self.old).state (told self.new).state }
        // At each moment the call is done or it isn't, and the checkpoint area is as it was.
        ensures stops { honest → Steps (MaybeCalled call.now) (told self.old).stops (told self.new).stops }
        ensures stops_cell { Steps SameCell (told self.old).stops (told self.new).stops }
        // All but `Failed` leave the host settled, and all but `Ok` and `Failed` change nothing.
        ensures settled { result ≢ Err CallFault.Failed → (told self.new).settled }
        ensures doubt { result ≡ Err CallFault.Failed → (told self.new).settled → ⊥ }
        ensures same { (k : ℕ) → IsErrOf result (CallFault.Refused k) ⊎ IsErrOf result CallFault.OutOfMemory
            → (tells → (told self.new).state ≡ (told self.old).state)
            × Steps Stays (told self.old).stops (told self.new).stops }
        ensures fresh { tells → (told self.new).fresh ≡ None }
        // Refusals and calls are counted.
        ensures counts { (k : ℕ) → IsErrOf result (CallFault.Refused k) → (told self.new).kernel ≡ refused k (told self.old).kernel }
        ensures counted { ((k : ℕ) → IsErrOf result (CallFault.Refused k) → ⊥) → (told self.new).kernel ≡ counted (told self.old).kernel }
        ensures cause { HasFault (told self.old).faults (told self.new).faults CallFault.Failed result };

    /// Fills the buffer from the checkpoint area up to its end, and answers how many bytes it filled.
    fn cell_read(&mut self, at: u64, buf: &mut [u8]) -> Result<u64, Failed>
        requires { at + length buf.old < 2 ^ 63 }
        ensures filled { tells → IfOk result (λ n. Filled at (told self.old).state.cell buf.old buf.new n) }
        ensures untouched { Untouched tells (told self.old) (told self.new) }
        ensures cause { HasCause (told self.old).faults (told self.new).faults result };

    /// Writes over what is there, and past the end. Until a sync that succeeds a stop may leave any bytes in the range
    /// and past the old end; after `Failed` the range may read as any bytes.
    fn cell_write(&mut self, at: u64, bytes: &[u8]) -> Result<(), Failed>
        requires { at + length bytes.now < 2 ^ 63 }
        ensures written { OnOk result (tells → Written at bytes.now (told self.old).state.cell (told self.new).state.cell) }
        ensures torn { tells → Torn at (length bytes.now) (told self.old).state.cell (told self.new).state.cell }
        ensures kernel { SameKernel tells (told self.old) (told self.new) }
        ensures stops { Steps (CellTorn at (length bytes.now)) (told self.old).stops (told self.new).stops }
        ensures cause { HasCause (told self.old).faults (told self.new).faults result };

    /// After it no byte of the checkpoint area is in doubt. One that fails changes no byte that a read gives, and what a
    /// stop may leave stays as it was before.
    fn cell_sync(&mut self) -> Result<(), Failed>
        ensures durable { OnOk result (tells → HasCell (told self.old).state.cell (told self.new)) }
        ensures untouched { Untouched tells (told self.old) (told self.new) }
        ensures kept { tells → OnErr result (Keeps (told self.old).stops (told self.new).stops) }
        ensures cause { HasCause (told self.old).faults (told self.new).faults result };

    /// Lets go of what keeps others off the state, until the next call. It changes nothing and can't fail.
    fn release(&mut self)
        ensures untouched { Untouched tells (told self.old) (told self.new) }
        ensures faults { (told self.new).faults ≡ (told self.old).faults };

    /// An honest host tells what it holds.
    ghost honest_tells: { honest → tells };

    ghost lawful: { (host : Self) → IsLawfulHost tells (told host) };
}
