//! The peer.
ghost use Rattle.std.specs.Prelude.{◌≡◌, ◌≤◌, ◌<◌, ◌+◌, ◌^◌, ℕ, List, Option, length, take, IfOk, OnOk, OnErr};
ghost use Rattle.host_core.specs.Bytes.{Torn, Written, Filled};
ghost use Rattle.host_core.specs.Faults.{HasCause};
ghost use Rattle.host_core.specs.HostView.{SameNet, CellTorn};
ghost use Rattle.host_core.specs.Stops.{Steps, Keeps};
ghost use Rattle.net_model.specs.declared.call.Call.{Call};
ghost use Rattle.peer_core.specs.PeerView.{PeerView, IsLawfulPeer, Untouched, HasCell};
ghost use Rattle.peer_core.specs.Protocol.{IsDump, IsRequest, answer_of, Dumped, Calls, Answered};

use host_core::Failed;

/// A machine that is asked for its network and for calls on it, one request and one answer at a time, and a checkpoint area
/// beside it, whose bytes are written and synced as those of a disk. The request is `DUMP`, or the line of a call. What
/// answers are read as, `Dumped` and `Answered` say; a request or an answer that is neither says nothing.
pub trait Peer {
    /// Whether the peer tells the network and the bytes of the checkpoint area, and a dump gives that network.
    ghost tells: { Type 0 };

    /// Whether the network changes by accepted calls alone, besides.
    ghost honest: { Type 0 };

    ghost told: { Self → PeerView };

    /// What the peer says of one request with its answer, or without one where it failed, and of itself before and after. A
    /// host over any peer says by it which request it makes, and what it makes of each answer.
    ghost exchanged: { List ℕ → Option (List ℕ) → Self → Self → Type 0 };

    /// Sends a request, fills the buffer with the answer from its front, and gives how many bytes the answer has. One that
    /// has more than the buffer is a fault. It takes no memory. After `Failed` a call was done, or it wasn't.
    fn ask(&mut self, request: &[u8], answer: &mut [u8]) -> Result<u64, Failed>
        ensures bound { IfOk result (λ n. n ≤ length answer.old) }
        ensures dump { IsDump request.now → Untouched tells (told self.old) (told self.new) }
        ensures dumped { IsDump request.now → IfOk result (λ n. Dumped tells (told self.old) (told self.new) (take n answer.new)) }
        ensures call { (call : Call) → IsRequest call request.now → Calls tells honest call (told self.old) (told self.new) }
        ensures answered { (call : Call) → IsRequest call request.now
            → IfOk result (λ n. Answered tells honest call (told self.old) (told self.new) (take n answer.new)) }
        ensures exchanged { exchanged request.now (answer_of result answer.new) self.old self.new }
        ensures cause { HasCause (told self.old).faults (told self.new).faults result };

    /// Fills the buffer from the checkpoint area up to its end, and answers how many bytes it filled.
    fn cell_read(&mut self, at: u64, buf: &mut [u8]) -> Result<u64, Failed>
        requires { at + length buf.old < 2 ^ 63 }
        ensures filled { tells → IfOk result (λ n. Filled at (told self.old).state.cell buf.old buf.new n) }
        ensures untouched { Untouched tells (told self.old) (told self.new) }
        ensures cause { HasCause (told self.old).faults (told self.new).faults result };

    /// Writes over what is there, and past the end. Until a sync that succeeds a stop may leave any bytes in the range
    /// and past the old end; after `Failed` the range may read as any bytes.
    fn cell_write(&mut self, at: u64, bytes: &[u8]) -> Result<(), Failed>
        requires { at + length bytes.now < 2 ^ 63 }
        ensures written { OnOk result (tells → Written at bytes.now (told self.old).state.cell (told self.new).state.cell) }
        ensures torn { tells → Torn at (length bytes.now) (told self.old).state.cell (told self.new).state.cell }
        ensures net { tells → SameNet (told self.old).state (told self.new).state }
        ensures stops { Steps (CellTorn at (length bytes.now)) (told self.old).stops (told self.new).stops }
        ensures cause { HasCause (told self.old).faults (told self.new).faults result };

    /// After it no byte of the checkpoint area is in doubt. One that fails changes no byte that a read gives, and what a
    /// stop may leave stays as it was before.
    fn cell_sync(&mut self) -> Result<(), Failed>
        ensures durable { OnOk result (tells → HasCell (told self.old).state.cell (told self.new)) }
        ensures untouched { Untouched tells (told self.old) (told self.new) }
        ensures kept { tells → OnErr result (Keeps (told self.old).stops (told self.new).stops) }
        ensures cause { HasCause (told self.old).faults (told self.new).faults result };

    /// Lets go of what keeps others off the checkpoint area, until the next call. It changes nothing and can't fail.
    fn release(&mut self)
        ensures untouched { Untouched tells (told self.old) (told self.new) }
        ensures faults { (told self.new).faults ≡ (told self.old).faults };

    /// An honest peer tells what it holds.
    ghost honest_tells: { honest → tells };

    ghost lawful: { (peer : Self) → IsLawfulPeer tells (told peer) };
}
