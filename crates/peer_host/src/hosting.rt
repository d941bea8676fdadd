//! What a host over a peer does.
ghost use Rattle.std.specs.Prelude.{◌≡◌, ◌≢◌, ◌⊎◌, ◌≤◌, ℕ, None, Some, Err, IfOk, OnOk, OnErr, IsErrOf, IsSome};
ghost use Rattle.host_core.specs.Faults.{HasFault};
ghost use Rattle.host_core.specs.HostView.{Accepts, Refuses, MaybeCalled, SameCell, IsFirst, IsMade, MaybeMade, counted, refused, dumped};
ghost use Rattle.host_core.specs.Stops.{Steps, Stays};
ghost use Rattle.peer_host.specs.Asks.{AsksDump, AsksMake, AsksCall};
ghost use Rattle.peer_host.specs.Told.{told_of};

use crate::asking::{Missed, Unanswered, ask_call, read};
use crate::host::PeerHost;
use host_core::{CallFault, DumpFault, Failed, Host, MakeFault, raised};
use net_core::Net;
use net_model::Call;
use peer_core::Peer;
use std::alloc::Global;

impl<P: Peer> PeerHost<P> {
    /// A host over this peer. It isn't settled; nothing was called and nothing failed.
    pub fn new(peer: P) -> PeerHost<P>
        ensures state { (⟦<PeerHost<P> as Host>⟧.told result).state ≡ (P.told peer).state }
        ensures stops { Steps Stays (P.told peer).stops (⟦<PeerHost<P> as Host>⟧.told result).stops }
        ensures unsettled { (⟦<PeerHost<P> as Host>⟧.told result).settled → ⊥ }
        ensures fresh { (⟦<PeerHost<P> as Host>⟧.told result).fresh ≡ None }
        ensures faults { (⟦<PeerHost<P> as Host>⟧.told result).faults ≡ (P.told peer).faults }
        ensures calls { (⟦<PeerHost<P> as Host>⟧.told result).kernel.calls ≡ 0 }
        ensures refusals { (⟦<PeerHost<P> as Host>⟧.told result).kernel.refusals ≡ 0 }
    {
        PeerHost {
            peer,
            settled: false,
            fresh: false,
            faults: 0,
            calls: 0,
            refusals: 0,
            last_refusal: 0,
            last_call: 0,
        }
    }

    /// The peer. It takes no memory.
    pub fn into_peer(self) -> P
        ensures state { (P.told result).state ≡ (⟦<PeerHost<P> as Host>⟧.told self).state }
        ensures stops { Steps Stays (⟦<PeerHost<P> as Host>⟧.told self).stops (P.told result).stops }
        ensures faults { (P.told result).faults ≤ (⟦<PeerHost<P> as Host>⟧.told self).faults }
    {
        let PeerHost { peer, .. } = self;
        peer
    }
}

impl<P: Peer> Host for PeerHost<P> {
    ghost use Rattle.peer_host.specs.Told.{told_of, lawful_host};

    ghost tells = { P.tells };

    ghost honest = { P.honest };

    ghost told = { told_of P.Peer };

    ghost honest_tells = { P.honest_tells };

    ghost lawful = { lawful_host P.Peer.own P.lawful };

    // A peer makes no first network: where it has one, that is there, and where it has none, this fails.
    fn make(&mut self, alloc: Global, _first: &Net) -> Result<(), MakeFault>
        requires { IsFirst _first.now }
        ensures exists { P.tells → IsErrOf result MakeFault.Exists → IsSome (told_of P.Peer self.old).state.net }
        ensures met { P.tells → OnOk result ((told_of P.Peer self.old).state.net ≡ None) }
        ensures made { P.tells → OnOk result (IsMade _first.now (told_of P.Peer self.old).state (told_of P.Peer self.new)) }
        ensures stays { P.tells → IsSome (told_of P.Peer self.old).state.net
            → Steps Stays (told_of P.Peer self.old).stops (told_of P.Peer self.new).stops
            × ((told_of P.Peer self.new).state ≡ (told_of P.Peer self.old).state) }
        ensures same { P.tells → IsErrOf result MakeFault.OutOfMemory
            → Steps Stays (told_of P.Peer self.old).stops (told_of P.Peer self.new).stops
            × ((told_of P.Peer self.new).state ≡ (told_of P.Peer self.old).state) }
        ensures maybe { P.tells → MaybeMade _first.now (told_of P.Peer self.old).state (told_of P.Peer self.new).state }
        ensures stops { P.tells → Steps (MaybeMade _first.now) (told_of P.Peer self.old).stops (told_of P.Peer self.new).stops }
        ensures kernel { (told_of P.Peer self.new).kernel ≡ (told_of P.Peer self.old).kernel }
        ensures settled { (told_of P.Peer self.old).settled → (told_of P.Peer self.new).settled }
        ensures fresh { P.tells → (told_of P.Peer self.new).fresh ≡ None }
        ensures cause { HasFault (told_of P.Peer self.old).faults (told_of P.Peer self.new).faults MakeFault.Failed result }
        // It is asked for its network, and nothing else.
        ensures asks { AsksMake P.Peer self.old self.new result }
    {
        self.fresh = false;
        match read(&mut self.peer, alloc) {
            Ok(_net) => Err(MakeFault::Exists),
            Err(Missed::OutOfMemory) => Err(MakeFault::OutOfMemory),
            Err(Missed::Failed) => Err(MakeFault::Failed),
            Err(Missed::NoNetwork) => {
                self.faults = raised(self.faults);
                Err(MakeFault::Failed)
            }
            Err(Missed::Unreadable) => {
                self.faults = raised(self.faults);
                Err(MakeFault::Failed)
            }
        }
    }

    fn dump(&mut self, alloc: Global) -> Result<Net, DumpFault>
        ensures net { P.honest → IfOk result (λ net. (told_of P.Peer self.old).state.net ≡ Some net) }
        ensures found { P.tells → OnOk result (IsSome (told_of P.Peer self.old).state.net) }
        ensures damaged { P.tells → IsErrOf result DumpFault.Damaged → (told_of P.Peer self.old).state.net ≡ None }
        ensures state { P.tells → (told_of P.Peer self.new).state ≡ (told_of P.Peer self.old).state }
        ensures stops { Steps Stays (told_of P.Peer self.old).stops (told_of P.Peer self.new).stops }
        ensures settles { OnOk result (told_of P.Peer self.new).settled }
        ensures settled { (told_of P.Peer self.old).settled → (told_of P.Peer self.new).settled }
        ensures fresh { P.tells → IfOk result (λ net. (told_of P.Peer self.new).fresh ≡ Some net) }
        ensures stale { P.tells → OnErr result ((told_of P.Peer self.new).fresh ≡ (told_of P.Peer self.old).fresh) }
        ensures calls { OnOk result ((told_of P.Peer self.new).kernel ≡ dumped (told_of P.Peer self.old).kernel) }
        ensures kernel { OnErr result ((told_of P.Peer self.new).kernel ≡ (told_of P.Peer self.old).kernel) }
        ensures cause { HasFault (told_of P.Peer self.old).faults (told_of P.Peer self.new).faults DumpFault.Failed result }
        // It is asked for its network once, and the answer is read so.
        ensures asks { AsksDump P.Peer self.old self.new result }
    {
        match read(&mut self.peer, alloc) {
            Ok(net) => {
                self.calls = 0;
                self.settled = true;
                self.fresh = true;
                Ok(net)
            }
            Err(Missed::Failed) => Err(DumpFault::Failed),
            Err(Missed::NoNetwork) => Err(DumpFault::Damaged),
            Err(Missed::OutOfMemory) => Err(DumpFault::OutOfMemory),
            Err(Missed::Unreadable) => {
                self.faults = raised(self.faults);
                Err(DumpFault::Failed)
            }
        }
    }

    fn call(&mut self, alloc: Global, call: &Call) -> Result<(), CallFault>
        requires { (told_of P.Peer self.old).settled }
        ensures accepted { P.honest → OnOk result (Accepts call.now (told_of P.Peer self.old).state.net (told_of P.Peer self.new).state.net) }
        ensures refused { P.honest → (k : ℕ) → IsErrOf result (CallFault.Refused k) → Refuses call.now (told_of P.Peer self.old).state.net k }
        ensures maybe { P.honest → MaybeCalled call.now (told_of P.Peer self.old).state (told_of P.Peer self.new).state }
        ensures cell { P.tells → SameCell (told_of P.Peer self.old).state (told_of P.Peer self.new).state }
        ensures stops { P.honest → Steps (MaybeCalled call.now) (told_of P.Peer self.old).stops (told_of P.Peer self.new).stops }
        ensures stops_cell { Steps SameCell (told_of P.Peer self.old).stops (told_of P.Peer self.new).stops }
        ensures settled { result ≢ Err CallFault.Failed → (told_of P.Peer self.new).settled }
        ensures doubt { result ≡ Err CallFault.Failed → (told_of P.Peer self.new).settled → ⊥ }
        ensures same { (k : ℕ) → IsErrOf result (CallFault.Refused k) ⊎ IsErrOf result CallFault.OutOfMemory
            → (P.tells → (told_of P.Peer self.new).state ≡ (told_of P.Peer self.old).state)
            × Steps Stays (told_of P.Peer self.old).stops (told_of P.Peer self.new).stops }
        ensures fresh { P.tells → (told_of P.Peer self.new).fresh ≡ None }
        ensures counts { (k : ℕ) → IsErrOf result (CallFault.Refused k) → (told_of P.Peer self.new).kernel ≡ refused k (told_of P.Peer self.old).kernel }
        ensures counted { ((k : ℕ) → IsErrOf result (CallFault.Refused k) → ⊥) → (told_of P.Peer self.new).kernel ≡ counted (told_of P.Peer self.old).kernel }
        ensures cause { HasFault (told_of P.Peer self.old).faults (told_of P.Peer self.new).faults CallFault.Failed result }
        // The call is asked for once, by its line, and the answer is read so.
        ensures asks { AsksCall P.Peer call.now self.old self.new result }
    {
        self.calls = raised(self.calls);
        self.fresh = false;
        self.settled = false;
        match ask_call(&mut self.peer, alloc, call) {
            Ok(()) => {
                self.settled = true;
                Ok(())
            }
            Err(Unanswered::Refused(k)) => {
                self.refusals = raised(self.refusals);
                self.last_refusal = k;
                self.last_call = self.calls;
                self.settled = true;
                Err(CallFault::Refused(k))
            }
            Err(Unanswered::OutOfMemory) => {
                self.settled = true;
                Err(CallFault::OutOfMemory)
            }
            Err(Unanswered::Failed) => Err(CallFault::Failed),
            Err(Unanswered::Unreadable) => {
                self.faults = raised(self.faults);
                Err(CallFault::Failed)
            }
        }
    }

    fn cell_read(&mut self, at: u64, buf: &mut [u8]) -> Result<u64, Failed> {
        self.peer.cell_read(at, buf)
    }

    fn cell_write(&mut self, at: u64, bytes: &[u8]) -> Result<(), Failed> {
        self.peer.cell_write(at, bytes)
    }

    fn cell_sync(&mut self) -> Result<(), Failed> {
        self.peer.cell_sync()
    }

    fn release(&mut self) {
        self.peer.release()
    }
}
