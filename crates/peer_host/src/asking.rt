//! What a peer is asked, and what its answers are read as.
ghost use Rattle.std.specs.Prelude.{◌≡◌, ℕ, List, IfOk, OnOk, IsErrOf};
ghost use Rattle.peer_core.specs.Protocol.{no_network, network_of, done, refused_with, SaysNoCall, SaysNoNet};
ghost use Rattle.peer_host.specs.Asks.{AsksNet, AsksThis};
ghost use Rattle.peer_host.specs.Read.{IsNetwork, Reads, Called};

use crate::request::request_of;
use host_core::Failed;
use net_core::Net;
use net_image::{ImageFault, decode};
use net_model::Call;
use peer_core::{DONE, DUMP, MAX_ANSWER_BYTES, NETWORK, NO_NETWORK, Peer, REFUSED};
use std::alloc::Global;

/// Why a peer gave no network.
#[derive(Clone, Copy)]
pub enum Missed {
    /// The peer failed.
    Failed,
    /// Its answer says nothing.
    Unreadable,
    /// It has no network.
    NoNetwork,
    OutOfMemory,
}

/// Why a call wasn't answered as done.
#[derive(Clone, Copy)]
pub enum Unanswered {
    Refused(u8),
    /// The peer failed.
    Failed,
    /// Its answer says nothing.
    Unreadable,
    /// It wasn't asked.
    OutOfMemory,
}

// The network of an answer to a dump.
fn network_in(alloc: Global, answer: &[u8]) -> Result<Net, Missed>
    ensures network { IfOk result (IsNetwork answer.now) }
    ensures none { IsErrOf result Missed.NoNetwork → answer.now ≡ no_network }
    ensures unreadable { IsErrOf result Missed.Unreadable → SaysNoNet answer.now }
    ensures memory { IsErrOf result Missed.OutOfMemory → (image : List ℕ) × (answer.now ≡ network_of image) }
    ensures failed { IsErrOf result Missed.Failed → ⊥ }
{
    match answer {
        [NETWORK, image @ ..] => match decode(alloc, image) {
            Ok(net) => Ok(net),
            Err(ImageFault::Damaged) => Err(Missed::Unreadable),
            Err(ImageFault::OutOfMemory) => Err(Missed::OutOfMemory),
        },
        [NO_NETWORK] => Err(Missed::NoNetwork),
        _ => Err(Missed::Unreadable),
    }
}

// Asks a peer for its network, whose answer is read in this buffer.
fn read_in<P: Peer>(peer: &mut P, alloc: Global, answer: &mut [u8]) -> Result<Net, Missed>
    ensures reads { Reads P.tells (P.told peer.old) (P.told peer.new) result }
    ensures asks { AsksNet P.Peer peer.old peer.new result }
{
    match peer.ask(DUMP, answer) {
        Ok(n) => network_in(alloc, &answer[..n as usize]),
        Err(Failed) => Err(Missed::Failed),
    }
}

/// Asks a peer for its network.
pub fn read<P: Peer>(peer: &mut P, alloc: Global) -> Result<Net, Missed>
    ensures reads { Reads P.tells (P.told peer.old) (P.told peer.new) result }
    ensures asks { AsksNet P.Peer peer.old peer.new result }
{
    let mut answer = match Vec::from_elem(alloc, 0, MAX_ANSWER_BYTES) {
        Ok(answer) => answer,
        Err(_) => return Err(Missed::OutOfMemory),
    };
    read_in(peer, alloc, &mut answer)
}

// What an answer to a call says.
fn answer_in(answer: &[u8]) -> Result<(), Unanswered>
    ensures done { OnOk result (answer.now ≡ done) }
    ensures refused { (k : ℕ) → IsErrOf result (Unanswered.Refused k) → answer.now ≡ refused_with k }
    ensures unreadable { IsErrOf result Unanswered.Unreadable → SaysNoCall answer.now }
    ensures failed { IsErrOf result Unanswered.Failed → ⊥ }
    ensures asked { IsErrOf result Unanswered.OutOfMemory → ⊥ }
{
    match answer {
        [DONE] => Ok(()),
        [REFUSED, k] => Err(Unanswered::Refused(*k)),
        _ => Err(Unanswered::Unreadable),
    }
}

/// Asks a peer for a call. All memory is taken before it is asked.
pub fn ask_call<P: Peer>(peer: &mut P, alloc: Global, call: &Call) -> Result<(), Unanswered>
    ensures called { Called P.tells P.honest call.now (P.told peer.old) (P.told peer.new) result }
    ensures asks { AsksThis P.Peer call.now peer.old peer.new result }
{
    let Ok(request) = request_of(alloc, call) else {
        return Err(Unanswered::OutOfMemory);
    };
    let mut answer = [0; 2];
    match peer.ask(&request, &mut answer) {
        Ok(n) => answer_in(&answer[..n as usize]),
        Err(Failed) => Err(Unanswered::Failed),
    }
}
