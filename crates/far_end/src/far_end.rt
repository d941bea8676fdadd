//! The far end.
ghost use Rattle.std.specs.Prelude.{◌≡◌, ◌≤◌, length, take, IfOk};
ghost use Rattle.host_core.specs.Faults.{HasCause};
ghost use Rattle.host_core.specs.Stops.{Steps, Stays};

use crate::answering::{Outcome, Silence, call_reply, dump_reply};
use host_core::{Failed, Host, raised};
use ip_batch::read_batch;
use net_model::Call;
use peer_core::{DONE, DUMP, NO_NETWORK, Peer, REFUSED};
use std::alloc::Global;

/// A host behind the protocol of a peer. A dump settles the host before each call. A request that is neither, a call where there
/// is no network, an answer that doesn't fit, and memory that is refused are faults of it.
#[derive(Drop)]
pub struct FarEnd<H: Host> {
    host: H,
    alloc: Global,
    faults: u64,
}

// Fills a buffer with bytes from its front, or counts a fault where they don't fit.
fn put(faults: &mut u64, answer: &mut [u8], bytes: &[u8]) -> Result<u64, Failed>
    ensures within { IfOk result (λ n. n ≤ length answer.old) }
    ensures bytes { IfOk result (λ n. take n answer.new ≡ bytes.now) }
    ensures cause { HasCause faults.old faults.new result }
{
    if bytes.len() > answer.len() {
        *faults = raised(*faults);
        return Err(Failed);
    }
    answer[..bytes.len()].copy_from_slice(bytes);
    Ok(bytes.len() as u64)
}

impl<H: Host> FarEnd<H> {
    /// The far end over this host, of which nothing is settled.
    pub fn new(alloc: Global, host: H) -> FarEnd<H>
        ensures state { (⟦<FarEnd<H> as Peer>⟧.told result).state ≡ (H.told host).state }
        ensures stops { Steps Stays (H.told host).stops (⟦<FarEnd<H> as Peer>⟧.told result).stops }
        ensures faults { (⟦<FarEnd<H> as Peer>⟧.told result).faults ≡ (H.told host).faults }
    {
        FarEnd {
            host,
            alloc,
            faults: 0,
        }
    }

    /// The host. It takes no memory.
    pub fn into_host(self) -> H
        ensures state { (H.told result).state ≡ (⟦<FarEnd<H> as Peer>⟧.told self).state }
        ensures stops { Steps Stays (⟦<FarEnd<H> as Peer>⟧.told self).stops (H.told result).stops }
        ensures faults { (H.told result).faults ≤ (⟦<FarEnd<H> as Peer>⟧.told self).faults }
    {
        let FarEnd { host, .. } = self;
        host
    }
}

impl<H: Host> FarEnd<H> {
    ghost use Rattle.far_end.specs.Told.{told_of};
    ghost use Rattle.far_end.specs.Answers.{AnswersDump, AnswersCall};

    // Answers a dump.
    fn answer_dump(&mut self, answer: &mut [u8]) -> Result<u64, Failed>
        ensures { AnswersDump H.honest (told_of H.Host self.old) (told_of H.Host self.new) (length answer.old) answer.new result }
    {
        match dump_reply(&mut self.host, self.alloc) {
            Ok(Some(bytes)) => put(&mut self.faults, answer, &bytes),
            Ok(None) => put(&mut self.faults, answer, &[NO_NETWORK]),
            Err(Silence::Failed) => Err(Failed),
            Err(_) => {
                self.faults = raised(self.faults);
                Err(Failed)
            }
        }
    }

    // Answers a call.
    fn answer_call(&mut self, call: &Call, answer: &mut [u8]) -> Result<u64, Failed>
        ensures { AnswersCall H.honest call.now (told_of H.Host self.old) (told_of H.Host self.new) (length answer.old) answer.new result }
    {
        match call_reply(&mut self.host, self.alloc, call) {
            Ok(Outcome::Done) => put(&mut self.faults, answer, &[DONE]),
            Ok(Outcome::Refused(k)) => put(&mut self.faults, answer, &[REFUSED, k]),
            Err(Silence::Failed) => Err(Failed),
            Err(_) => {
                self.faults = raised(self.faults);
                Err(Failed)
            }
        }
    }
}

impl<H: Host> Peer for FarEnd<H> {
    ghost use Rattle.far_end.specs.Told.{told_of, lawful_peer};
    ghost use Rattle.far_end.specs.Answers.{AnswersOnly};

    ghost tells = { H.honest };

    ghost honest = { H.honest };

    ghost told = { told_of H.Host };

    ghost exchanged = { λ request answer old new. AnswersOnly request answer old new };

    ghost honest_tells = { λ honest. honest };

    ghost lawful = { lawful_peer H.Host.own H.honest_tells H.lawful };

    fn ask(&mut self, request: &[u8], answer: &mut [u8]) -> Result<u64, Failed> {
        if request == DUMP {
            return self.answer_dump(answer);
        }
        match read_batch(self.alloc, request) {
            Ok(calls) => match calls.as_slice() {
                [call] => self.answer_call(call, answer),
                _ => {
                    self.faults = raised(self.faults);
                    Err(Failed)
                }
            },
            Err(_) => {
                self.faults = raised(self.faults);
                Err(Failed)
            }
        }
    }

    fn cell_read(&mut self, at: u64, buf: &mut [u8]) -> Result<u64, Failed> {
        self.host.cell_read(at, buf)
    }

    fn cell_write(&mut self, at: u64, bytes: &[u8]) -> Result<(), Failed> {
        self.host.cell_write(at, bytes)
    }

    fn cell_sync(&mut self) -> Result<(), Failed> {
        self.host.cell_sync()
    }

    fn release(&mut self) {
        self.host.release()
    }
}
