//! A peer over two files, and the checkpoint area over a disk. It tells nothing of its content, and counts its faults.
ghost use Rattle.std.specs.Prelude.{◌≡◌, ◌≤◌, ◌+◌};
ghost use Rattle.host_core.specs.Faults.{Rose};

use crate::frames::Frames;
use host_core::{Disk, Failed, raised};
use peer_core::Peer;

/// The area of the disk that is the checkpoint's. The other isn't touched.
const CHECKPOINT: u8 = 1;

/// A peer at the other end of two files, with the checkpoint in area 1 of a disk. Where it failed once it fails from then on,
/// so that no answer that comes late is taken for the next.
pub struct StreamPeer<D: Disk> {
    frames: Option<Frames>,
    disk: D,
    faults: u64,
}

impl<D: Disk + Drop> Drop for StreamPeer<D> {
    fn drop(self) {
        let StreamPeer {
            frames: _,
            disk: _,
            faults: _,
        } = self;
    }
}

impl<D: Disk> StreamPeer<D> {
    /// A peer over these files, or one that fails at each request where they couldn't be opened.
    pub fn new(frames: Option<Frames>, disk: D) -> StreamPeer<D>
        ensures { (⟦<StreamPeer<D> as Peer>⟧.told result).faults ≡ (D.told disk).faults }
    {
        StreamPeer {
            frames,
            disk,
            faults: 0,
        }
    }
}

impl<D: Disk> Peer for StreamPeer<D> {
    ghost use Rattle.stream_peer.specs.Exchanged.{Exchanged};
    ghost use Rattle.stream_peer.specs.Silent.{silent, lawful_silent};

    ghost tells = { ⊥ };

    ghost honest = { ⊥ };

    ghost told = { λ peer. silent (peer.faults + (D.told peer.disk).faults) };

    ghost exchanged = { λ request answer old new. Exchanged answer old new };

    ghost honest_tells = { λ honest. honest };

    ghost lawful = { λ peer. lawful_silent (peer.faults + (D.told peer.disk).faults) };

    fn ask(&mut self, request: &[u8], answer: &mut [u8]) -> Result<u64, Failed> {
        if let Some(frames) = &mut self.frames {
            if let Some(n) = frames.exchange(request, answer) {
                return Ok(n);
            }
        }
        self.frames = None;
        self.faults = raised(self.faults);
        Err(Failed)
    }

    fn cell_read(&mut self, at: u64, buf: &mut [u8]) -> Result<u64, Failed> {
        self.disk.read_at(CHECKPOINT, at, buf)
    }

    fn cell_write(&mut self, at: u64, bytes: &[u8]) -> Result<(), Failed> {
        self.disk.write_at(CHECKPOINT, at, bytes)
    }

    fn cell_sync(&mut self) -> Result<(), Failed> {
        self.disk.sync(CHECKPOINT)
    }

    fn release(&mut self) {
        self.disk.release()
    }
}
