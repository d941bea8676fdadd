//! Which calls of an instance in memory fail.
ghost use Rattle.std.specs.Prelude.{◌≡◌, ◌==◌, [], None, Ok, true, IsTrue, OnOk, find};
ghost use Rattle.std.specs.Option.{option_copied, option_map_or};
ghost use Rattle.host_core.specs.Faults.{HasCause};
ghost use Rattle.host_memory.specs.Fused.{HasNoFuse, IsFresh, IsCounted, next_fuse};

use host_core::{Failed, raised};

/// A call that fails: its number, from 1, among all calls on the instance that can fail, and whether it is done all the
/// same.
#[derive(Clone, Copy, Debug)]
pub struct Fuse {
    pub call: u64,
    pub done: bool,
}

/// The calls that are to fail, and how many were made.
pub struct Fuses {
    fuses: Vec<Fuse>,
    made: u64,
}

// By hand, so that a proof sees one call where one is dropped, and not a step for each part.
impl Drop for Fuses {
    fn drop(self) {
        let Fuses { fuses: _, made: _ } = self;
    }
}

// The first fuse of this call, if it is to fail.
fn fuse_of(fuses: &[Fuse], call: u64) -> Option<&Fuse>
    ensures { option_copied result ≡ find (λ it. it.call == call) fuses.now }
{
    fuses.iter().find(|fuse| fuse.call == call)
}

impl Fuses {
    /// These calls are to fail, and none was made.
    pub fn new(fuses: Vec<Fuse>) -> Fuses
        ensures fresh { IsFresh fuses.items result }
        ensures unfused { fuses.items ≡ [] → HasNoFuse result }
    {
        Fuses { fuses, made: 0 }
    }

    /// Counts a call, and gives its fuse if it is to fail.
    pub fn next(&mut self) -> Option<Fuse>
        ensures next { result ≡ next_fuse self.old }
        ensures counted { IsCounted self.old self.new }
        ensures unfused { HasNoFuse self.old → result ≡ None }
        ensures same { HasNoFuse self.old → HasNoFuse self.new }
    {
        self.made = self.made.saturating_add(1);
        fuse_of(&self.fuses, self.made).copied()
    }
}

/// The answer of a call that was done or failed; a failure is counted.
pub fn counted(faults: &mut u64, is_done: bool) -> Result<(), Failed>
    ensures done { OnOk result (IsTrue is_done) }
    ensures quiet { IsTrue is_done → (result ≡ Ok tt) × (faults.new ≡ faults.old) }
    ensures cause { HasCause faults.old faults.new result }
{
    if is_done {
        return Ok(());
    }
    *faults = raised(*faults);
    Err(Failed)
}

/// Whether the call of this fuse is carried out: it has none, or one that lets it be done.
pub fn is_carried_out(fuse: Option<Fuse>) -> bool
    ensures { result ≡ option_map_or (λ it. it.done) fuse true }
{
    match fuse {
        None => true,
        Some(fuse) => fuse.done,
    }
}
