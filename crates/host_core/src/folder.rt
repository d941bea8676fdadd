//! A folder of documents.
ghost use Rattle.std.specs.Prelude.{◌≡◌, ◌≤◌, ◌<◌, None, Some, length, IfOk, OnOk, IsErrOf};
ghost use Rattle.host_core.specs.Faults.{HasCause, HasFault};
ghost use Rattle.host_core.specs.Folders.{FolderView, IsLawfulFolder, HasFiles, IsPending, MaybeMarked, ReadsOn, Unmoved, bytes_of, pending_names, without};
ghost use Rattle.host_core.specs.Stops.{Steps};

use crate::{Failed, StartFault};
use net_model::Domain;
use std::alloc::Global;

/// Why a folder didn't give the names of its files.
#[derive(Clone, Copy)]
pub enum NamesFault {
    /// A call of the folder failed.
    Failed,
    /// There was no memory for the names.
    OutOfMemory,
}

/// A folder of files, each of which can be marked once. A file is pending where it isn't marked and its name ends in `.yml`.
pub trait Folder {
    /// Whether the folder tells its files that aren't marked, with their bytes.
    ghost tells: { Type 0 };

    ghost told: { Self → FolderView };

    /// The names of the pending files, in the order of their bytes, each once.
    fn names(&mut self, alloc: Global) -> Result<Vec<Domain>, NamesFault>
        ensures names { tells → IfOk result (λ names. names.items ≡ pending_names (told self.old).files) }
        ensures unmoved { Unmoved tells (told self.old) (told self.new) }
        ensures cause { HasFault (told self.old).faults (told self.new).faults NamesFault.Failed result };

    /// Begins the file of a name that isn't marked, from its first byte on.
    fn start(&mut self, name: &Domain) -> Result<(), StartFault>
        ensures begins { tells → OnOk result (bytes_of name.now (told self.old).files ≡ Some (told self.new).left) }
        ensures no_such { tells → IsErrOf result StartFault.NoSuchName → bytes_of name.now (told self.old).files ≡ None }
        ensures unmoved { Unmoved tells (told self.old) (told self.new) }
        ensures cause { HasFault (told self.old).faults (told self.new).faults StartFault.Failed result };

    /// Reads some of what is left into the buffer, and answers how many bytes: 0 only at the end of the file.
    fn read(&mut self, buf: &mut [u8]) -> Result<u64, Failed>
        requires { 0 < length buf.old }
        ensures bound { IfOk result (λ n. n ≤ length buf.old) }
        ensures reads { tells → IfOk result (ReadsOn (told self.old).left (told self.new).left buf.new) }
        ensures unmoved { Unmoved tells (told self.old) (told self.new) }
        ensures cause { HasCause (told self.old).faults (told self.new).faults result };

    /// Marks a pending file, and changes no other. After `Failed`, and at each moment on the way, it is marked or it isn't; once
    /// it was marked, it stays so.
    fn mark(&mut self, name: &Domain) -> Result<(), Failed>
        requires { tells → IsPending name.now (told self.old).files }
        ensures marked { OnOk result (tells → (told self.new).files ≡ without name.now (told self.old).files) }
        ensures maybe { tells → MaybeMarked name.now (told self.old).files (told self.new).files }
        ensures stays { OnOk result (tells → HasFiles (told self.new).files (told self.new)) }
        ensures stops { Steps (MaybeMarked name.now) (told self.old).stops (told self.new).stops }
        ensures cause { HasCause (told self.old).faults (told self.new).faults result };

    ghost lawful: { (folder : Self) → IsLawfulFolder tells (told folder) };
}
