//! A folder in memory.
ghost use Rattle.std.specs.Prelude.{◌≡◌, ◌≤◌, ◌++◌, ◌∷◌, [], true, false, IfOk, OnOk, IsTrue, IsFalse, IsSome, codes, flat_map, length};
ghost use Rattle.std.specs.List.{position};
ghost use Rattle.net_model.specs.Name.{same_bytes};
ghost use Rattle.net_model.specs.Order.{name_cmp};
ghost use Rattle.net_model.specs.Words.{sorted};
ghost use Rattle.host_core.specs.Folders.{HasFiles, ends_in_yml};
ghost use Rattle.host_memory.specs.Fused.{IsFresh};
ghost use Rattle.case_outside.specs.FolderRecord.{MarksFused, MarksNamed, differ, is_unmarked_named, listed_of, unmarked};

use host_core::{Failed, Folder, NamesFault, StartFault, raised};
use host_memory::{Fuse, Fuses};
use net_model::Domain;
use std::alloc::{AllocError, Global};

/// How many bytes the end of the name of a pending file has.
const ENDING: usize = 4;

/// A file of a folder in memory. One that is marked keeps its name.
#[derive(Drop)]
pub struct FolderFile {
    pub name: Domain,
    pub bytes: Vec<u8>,
    pub marked: bool,
}

/// Files in memory of different names. It fails at the calls that its fuses name, of which a mark may be made all the same; memory
/// that is refused in a call that has no answer for it is a fault of that call.
#[derive(Drop)]
pub struct MemoryFolder {
    files: Vec<FolderFile>,
    fuses: Fuses,
    faults: u64,
    // The names of the files that were marked, the first first.
    log: Vec<Domain>,
    // The bytes of the file that was begun, and where the next read begins.
    begun: Vec<u8>,
    from: usize,
    ghost apart: { differ files.items ≡ true },
    ghost within: { from ≤ length begun.items },
}

impl MemoryFolder {
    /// A folder of these files, of which none is begun, and at which nothing failed. Their names differ.
    pub fn new(alloc: Global, files: Vec<FolderFile>, fuses: Vec<Fuse>) -> MemoryFolder
        requires { differ files.items ≡ true }
        ensures files { (⟦<MemoryFolder as Folder>⟧.told result).files ≡ unmarked files.items }
        // No mark is in doubt.
        ensures sure { HasFiles (unmarked files.items) (⟦<MemoryFolder as Folder>⟧.told result) }
        ensures faults { (⟦<MemoryFolder as Folder>⟧.told result).faults ≡ 0 }
        ensures fresh { IsFresh fuses.items result.fuses }
    {
        MemoryFolder {
            files,
            fuses: Fuses::new(fuses),
            faults: 0,
            log: Vec::new(alloc),
            begun: Vec::new(alloc),
            from: 0,
        }
    }

    /// All files, those that are marked too.
    pub fn files(&self) -> &Vec<FolderFile>
        ensures { (⟦<MemoryFolder as Folder>⟧.told self.now).files ≡ unmarked result.now.items }
    {
        &self.files
    }
}

fn same_end(bytes: &[u8]) -> bool
    ensures { result ≡ same_bytes bytes.now (codes ".yml") }
{
    bytes == b".yml".as_slice()
}

// Whether a name ends as those of pending files do.
fn ends_in_yml(name: &Domain) -> bool
    ensures { result ≡ ends_in_yml name.now }
{
    let bytes = name.as_bytes();
    bytes.len() >= ENDING && same_end(&bytes[bytes.len() - ENDING..])
}

// Appends the name of a file that is pending.
fn push_pending(file: &FolderFile, names: &mut Vec<Domain>) -> Result<(), AllocError>
    ensures { OnOk result (names.new.items ≡ names.old.items ++ listed_of file.now) }
{
    if !file.marked && ends_in_yml(&file.name) {
        names.push(file.name.clone()?)?;
    }
    Ok(())
}

// The names of the pending files, in the order of the files.
fn listed(alloc: Global, files: &[FolderFile]) -> Result<Vec<Domain>, AllocError>
    ensures { IfOk result (λ names. names.items ≡ flat_map listed_of files.now) }
{
    let mut names = Vec::new(alloc);
    for file in files {
        push_pending(file, &mut names)?;
    }
    Ok(names)
}

fn sort_names(names: &mut Vec<Domain>) -> Result<(), AllocError>
    ensures { OnOk result (names.new.items ≡ sorted name_cmp names.old.items) }
{
    names.sort()
}

// The names of the pending files, in the order of their bytes.
fn sorted_names(alloc: Global, files: &[FolderFile]) -> Result<Vec<Domain>, AllocError>
    ensures { IfOk result (λ names. names.items ≡ sorted name_cmp (flat_map listed_of files.now)) }
{
    let mut names = listed(alloc, files)?;
    sort_names(&mut names)?;
    Ok(names)
}

// The place of the file of this name that isn't marked.
fn place_of(files: &[FolderFile], name: &Domain) -> Option<usize>
    ensures { result ≡ position (is_unmarked_named name.now) files.now }
{
    files
        .iter()
        .position(|file| !file.marked && file.name == *name)
}

// Notes a name behind the others, and answers whether it did. Where memory is refused, nothing changes.
fn note(log: &mut Vec<Domain>, name: &Domain) -> bool
    ensures noted { IsTrue result → log.new.items ≡ log.old.items ++ name.now ∷ [] }
    ensures same { result ≡ false → log.new.items ≡ log.old.items }
{
    match name.clone() {
        Ok(noted) => log.push(noted).is_ok(),
        Err(_) => false,
    }
}

fn copied(bytes: &Vec<u8>) -> Result<Vec<u8>, AllocError>
    ensures { IfOk result (λ copy. copy.items ≡ bytes.now.items) }
{
    bytes.clone()
}

// Marks the file of this name that isn't marked, notes its name, and answers whether it did. Where there is none, or memory is
// refused, nothing changes.
fn mark_named(files: &mut Vec<FolderFile>, log: &mut Vec<Domain>, name: &Domain) -> bool
    requires { differ files.old.items ≡ true }
    ensures { MarksNamed name.now files.old.items files.new.items log.old.items log.new.items result }
{
    let Some(place) = place_of(files, name) else {
        return false;
    };
    if !note(log, name) {
        return false;
    }
    files[place].marked = true;
    true
}

// Marks the file of this name as far as its fuse lets it, and answers whether it is marked and no fuse is there.
fn mark_fused(
    files: &mut Vec<FolderFile>,
    log: &mut Vec<Domain>,
    name: &Domain,
    fuse: Option<Fuse>,
) -> bool
    requires { differ files.old.items ≡ true }
    ensures marks { MarksFused name.now files.old.items files.new.items log.old.items log.new.items result }
    ensures fused { IsSome fuse → IsFalse result }
{
    match fuse {
        None => mark_named(files, log, name),
        Some(fuse) => {
            if fuse.done {
                let _ = mark_named(files, log, name);
            }
            false
        }
    }
}

impl Folder for MemoryFolder {
    ghost use Rattle.std.specs.Prelude.{◌≡◌, ◌↔◌, ◌<◌, ◌≤◌, length, Some, None, IfOk, OnOk, IsErr, IsErrOf};
    ghost use Rattle.host_core.specs.Faults.{HasCause, HasFault};
    ghost use Rattle.host_core.specs.Folders.{HasFiles, IsPending, MaybeMarked, ReadsOn, Unmoved, bytes_of, pending_names, without};
    ghost use Rattle.host_core.specs.Stops.{Steps};
    ghost use Rattle.host_memory.specs.Fused.{IsCounted, IsFused};
    ghost use Rattle.case_outside.specs.FolderMemory.{folder_told, lawful_folder};

    ghost tells = { Unit {0} };

    ghost told = { folder_told };

    ghost lawful = { lawful_folder };

    fn names(&mut self, alloc: Global) -> Result<Vec<Domain>, NamesFault>
        ensures names { IfOk result (λ names. names.items ≡ pending_names (folder_told self.old).files) }
        ensures unmoved { Unmoved (Unit {0}) (folder_told self.old) (folder_told self.new) }
        ensures cause { HasFault (folder_told self.old).faults (folder_told self.new).faults NamesFault.Failed result }
        ensures fused { IsFused self.old.fuses ↔ IsErrOf result NamesFault.Failed }
        ensures numbered { IsCounted self.old.fuses self.new.fuses }
    {
        if self.fuses.next().is_some() {
            self.faults = raised(self.faults);
            return Err(NamesFault::Failed);
        }
        match sorted_names(alloc, &self.files) {
            Ok(names) => Ok(names),
            Err(_) => Err(NamesFault::OutOfMemory),
        }
    }

    fn start(&mut self, name: &Domain) -> Result<(), StartFault>
        ensures begins { OnOk result (bytes_of name.now (folder_told self.old).files ≡ Some (folder_told self.new).left) }
        ensures no_such { IsErrOf result StartFault.NoSuchName → bytes_of name.now (folder_told self.old).files ≡ None }
        ensures unmoved { Unmoved (Unit {0}) (folder_told self.old) (folder_told self.new) }
        ensures cause { HasFault (folder_told self.old).faults (folder_told self.new).faults StartFault.Failed result }
        ensures fused { IsFused self.old.fuses → IsErrOf result StartFault.Failed }
        ensures numbered { IsCounted self.old.fuses self.new.fuses }
    {
        if self.fuses.next().is_some() {
            self.faults = raised(self.faults);
            return Err(StartFault::Failed);
        }
        let Some(place) = place_of(&self.files, name) else {
            return Err(StartFault::NoSuchName);
        };
        let Ok(begun) = copied(&self.files[place].bytes) else {
            self.faults = raised(self.faults);
            return Err(StartFault::Failed);
        };
        self.begun = begun;
        self.from = 0;
        Ok(())
    }

    fn read(&mut self, buf: &mut [u8]) -> Result<u64, Failed>
        requires { 0 < length buf.old }
        ensures bound { IfOk result (λ n. n ≤ length buf.old) }
        ensures reads { IfOk result (ReadsOn (folder_told self.old).left (folder_told self.new).left buf.new) }
        ensures unmoved { Unmoved (Unit {0}) (folder_told self.old) (folder_told self.new) }
        ensures cause { HasCause (folder_told self.old).faults (folder_told self.new).faults result }
        ensures fused { IsFused self.old.fuses ↔ IsErr result }
        ensures numbered { IsCounted self.old.fuses self.new.fuses }
    {
        if self.fuses.next().is_some() {
            self.faults = raised(self.faults);
            return Err(Failed);
        }
        let count = buf.len().min(self.begun.len() - self.from);
        buf[..count].copy_from_slice(&self.begun[self.from..self.from + count]);
        self.from += count;
        Ok(count as u64)
    }

    fn mark(&mut self, name: &Domain) -> Result<(), Failed>
        requires { IsPending name.now (folder_told self.old).files }
        ensures marked { OnOk result ((folder_told self.new).files ≡ without name.now (folder_told self.old).files) }
        ensures maybe { MaybeMarked name.now (folder_told self.old).files (folder_told self.new).files }
        ensures stays { OnOk result (HasFiles (folder_told self.new).files (folder_told self.new)) }
        ensures stops { Steps (MaybeMarked name.now) (folder_told self.old).stops (folder_told self.new).stops }
        ensures cause { HasCause (folder_told self.old).faults (folder_told self.new).faults result }
        ensures fused { IsFused self.old.fuses → IsErr result }
        ensures numbered { IsCounted self.old.fuses self.new.fuses }
    {
        let fuse = self.fuses.next();
        if mark_fused(&mut self.files, &mut self.log, name, fuse) {
            return Ok(());
        }
        self.faults = raised(self.faults);
        Err(Failed)
    }
}
