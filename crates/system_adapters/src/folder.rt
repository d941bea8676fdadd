//! The files of a folder of documents. It tells nothing of its content, and counts its faults.
ghost use Rattle.std.specs.Prelude.{◌≡◌, ◌≤◌, length, IfOk};
ghost use Rattle.host_core.specs.Faults.{Rose};

use host_core::{Failed, Folder, NamesFault, StartFault, raised};
use net_model::Domain;
use std::alloc::{AllocError, Global};
use std::fs::{self, DirEntry, File, ReadDir};
use std::io::{self, ErrorKind, Read};
use std::path::{Path, PathBuf};
use std::str;

/// What the name of a file that isn't marked ends in.
const PENDING: &str = ".yml";

/// What stands in its place once the file is marked.
const MARKED: &str = ".applied";

/// The files of a folder, or of none, whose every call fails. It opens the folder to list it and to sync a mark, and a file where
/// that is begun; nothing before. What is no regular file, nor a link to one, is no document.
pub struct FileFolder<'a> {
    rt: &'a HostRuntime,
    folder: Option<&'a str>,
    // The file that is read.
    file: Option<File>,
    faults: u64,
}

impl<'a> Drop for FileFolder<'a> {
    fn drop(self) {
        let FileFolder {
            rt: _,
            folder: _,
            file: _,
            faults: _,
        } = self;
    }
}

impl<'a> FileFolder<'a> {
    /// The files of this folder, at which nothing failed. No folder is one whose every call fails.
    pub fn new(rt: &'a HostRuntime, folder: Option<&'a str>) -> FileFolder<'a>
        ensures { (⟦<FileFolder<'a> as Folder>⟧.told result).faults ≡ 0 }
    {
        FileFolder {
            rt,
            folder,
            file: None,
            faults: 0,
        }
    }

    /// How many of its calls failed.
    pub fn faults(&self) -> u64
        ensures { result ≡ (⟦<FileFolder<'a> as Folder>⟧.told self.now).faults }
    {
        self.faults
    }

    // Counts a fault.
    fn fault(&mut self)
        ensures rose { Rose self.old.faults self.new.faults }
        ensures later { self.old.faults ≤ self.new.faults }
    {
        self.faults = raised(self.faults);
    }

    fn folder(&self) -> io::Result<&'a str> {
        match self.folder {
            Some(folder) => Ok(folder),
            None => Err(io::Error::from(ErrorKind::NotADirectory)),
        }
    }

    // The path of a file. A name with a slash would lead out of the folder.
    fn path(&self, name: &str) -> io::Result<PathBuf> {
        let folder = self.folder()?;
        if name.contains('/') {
            return Err(io::Error::from(ErrorKind::NotFound));
        }
        Ok(Path::new(folder).join(self.rt.alloc(), name)?)
    }

    // The file of a name, at its first byte.
    fn opened(&self, name: &Domain) -> io::Result<File> {
        let path = self.path(text(name)?)?;
        if is_other(self.rt, path.as_path()) {
            return Err(io::Error::from(ErrorKind::NotFound));
        }
        File::open(self.rt, path)
    }

    // The path of a file once it is marked.
    fn marked_path(&self, name: &str) -> io::Result<PathBuf> {
        let marked = marked_name(self.rt.alloc(), name)?;
        self.path(marked.as_str())
    }

    // Syncs the folder, so that its files keep their names.
    fn sync(&self) -> io::Result<()> {
        File::open(self.rt, self.folder()?)?.sync_all()
    }

    // Renames the file of a name, and syncs the folder, so that the file stays marked.
    fn rename(&self, name: &Domain) -> io::Result<()> {
        let name = text(name)?;
        fs::rename(self.rt, self.path(name)?, self.marked_path(name)?)?;
        self.sync()
    }

    // The names of the pending files that are domains, sorted.
    fn listed(&self, alloc: Global) -> io::Result<Vec<Domain>> {
        let entries = fs::read_dir(self.rt, self.folder()?)?;
        let mut names = Vec::new(alloc);
        push_all(self.rt, alloc, entries, &mut names)?;
        names.sort()?;
        Ok(names)
    }
}

// Reads on in the file that was begun.
fn read_on(file: &mut Option<File>, buf: &mut [u8]) -> io::Result<usize>
    ensures { IfOk result (λ count. count ≤ length buf.old) }
{
    match file {
        Some(file) => file.read(buf),
        None => Err(io::Error::from(ErrorKind::NotFound)),
    }
}

// The name as a string: domains are ASCII.
fn text(name: &Domain) -> io::Result<&str> {
    match str::from_utf8(name.as_bytes()) {
        Ok(name) => Ok(name),
        Err(_) => Err(io::Error::from(ErrorKind::InvalidFilename)),
    }
}

// The name of a file once it is marked.
fn marked_name(alloc: Global, name: &str) -> Result<String, AllocError> {
    let stem = name.strip_suffix(PENDING).unwrap_or(name);
    let mut marked = String::from_str(alloc, stem)?;
    marked.push_str(MARKED)?;
    Ok(marked)
}

// Whether a FIFO, a socket, a device or a folder stands there, or a link to such. A link that leads nowhere is a document
// that can't be begun: to pass over it would leave out what it stands for.
fn is_other(rt: &HostRuntime, path: Path<'_>) -> bool {
    match fs::metadata(rt, path) {
        Ok(metadata) => !metadata.is_file(),
        Err(_) => false,
    }
}

// Appends the names of the pending files that are domains.
fn push_all(
    rt: &HostRuntime,
    alloc: Global,
    entries: ReadDir,
    names: &mut Vec<Domain>,
) -> io::Result<()> {
    for entry in entries {
        push_entry(rt, alloc, entry, names)?;
    }
    Ok(())
}

fn push_entry(
    rt: &HostRuntime,
    alloc: Global,
    entry: io::Result<DirEntry>,
    names: &mut Vec<Domain>,
) -> io::Result<()> {
    match entry {
        Ok(entry) => Ok(push_pending(rt, alloc, &entry, names)?),
        // A name that isn't UTF-8 is no domain.
        Err(error) if error.kind() == ErrorKind::InvalidFilename => Ok(()),
        Err(error) => Err(error),
    }
}

// Appends the name of a pending file, where it is a domain.
fn push_pending(
    rt: &HostRuntime,
    alloc: Global,
    entry: &DirEntry,
    names: &mut Vec<Domain>,
) -> Result<(), AllocError> {
    let name = entry.file_name();
    if !name.ends_with(PENDING) || is_other(rt, entry.path()) {
        return Ok(());
    }
    let bytes = Vec::from_slice(alloc, name.as_bytes())?;
    if let Some(domain) = Domain::of(bytes) {
        names.push(domain)?;
    }
    Ok(())
}

impl<'a> Folder for FileFolder<'a> {
    ghost use Rattle.system_adapters.specs.Silent.{silent_folder, lawful_silent};

    ghost tells = { ⊥ };

    ghost told = { λ s. silent_folder s.faults };

    ghost lawful = { λ s. lawful_silent s.faults };

    fn names(&mut self, alloc: Global) -> Result<Vec<Domain>, NamesFault> {
        match self.listed(alloc) {
            Ok(names) => Ok(names),
            Err(error) if error.kind() == ErrorKind::OutOfMemory => Err(NamesFault::OutOfMemory),
            Err(_) => {
                self.fault();
                Err(NamesFault::Failed)
            }
        }
    }

    fn start(&mut self, name: &Domain) -> Result<(), StartFault> {
        match self.opened(name) {
            Ok(file) => {
                self.file = Some(file);
                Ok(())
            }
            Err(error) if error.kind() == ErrorKind::NotFound => Err(StartFault::NoSuchName),
            Err(_) => {
                self.fault();
                Err(StartFault::Failed)
            }
        }
    }

    fn read(&mut self, buf: &mut [u8]) -> Result<u64, Failed> {
        match read_on(&mut self.file, buf) {
            Ok(count) => Ok(count as u64),
            Err(_) => {
                self.fault();
                Err(Failed)
            }
        }
    }

    fn mark(&mut self, name: &Domain) -> Result<(), Failed> {
        match self.rename(name) {
            Ok(()) => Ok(()),
            Err(_) => {
                self.fault();
                Err(Failed)
            }
        }
    }
}
