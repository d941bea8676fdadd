//! Files and standard input as a source. It tells nothing of its content, and counts its faults.
ghost use Rattle.std.specs.Prelude.{◌≡◌, ◌≤◌};
ghost use Rattle.host_core.specs.Faults.{Rose};

use host_core::{Failed, Source, StartFault, raised};
use std::fs::{self, File};
use std::io::{ErrorKind, Read, Stdin};
use std::os::unix::fs::FileTypeExt;

/// The name of standard input.
const STANDARD_INPUT: &str = "-";

/// Its name as a file, which is read by the open stream too: opened anew, a FIFO there would wait for somebody who writes to it.
const ITS_FILE: &str = "/dev/stdin";

/// The folders of the files that the program was started with: what a shell writes for a process whose output is FILE.
const DESCRIPTORS: [&str; 2] = ["/dev/fd/", "/proc/self/fd/"];

/// Files under their names, and standard input under `-` and `/dev/stdin`. A file is opened where it is begun; nothing before. A
/// FIFO has no name here, so that nothing waits for somebody who writes to it, but for one that the program was started with.
pub struct FileSource<'a> {
    rt: &'a HostRuntime,
    stdin: Stdin,
    // The file that is read, or none for standard input.
    file: Option<File>,
    faults: u64,
}

impl<'a> Drop for FileSource<'a> {
    fn drop(self) {
        let FileSource {
            rt: _,
            stdin: _,
            file: _,
            faults: _,
        } = self;
    }
}

impl<'a> FileSource<'a> {
    /// A source that begins with standard input, at which nothing failed.
    pub fn new(rt: &'a HostRuntime) -> FileSource<'a>
        ensures { (⟦<FileSource<'a> as Source>⟧.told result).faults ≡ 0 }
    {
        FileSource {
            rt,
            stdin: rt.stdin(),
            file: None,
            faults: 0,
        }
    }

    /// How many of its calls failed.
    pub fn faults(&self) -> u64
        ensures { result ≡ (⟦<FileSource<'a> as Source>⟧.told self.now).faults }
    {
        self.faults
    }

    // Counts a fault.
    fn fault(&mut self)
        ensures rose { Rose self.old.faults self.new.faults }
        ensures later { self.old.faults ≤ self.new.faults }
    {
        self.faults = raised(self.faults);
    }
}

// Whether a file couldn't be opened because there is none of that name: also where a part of its path is a file itself,
// or where no file can have such a name.
fn is_missing(kind: ErrorKind) -> bool {
    matches!(
        kind,
        ErrorKind::NotFound
            | ErrorKind::NotADirectory
            | ErrorKind::InvalidInput
            | ErrorKind::InvalidFilename
    )
}

// Whether it is the name of a FIFO that the program wasn't started with.
fn is_fifo(rt: &HostRuntime, name: &str) -> bool {
    if name.starts_with(DESCRIPTORS[0]) || name.starts_with(DESCRIPTORS[1]) {
        return false;
    }
    match fs::metadata(rt, name) {
        Ok(metadata) => metadata.file_type().is_fifo(),
        Err(_) => false,
    }
}

// The file of a name, or none for standard input.
fn opened(rt: &HostRuntime, name: &str) -> Result<Option<File>, StartFault> {
    if name == STANDARD_INPUT || name == ITS_FILE {
        return Ok(None);
    }
    if is_fifo(rt, name) {
        return Err(StartFault::NoSuchName);
    }
    match File::open(rt, name) {
        Ok(file) => Ok(Some(file)),
        Err(error) if is_missing(error.kind()) => Err(StartFault::NoSuchName),
        Err(_) => Err(StartFault::Failed),
    }
}

impl<'a> Source for FileSource<'a> {
    ghost use Rattle.system_adapters.specs.Silent.{silent_source};

    ghost tells = { ⊥ };

    ghost told = { λ s. silent_source s.faults };

    fn start(&mut self, name: &str) -> Result<(), StartFault> {
        match opened(self.rt, name) {
            Ok(file) => {
                self.file = file;
                Ok(())
            }
            Err(StartFault::NoSuchName) => Err(StartFault::NoSuchName),
            Err(StartFault::Failed) => {
                self.fault();
                Err(StartFault::Failed)
            }
        }
    }

    fn read(&mut self, buf: &mut [u8]) -> Result<u64, Failed> {
        let read = match &mut self.file {
            Some(file) => file.read(buf),
            None => self.stdin.read(buf),
        };
        match read {
            Ok(count) => Ok(count as u64),
            Err(_) => {
                self.fault();
                Err(Failed)
            }
        }
    }
}
