//! The files of a folder.
ghost use Rattle.std.specs.Prelude.{◌≡◌};

use crate::fault::FileFault;
use crate::raw::RawDisk;
use crate::whole::WholeDisk;
use host_core::{Area, Disk};
use std::fs::{self, File, OpenOptions};
use std::io::{self, ErrorKind};
use std::os::unix::fs::{FileExt, OpenOptionsExt};
use std::path::{Path, PathBuf};

/// The file of area 0, the kernel.
const KERNEL: &str = "kernel";

/// The file of area 1, the checkpoint.
const CELL: &str = "cell";

/// The mode of a file that is made: whoever may write the files says what the network is.
const MODE: u32 = 0o600;

// The open files of a folder that is locked.
#[derive(Drop)]
struct Opened {
    // The folder itself. None where it may be written but not listed, and so can't be opened.
    folder: Option<File>,
    kernel: File,
    cell: File,
    // Whether the names of the files were synced since they were opened.
    is_kept: bool,
}

#[derive(Drop)]
enum State {
    Untried,
    Open(Opened),
    Refused,
}

/// Two files of a folder, `kernel` and `cell`. Its first call opens and locks the folder, and then opens the files, and so does
/// the first after a release; before it nothing is opened or made. It tells nothing of its content.
#[derive(Drop)]
pub struct Folder<'a> {
    rt: &'a HostRuntime,
    folder: &'a str,
    state: State,
}

/// A disk over two files of a folder.
pub type FileDisk<'a> = WholeDisk<Folder<'a>>;

// Takes the lock on a file, which keeps off every other program that asks for it. It goes with the file that is open here,
// however the process ends.
fn lock(file: &File) -> Result<(), FileFault> {
    match file.try_lock() {
        Ok(()) => Ok(()),
        Err(_) => Err(FileFault::InUse),
    }
}

// The folder itself, locked, or none where it can't be listed. The name is looked at first: opening a FIFO would wait for
// somebody who writes to it.
fn lock_folder(rt: &HostRuntime, folder: &str) -> Result<Option<File>, FileFault> {
    if !fs::metadata(rt, folder)?.is_dir() {
        return Err(FileFault::NotOpen);
    }
    match File::open(rt, folder) {
        Ok(file) => {
            lock(&file)?;
            Ok(Some(file))
        }
        Err(error) if error.kind() == ErrorKind::PermissionDenied => Ok(None),
        Err(error) => Err(FileFault::System(error)),
    }
}

// Makes a file that is missing. It follows no link: one whose target is missing is refused, and nothing is made elsewhere.
fn make_file(rt: &HostRuntime, path: &PathBuf) -> io::Result<File> {
    OpenOptions::new()
        .read(true)
        .write(true)
        .create_new(true)
        .mode(MODE)
        .open(rt, path)
}

// Opens a file of the folder, and makes it empty where it is missing.
fn open_file(rt: &HostRuntime, folder: &str, name: &str) -> Result<File, FileFault> {
    let path = Path::new(folder).join(rt.alloc(), name)?;
    match OpenOptions::new().read(true).write(true).open(rt, &path) {
        Ok(file) => Ok(file),
        Err(error) if error.kind() == ErrorKind::NotFound => Ok(make_file(rt, &path)?),
        Err(error) => Err(FileFault::System(error)),
    }
}

// Locks the folder and then the file `cell`, and only then opens what is written to. The second lock is for a folder that
// not everybody who works on it may list: who may, and who may not, meet there.
fn open_all(rt: &HostRuntime, folder: &str) -> Result<Opened, FileFault> {
    let itself = lock_folder(rt, folder)?;
    let cell = open_file(rt, folder, CELL)?;
    lock(&cell)?;
    Ok(Opened {
        folder: itself,
        kernel: open_file(rt, folder, KERNEL)?,
        cell,
        is_kept: false,
    })
}

impl<'a> WholeDisk<Folder<'a>> {
    /// A disk over the files of this folder, at which nothing failed. It opens nothing, takes no memory, and makes no file:
    /// the first call on the disk does, and the first after a release. That one locks the folder without waiting, and the
    /// file `cell` too, and then opens both files, made empty with the mode 0600 where they are missing; all stay open until
    /// the disk is released or ends. Where the folder isn't there, or its files can't be opened or made, or another program
    /// holds a lock, or the file system has none, that call and each later one fails, and counts: what was refused once isn't
    /// tried again.
    pub fn open(rt: &'a HostRuntime, folder: &'a str) -> FileDisk<'a>
        ensures { (⟦<WholeDisk<Folder<'a>> as Disk>⟧.told result).faults ≡ 0 }
    {
        let state = State::Untried;
        WholeDisk::new(Folder { rt, folder, state }, 0)
    }
}

impl Opened {
    // The file of an area.
    fn file(&self, area: u8) -> &File {
        if area == Area::Kernel.number() {
            &self.kernel
        } else {
            &self.cell
        }
    }

    // Syncs the names of the files once, before the first write: a file whose name a stop may take has no byte. What only
    // reads needn't. A folder that can't be opened can't be synced: there the files are synced whole, which keeps the name of a
    // new file too on the journaling file systems of Linux.
    fn keep_names(&mut self) -> io::Result<()> {
        if !self.is_kept {
            match &self.folder {
                Some(folder) => folder.sync_all()?,
                None => self.sync_files()?,
            }
            self.is_kept = true;
        }
        Ok(())
    }

    fn sync_files(&self) -> io::Result<()> {
        self.kernel.sync_all()?;
        self.cell.sync_all()
    }
}

impl<'a> Folder<'a> {
    // The open files. They are opened at the first call, and at the first after a release: what was refused once isn't tried
    // again, so that no command begins on a state that another one is about to leave.
    fn opened(&mut self) -> Result<&mut Opened, FileFault> {
        if let State::Untried = self.state {
            self.state = match open_all(self.rt, self.folder) {
                Ok(opened) => State::Open(opened),
                Err(_) => State::Refused,
            };
        }
        match &mut self.state {
            State::Open(opened) => Ok(opened),
            _ => Err(FileFault::NotOpen),
        }
    }
}

impl<'a> RawDisk for Folder<'a> {
    ghost use Rattle.file_disk.specs.Silent.{silent, lawful_silent};

    ghost tells = { ⊥ };

    ghost told = { λ _. silent };

    ghost lawful = { λ _. lawful_silent };

    fn size(&mut self, area: u8) -> Result<u64, FileFault> {
        Ok(self.opened()?.file(area).metadata()?.len())
    }

    fn read_some(&mut self, area: u8, at: u64, buf: &mut [u8]) -> Result<usize, FileFault> {
        Ok(self.opened()?.file(area).read_at(buf, at)?)
    }

    fn write_some(&mut self, area: u8, at: u64, bytes: &[u8]) -> Result<usize, FileFault> {
        let opened = self.opened()?;
        opened.keep_names()?;
        Ok(opened.file(area).write_at(bytes, at)?)
    }

    /// It syncs the bytes and the length, which are all that a read gives.
    fn sync(&mut self, area: u8) -> Result<(), FileFault> {
        Ok(self.opened()?.file(area).sync_data()?)
    }

    /// It closes the files, and their locks go with them.
    fn release(&mut self) {
        if let State::Open(_) = self.state {
            self.state = State::Untried;
        }
    }
}
